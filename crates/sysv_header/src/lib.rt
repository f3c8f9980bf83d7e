// The header of a SysV hash table, and the length of the symbol table that it says.
#![tactic(auto)]

pub mod header;
pub mod length;
