// What both hash tables say of the symbol table, and their checkers, for C.
#![tactic(auto)]

pub mod checks;
pub mod lengths;
