// ELF symbols: the record of a number, and its name.
#![tactic(auto)]

pub mod table;
