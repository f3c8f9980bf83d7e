// Symbols, and what their fields say, for C.
#![tactic(auto)]

pub mod facts;
pub mod symbols;
