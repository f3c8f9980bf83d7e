// What a segment's bytes in the lent file are: the interpreter's name, notes.
#![tactic(auto)]

pub mod interpreter;
pub mod notes;
