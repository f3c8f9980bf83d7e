// Words, strings and the hashes of a name, for C.
#![tactic(auto)]

pub mod hashes;
pub mod string_table;
pub mod words;
