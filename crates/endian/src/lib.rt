// What every other crate stands on: class and byte order as values, the size limit, the refusals
// by number, and in `specs/` what a word at a place is.
#![tactic(auto)]

pub mod kinds;
pub mod refusals;
