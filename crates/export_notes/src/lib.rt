// Notes and GNU properties, for C. A reader is passed as its numbers.
#![tactic(auto)]

pub mod notes;
pub mod properties;
