// The records of the version sections, at a place: how a list and a chain of them go on.
#![tactic(auto)]

pub mod records;
