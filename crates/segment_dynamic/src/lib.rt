// The dynamic entries that a segment holds.
#![tactic(auto)]

pub mod dynamic;
