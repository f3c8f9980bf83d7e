// What the records of the version sections store.
#![tactic(auto)]

pub mod entries;
