// The GNU hash table: a lookup with its probes.
#![tactic(auto)]

pub mod find;
mod start;
mod walk;
