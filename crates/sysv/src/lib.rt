// The SysV hash table: a lookup with its probes.
#![tactic(auto)]

pub mod find;
