// The GNU hash table: its header, where its parts stand, its words, and its bloom filter.
#![tactic(auto)]

pub mod filter;
pub mod header;
pub mod words;
