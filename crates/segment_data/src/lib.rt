// The bytes of a segment in the lent file, and those of an address range.
#![tactic(auto)]

pub mod part;
