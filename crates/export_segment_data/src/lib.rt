// What a segment holds, for C: its bytes, its dynamic entries, its interpreter's name and its notes. A
// segment is passed as those of its numbers that the answer depends on.
#![tactic(auto)]

pub mod data;
pub mod dynamic;
pub mod parts;
