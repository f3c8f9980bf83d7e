// What the GNU checker's passes read, and the GNU hash of a symbol's name.
#![tactic(auto)]

pub mod hashes;
pub mod table;
