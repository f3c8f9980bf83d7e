// The GNU checker: whether a table keeps the rules of document 01, and the longest chain.
#![tactic(auto)]

pub mod check;
