// GNU symbol versions: definitions and needs parsed into a lent store.
#![tactic(auto)]

mod fill;
pub mod parse;
pub mod store;
