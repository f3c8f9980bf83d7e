// GNU symbol versions: the layout of the lent store, the version behind an index, and the version of
// a symbol.
#![tactic(auto)]

pub mod index;
pub mod store;
pub mod table;
