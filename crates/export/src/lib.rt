// What the exported functions share: class and order as C passes them, and the structs that more
// than one of them hands back. include/fetulombo.h says what a caller must know.
#![tactic(auto)]

pub mod answers;
pub mod kinds;
pub mod lookups;
pub mod parts;
