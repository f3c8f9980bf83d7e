// The records of the version sections: their layouts, in specs/, the indices that they name, and their
// places.
#![tactic(auto)]

pub mod indices;
pub mod steps;
