// The first pass over the version sections: the highest index that they name.
#![tactic(auto)]

pub mod highest;
