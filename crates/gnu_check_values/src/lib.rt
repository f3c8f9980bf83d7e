// The GNU checker's G7 and G8: the values and the bloom bits of the hashed symbols.
#![tactic(auto)]

pub mod blooms;
pub mod values;
