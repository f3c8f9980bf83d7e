// T3 of the SysV checker, by one walk along every chain.
#![tactic(auto)]

pub mod chains;
mod names;
