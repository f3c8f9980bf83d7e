// The checker of SysV hash tables: the rules T1 to T3, in order.
#![tactic(auto)]

pub mod table;
