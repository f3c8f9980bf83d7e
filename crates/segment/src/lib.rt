// The program segments of a file: the table that lends entries by number.
#![tactic(auto)]

pub mod table;
