// Notes of a section or a segment. A reader is a value: each step answers what it found and the
// reader that stands after it.
#![tactic(auto)]

pub mod reader;
