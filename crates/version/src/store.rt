// The lent store: the numbers of each version, at its index.
use super::index::VersionIndex;

// The numbers of an entry.
pub const ENTRY: usize = 6;

// The kinds of an entry; 0 is none. Numbers and no enum: the store is lent, and may hold any number here.
pub const DEFINITION: u32 = 1;

pub const NEED: u32 = 2;

// A part of the versions' strings. No `strings::Place`: the store holds 32 bits of each, and so does C's struct.
#[derive(Clone, Copy, Debug, PartialEq, Eq)]
pub struct Part {
    pub start: u32,
    pub len: u32,
}

// A version. The file is that of a need, and start 0 and length 0 of a definition.
#[derive(Clone, Copy, Debug, PartialEq, Eq)]
pub struct Version {
    pub kind: u32,
    pub hash: u32,
    pub name: Part,
    pub file: Part,
}

// A version at its index.
#[derive(Clone, Copy, Debug, PartialEq, Eq)]
pub struct Stored {
    pub index: VersionIndex,
    pub version: Version,
}
