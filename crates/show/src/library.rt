// The library of the sample, as it is or changed by hand in one place.
use super::sample;

#[derive(Clone, Copy, Debug, PartialEq, Eq)]
pub(crate) enum Change {
    None,
    Undefined,
    Local,
    Hidden,
    Unversioned,
}

fn changed(at: usize, byte: u8) -> [u8; 168] {
    let mut symbols = sample::symbols();
    if at < 168 {
        symbols[at] = byte;
    }
    symbols
}

// Symbol 4, import_lot of LOT_2.0, has its info at 100, its other at 101 and its section at 102.
pub(crate) fn symbols(change: Change) -> [u8; 168] {
    match change {
        Change::Undefined => changed(102, 0),
        Change::Local => changed(100, 0x02),
        Change::Hidden => changed(101, 2),
        _ => sample::symbols(),
    }
}

// Symbol 5, import_lot of LOT_1.0, at index 1, which is no version.
fn unversioned() -> [u8; 14] {
    let mut versyms = sample::versyms();
    versyms[10] = 1;
    versyms[11] = 0;
    versyms
}

pub(crate) fn versyms(change: Change) -> [u8; 14] {
    match change {
        Change::Unversioned => unversioned(),
        _ => sample::versyms(),
    }
}

// The hash table with a bit of symbol 4's value changed.
pub(crate) fn damaged() -> [u8; 60] {
    let mut table = sample::table();
    table[48] = 0xac;
    table
}
