// The versions of symbols.
use super::library::{Change, versyms};
use super::sample::strings;
use super::text::{put, put_left, put_number, put_refusal};
use endian::kinds::Order;
use std::io;
use symbol::table::SymbolIndex;
use version::index::VersionIndex;
use version::store::Part;
use version::table::{Versym, entry, version_of};

fn put_part(rt: &impl Print, part: Part, width: usize) -> io::Result<()> {
    let text = strings();
    let start = part.start as usize;
    let end = start + part.len as usize;
    if end <= text.len() {
        put_left(rt, &text[start..end], width)?;
    }
    Ok(())
}

fn put_entry(rt: &impl Print, store: &[u32], index: VersionIndex, width: usize) -> io::Result<()> {
    match entry(store, &strings(), index) {
        Ok(Some(version)) => put_part(rt, version.name, width),
        Ok(None) => put_left(rt, b"none", width),
        Err(refusal) => put_refusal(rt, refusal),
    }
}

pub(crate) fn put_version(
    rt: &impl Print,
    change: Change,
    store: &[u32],
    symbol: SymbolIndex,
) -> io::Result<()> {
    match version_of(Order::Little, &versyms(change), symbol) {
        Ok(versym) => put_entry(rt, store, versym.index, 9),
        Err(refusal) => put_refusal(rt, refusal),
    }
}

fn put_hidden(rt: &impl Print, hidden: bool) -> io::Result<()> {
    if hidden {
        put(rt, b", hidden bit set\n")
    } else {
        put(rt, b", hidden bit not set\n")
    }
}

fn put_versym(rt: &impl Print, store: &[u32], versym: Versym) -> io::Result<()> {
    let index = versym.index;
    put(rt, b", version ")?;
    put_entry(rt, store, index, 0)?;
    put(rt, b", index ")?;
    put_number(rt, index.0 as u64, 0)?;
    put_hidden(rt, versym.hidden)
}

// A definition of a routine, with its version, its version's index and its hidden bit.
pub(crate) fn put_definition(
    rt: &impl Print,
    change: Change,
    store: &[u32],
    symbol: SymbolIndex,
) -> io::Result<()> {
    put(rt, b"        symbol ")?;
    put_number(rt, symbol.0 as u64, 0)?;
    match version_of(Order::Little, &versyms(change), symbol) {
        Ok(versym) => put_versym(rt, store, versym),
        Err(refusal) => put_refusal(rt, refusal),
    }
}
