// One import: what is asked for, the lookup's answer, and what is against signing it.
use super::library::{Change, symbols, versyms};
use super::reasons::put_marks;
use super::sample::{strings, table};
use super::text::{put, put_left, put_number, put_refusal};
use super::versions::put_version;
use definitions::Searched;
use endian::kinds::{Class, Order};
use endian::refusals::Refusal;
use gnu::find::find;
use lookup::{Asked, Lookup, Parts};
use marks::{Marks, marks_of};
use name_hash::{gnu_hash, sysv_hash};
use std::io;
use version_match::Need;

fn found(
    change: Change,
    store: &[u32],
    name: &[u8],
    hash: u32,
    need: Need,
    version: &[u8],
) -> Result<Lookup, Refusal> {
    let table = table();
    let symbols = symbols(change);
    let names = strings();
    let versyms = versyms(change);
    let parts = Parts {
        table: &table,
        symbols: &symbols,
        strings: &names,
        versyms: &versyms,
        store,
        version_strings: &names,
    };
    let asked = Asked {
        name,
        need,
        need_name: version,
    };
    find(Class::Elf64, Order::Little, parts, asked, hash)
}

// Symbol, version and probes.
fn put_lookup(rt: &impl Print, change: Change, store: &[u32], lookup: Lookup) -> io::Result<()> {
    match lookup.symbol {
        Some(symbol) => {
            put_number(rt, symbol.0 as u64, 6)?;
            put(rt, b"  ")?;
            put_version(rt, change, store, symbol)?;
        }
        None => put(rt, b"  none  missing  ")?,
    }
    put_number(rt, lookup.probes as u64, 6)
}

fn marks_at(
    change: Change,
    name: &[u8],
    need: Need,
    answer: Result<Lookup, Refusal>,
) -> Result<Marks, Refusal> {
    let searched = Searched {
        class: Class::Elf64,
        order: Order::Little,
        symbols: &symbols(change),
        strings: &strings(),
        versyms: &versyms(change),
        name,
    };
    marks_of(searched, need, answer)
}

// The rest of the line of an import with this need, and what stands below it.
fn put_line(
    rt: &impl Print,
    change: Change,
    store: &[u32],
    name: &[u8],
    need: Need,
    version: &[u8],
) -> io::Result<()> {
    let hash = match gnu_hash(name) {
        Ok(hash) => hash,
        Err(refusal) => return put_refusal(rt, refusal),
    };
    let answer = found(change, store, name, hash, need, version);
    // A refusal is that of the marks.
    if let Ok(lookup) = answer {
        put_lookup(rt, change, store, lookup)?;
    }
    match marks_at(change, name, need, answer) {
        Ok(marks) => put_marks(rt, change, store, name, marks),
        Err(refusal) => put_refusal(rt, refusal),
    }
}

// An import of a routine that asks for a version.
pub(crate) fn import(
    rt: &impl Print,
    change: Change,
    store: &[u32],
    name: &[u8],
    version: &[u8],
) -> io::Result<()> {
    put_left(rt, name, 12)?;
    put_left(rt, version, 10)?;
    match sysv_hash(version) {
        Ok(hash) => put_line(rt, change, store, name, Need::Hash(hash), version),
        Err(refusal) => put_refusal(rt, refusal),
    }
}

// An import of a routine that asks for no version.
pub(crate) fn import_any(
    rt: &impl Print,
    change: Change,
    store: &[u32],
    name: &[u8],
) -> io::Result<()> {
    put_left(rt, name, 12)?;
    put_left(rt, b"none", 10)?;
    put_line(rt, change, store, name, Need::Any, b"")
}
