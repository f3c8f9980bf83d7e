// Prints what the checker says of an embedded library, and of some imports which symbol of it document
// 01's rule takes, and what is against signing that.
#![tactic(auto)]

mod imports;
mod library;
mod reasons;
mod sample;
mod text;
mod versions;

use endian::kinds::{Class, Order};
use gnu_check::check::check;
use gnu_rules::Fault;
use imports::{import, import_any};
use library::Change;
use std::io;
use text::{put, put_number, put_refusal};
use version_parse::parse::parse;

// The checker's verdict: whether the table can be relied on.
fn put_verdict(rt: &impl Print, table: &[u8]) -> io::Result<bool> {
    match check(
        Class::Elf64,
        Order::Little,
        table,
        &sample::symbols(),
        &sample::strings(),
    ) {
        Ok(longest) => {
            put(rt, b"accepted; its longest chain has ")?;
            put_number(rt, longest as u64, 0)?;
            put(rt, b" symbols.\n")?;
            Ok(true)
        }
        Err(Fault::Broken { rule, place }) => {
            put(rt, b"NOT ACCEPTED; rule G")?;
            put_number(rt, rule as u64, 0)?;
            put(rt, b" is broken, at place ")?;
            put_number(rt, place as u64, 0)?;
            put(rt, b". No import is to be signed by it.\n")?;
            Ok(false)
        }
        Err(Fault::Refused(refusal)) => {
            put_refusal(rt, refusal)?;
            Ok(false)
        }
    }
}

fn put_head(rt: &impl Print) -> io::Result<()> {
    put(
        rt,
        b"\nEach line is an import: the routine and the version that it asks for, and what the rule of document 01\n",
    )?;
    put(
        rt,
        b"takes for it: the number of the symbol, the symbol's version, and the probes (how many were tested).\n",
    )?;
    put(
        rt,
        b"NOT TO BE SIGNED: the station may bind something else, for the reasons that stand below the line.\n",
    )?;
    put(
        rt,
        b"A line that is not marked speaks of this library alone; docs/STATION.md says what else to look at.\n",
    )?;
    put(rt, b"\nroutine     asks for  symbol  version  probes\n")
}

// The imports of import_lot: the old version, the new one, none, and one that does not exist.
fn put_lots(rt: &impl Print, store: &[u32]) -> io::Result<()> {
    import(rt, Change::None, store, b"import_lot", b"LOT_1.0")?;
    import(rt, Change::None, store, b"import_lot", b"LOT_2.0")?;
    import_any(rt, Change::None, store, b"import_lot")?;
    import(rt, Change::None, store, b"import_lot", b"LOT_3.0")
}

// Imports of other routines; void_lot does not exist.
fn put_others(rt: &impl Print, store: &[u32]) -> io::Result<()> {
    import(rt, Change::None, store, b"seal_lot", b"LOT_1.0")?;
    import_any(rt, Change::None, store, b"seal_lot")?;
    import(rt, Change::None, store, b"sum_lot", b"LOT_1.0")?;
    import(rt, Change::None, store, b"void_lot", b"LOT_1.0")
}

// The import of LOT_2.0, in the library with a change.
fn put_changed(rt: &impl Print, change: Change, store: &[u32], title: &[u8]) -> io::Result<()> {
    put(rt, b"\nThe same library, ")?;
    put(rt, title)?;
    put(rt, b" by hand:\n")?;
    import(rt, change, store, b"import_lot", b"LOT_2.0")
}

fn put_changes(rt: &impl Print, store: &[u32]) -> io::Result<()> {
    put_changed(rt, Change::Undefined, store, b"symbol 4 made undefined")?;
    put_changed(rt, Change::Local, store, b"symbol 4 made local")?;
    put_changed(rt, Change::Hidden, store, b"symbol 4 made hidden")?;
    put_changed(
        rt,
        Change::Unversioned,
        store,
        b"the version of symbol 5 taken away",
    )
}

fn put_imports(rt: &impl Print, store: &[u32]) -> io::Result<()> {
    put_head(rt)?;
    put_lots(rt, store)?;
    put_others(rt, store)?;
    put_changes(rt, store)
}

// The imports, with the versions that the library defines.
fn put_library(rt: &impl Print) -> io::Result<()> {
    let mut store = [0u32; 24];
    match parse(
        Order::Little,
        &sample::verdef(),
        b"",
        &sample::strings(),
        &mut store,
    ) {
        Ok(_) => put_imports(rt, &store),
        Err(refusal) => put_refusal(rt, refusal),
    }
}

fn main(rt: HostRuntime) -> io::Result<()> {
    put(&rt, b"The library is fixtures/lot/liblot.so.\n\n")?;
    put(&rt, b"The checker on its table of names (GNU hash table): ")?;
    if put_verdict(&rt, &sample::table())? {
        put_library(&rt)?;
    }
    put(
        &rt,
        b"\nThe checker on the same table, with one value changed by hand: ",
    )?;
    put_verdict(&rt, &library::damaged())?;
    Ok(())
}
