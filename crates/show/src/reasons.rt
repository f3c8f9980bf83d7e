// Why a line is not to be signed, and the definitions of its routine.
use super::library::{Change, symbols, versyms};
use super::sample::strings;
use super::text::{put, put_refusal};
use super::versions::put_definition;
use definitions::{Searched, Which, defines};
use endian::kinds::{Class, Order};
use marks::Marks;
use marks_entry::EntryMarks;
use std::io;
use symbol::table::{SymbolIndex, symbol_count};

fn put_if(rt: &impl Print, truth: bool, reason: &[u8]) -> io::Result<()> {
    if truth {
        put(rt, b"    ")?;
        put(rt, reason)?;
        put(rt, b"\n")?;
    }
    Ok(())
}

fn put_entry_reasons(rt: &impl Print, marks: EntryMarks) -> io::Result<()> {
    put_if(
        rt,
        marks.undefined,
        b"The symbol is no definition: the library itself asks for the routine.",
    )?;
    put_if(
        rt,
        marks.local,
        b"The symbol is local: no other file may use it.",
    )?;
    put_if(
        rt,
        marks.hidden,
        b"The symbol's visibility is hidden: no other file may use it.",
    )?;
    put_if(
        rt,
        marks.ifunc,
        b"The routine itself is chosen when the program starts (an IFUNC).",
    )
}

fn put_reasons(rt: &impl Print, marks: Marks) -> io::Result<()> {
    put_if(
        rt,
        marks.several,
        b"No version is asked for, and the library has more than one definition: a loader may take another.",
    )?;
    put_if(
        rt,
        marks.unversioned,
        b"A version is asked for, and the library also has a definition without a version.",
    )?;
    put_if(
        rt,
        marks.unfound,
        b"Nothing is found, but the library has a definition of the routine.",
    )?;
    put_entry_reasons(rt, marks.found)
}

fn put_if_definition(
    rt: &impl Print,
    change: Change,
    store: &[u32],
    name: &[u8],
    symbol: SymbolIndex,
) -> io::Result<()> {
    let searched = Searched {
        class: Class::Elf64,
        order: Order::Little,
        symbols: &symbols(change),
        strings: &strings(),
        versyms: &versyms(change),
        name,
    };
    if defines(searched, Which::All, symbol) {
        put_definition(rt, change, store, symbol)?;
    }
    Ok(())
}

// The definitions among the symbols 1 to `end - 1`.
fn put_definitions(
    rt: &impl Print,
    change: Change,
    store: &[u32],
    name: &[u8],
    end: u32,
) -> io::Result<()> {
    for number in 1..end {
        put_if_definition(rt, change, store, name, SymbolIndex(number))?;
    }
    Ok(())
}

// The mark of a line and, where it is not to be signed, what stands below it.
pub(crate) fn put_marks(
    rt: &impl Print,
    change: Change,
    store: &[u32],
    name: &[u8],
    marks: Marks,
) -> io::Result<()> {
    if !marks.any() {
        return put(rt, b"  not marked\n");
    }
    put(rt, b"  NOT TO BE SIGNED\n")?;
    put_reasons(rt, marks)?;
    put(rt, b"    The library's definitions of the routine:\n")?;
    match symbol_count(Class::Elf64, &symbols(change)) {
        Ok(end) => put_definitions(rt, change, store, name, end),
        Err(refusal) => put_refusal(rt, refusal),
    }
}
