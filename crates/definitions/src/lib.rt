// The definitions of a name, among all symbols.
#![tactic(auto)]

ghost use Rattle.std.specs.Prelude.{◌≡◌};
ghost use Rattle.symbol.specs.Table.{symbol_at};
ghost use Rattle.version.specs.Table.{versym_at};
ghost use Rattle.definitions.specs.Definitions.{is_defined, has_no_version, meant, defines_in, count_in, definitions_of};

use endian::kinds::{Class, Order};
use endian::refusals::{LIMIT, Refusal, TOO_LONG};
use lookup::has_name;
use symbol::table::{SymbolIndex, symbol_at, symbol_count};
use version::table::version_of;

// Which definitions of a name are meant: all, or those without a version, whose index is special.
#[derive(Clone, Copy, Debug, PartialEq, Eq)]
pub enum Which {
    All,
    Unversioned,
}

// What is searched, and for what: the symbols of a library with their strings and versyms, of a class and an
// order, and a name.
#[derive(Clone, Copy)]
pub struct Searched<'a> {
    pub class: Class,
    pub order: Order,
    pub symbols: &'a [u8],
    pub strings: &'a [u8],
    pub versyms: &'a [u8],
    pub name: &'a [u8],
}

fn is_defined(class: Class, order: Order, symbols: &[u8], symbol: SymbolIndex) -> bool
    ensures { result ≡ is_defined (symbol_at class order symbols.now symbol) }
{
    match symbol_at(class, order, symbols, symbol) {
        Ok(entry) => !entry.is_undefined(),
        Err(_) => false,
    }
}

fn has_no_version(order: Order, versyms: &[u8], symbol: SymbolIndex) -> bool
    ensures { result ≡ has_no_version (versym_at order versyms.now symbol) }
{
    match version_of(order, versyms, symbol) {
        Ok(versym) => versym.index.is_special(),
        Err(_) => false,
    }
}

fn is_meant(order: Order, versyms: &[u8], which: Which, symbol: SymbolIndex) -> bool
    ensures { result ≡ meant which (versym_at order versyms.now symbol) }
{
    match which {
        Which::All => true,
        Which::Unversioned => has_no_version(order, versyms, symbol),
    }
}

// Whether a symbol bears the name, is not undefined, and is one of those that are meant; never where
// a part that is looked at is too long.
#[tactic(auto, unfolding(crate::specs::Definitions::defines_in))]
pub fn defines(searched: Searched, which: Which, symbol: SymbolIndex) -> bool
    ensures { result
        ≡ defines_in searched.entry.class searched.entry.order searched.entry.symbols.now
        searched.entry.strings.now searched.entry.versyms.now searched.entry.name.now which symbol.0 }
{
    let Searched {
        class,
        order,
        symbols,
        strings,
        versyms,
        name,
    } = searched;
    has_name(class, order, symbols, strings, symbol, name)
        && is_defined(class, order, symbols, symbol)
        && is_meant(order, versyms, which, symbol)
}

// How many of the symbols 1 to `end - 1` are such definitions.
fn count_below(searched: Searched, which: Which, end: u32) -> u32
    ensures { result
        ≡ count_in
        (defines_in searched.entry.class searched.entry.order searched.entry.symbols.now
        searched.entry.strings.now searched.entry.versyms.now searched.entry.name.now which)
        end }
{
    (1..end)
        .filter(|i| defines(searched, which, SymbolIndex(*i)))
        .count() as u32
}

// How many symbols but the null one bear the name, are not undefined, and are of those that are
// meant. Refused: a part or a name that is too long.
pub fn definitions_of(searched: Searched, which: Which) -> Result<u32, Refusal>
    ensures { result
        ≡ definitions_of searched.entry.class searched.entry.order searched.entry.symbols.now
        searched.entry.strings.now searched.entry.versyms.now searched.entry.name.now which }
{
    if LIMIT < searched.strings.len()
        || LIMIT < searched.versyms.len()
        || LIMIT < searched.name.len()
    {
        return Err(TOO_LONG);
    }
    let end = symbol_count(searched.class, searched.symbols)?;
    Ok(count_below(searched, which, end))
}
