// What the lookups of both hash tables share: their answer, what they are lent and asked, whether a
// symbol is the one that is asked for, and the smaller of two numbers.
#![tactic(auto)]

ghost use Rattle.std.specs.Prelude.{◌≡◌, min};
ghost use Rattle.endian.specs.Refusals.{any_long};
ghost use Rattle.lookup.specs.Wanted.{name_of, is_named, wanted_in, all_parts};
ghost use Rattle.lookup.specs.Lent.{parts_of, asked_of};

use endian::kinds::{Class, Order};
use endian::refusals::any_long;
use strings::string_equals;
use symbol::table::{SymbolIndex, symbol_at};
use version_match::{Need, matches};

// What a lookup that is not refused gives: the symbol, or none, and the probes that were made.
#[derive(Clone, Copy, Debug, PartialEq, Eq)]
pub struct Lookup {
    pub symbol: Option<SymbolIndex>,
    pub probes: usize,
}

// The parts that a lookup is lent: a hash table, the symbols with their strings, and a version table, which is the
// versyms, the store and the versions' strings.
#[derive(Clone, Copy)]
pub struct Parts<'a> {
    pub table: &'a [u8],
    pub symbols: &'a [u8],
    pub strings: &'a [u8],
    pub versyms: &'a [u8],
    pub store: &'a [u32],
    pub version_strings: &'a [u8],
}

// What a lookup is asked for: a name, the need of a version, and the version's name where one is needed.
#[derive(Clone, Copy)]
pub struct Asked<'a> {
    pub name: &'a [u8],
    pub need: Need,
    pub need_name: &'a [u8],
}

impl<'a> Parts<'a> {
    // Whether a part or a name is too long. The store is no such part.
    pub fn any_long(self, asked: Asked) -> bool
        ensures { result ≡ any_long (all_parts (parts_of self.entry) (asked_of asked.entry)) }
    {
        any_long(&[
            self.table,
            self.symbols,
            self.strings,
            self.versyms,
            self.version_strings,
            asked.name,
            asked.need_name,
        ])
    }
}

// Whether a symbol's name can be read and is the name. Number 0, or one with no whole record, has none.
#[tactic(auto, using(crate::proofs::Named::named_at_lem))]
pub fn has_name(
    class: Class,
    order: Order,
    symbols: &[u8],
    strings: &[u8],
    symbol: SymbolIndex,
    name: &[u8],
) -> bool
    ensures { result
        ≡ is_named name.now (name_of class order symbols.now strings.now symbol.0) }
{
    match symbol_at(class, order, symbols, symbol) {
        Ok(entry) => string_equals(strings, entry.name, name),
        Err(_) => false,
    }
}

// Whether a symbol has the name and the version that are asked for; never where a part that is
// looked at is too long.
#[tactic(auto, unfolding(crate::specs::Wanted::wanted_in))]
pub fn is_wanted(
    class: Class,
    order: Order,
    symbols: &[u8],
    strings: &[u8],
    versyms: &[u8],
    store: &[u32],
    version_strings: &[u8],
    symbol: SymbolIndex,
    asked: Asked,
) -> bool
    ensures { result
        ≡ wanted_in class order symbols.now strings.now versyms.now store.now version_strings.now
        (asked_of asked.entry) symbol.0 }
{
    let Asked {
        name,
        need,
        need_name,
    } = asked;
    has_name(class, order, symbols, strings, symbol, name)
        && matches(
            order,
            versyms,
            store,
            version_strings,
            symbol,
            need,
            need_name,
        )
}

// Beside the library's `min`, since the edits smaller_is_the_larger and smaller_is_always_the_first name it.
pub fn smaller(a: u32, b: u32) -> u32
    ensures { result ≡ min a b }
{
    a.min(b)
}
