// Whether the names of symbols can be read: G6 of the GNU checker and T2 of the SysV checker.
#![tactic(auto)]

ghost use Rattle.std.specs.Prelude.{not, ◌≡◌, option_map};
ghost use Rattle.symbol.specs.Table.{symbol_at, symbol_index};
ghost use Rattle.lookup.specs.Search.{first_from};
ghost use Rattle.readable_names.specs.Readable.{readable_in, readable_end, starts_below};

use endian::kinds::{Class, Order};
use endian::refusals::LIMIT;
use strings::after_last_zero;
use symbol::table::{SymbolIndex, symbol_at};

// The place before which a string that can be read starts: after the last zero, or 0 in strings
// that are too long.
fn readable_end(strings: &[u8]) -> usize
    ensures { result ≡ readable_end strings.now }
{
    if LIMIT < strings.len() {
        return 0;
    }
    after_last_zero(strings)
}

// Whether there is such a symbol and its name starts below a place.
fn starts_below(class: Class, order: Order, symbols: &[u8], end: usize, symbol: SymbolIndex) -> bool
    ensures { result ≡ starts_below end (symbol_at class order symbols.now symbol) }
{
    match symbol_at(class, order, symbols, symbol) {
        Ok(entry) => (entry.name as usize) < end,
        Err(_) => false,
    }
}

// The lowest symbol from `low` on and below `count` whose name cannot be read, where there is one. The
// strings' last zero is looked for once: a name can be read exactly if it starts before
// the end of that string.
pub fn lowest_unreadable(
    class: Class,
    order: Order,
    symbols: &[u8],
    strings: &[u8],
    low: SymbolIndex,
    count: u32,
) -> Option<SymbolIndex>
    ensures { result
        ≡ option_map symbol_index
        (first_from (λ i. not (readable_in class order symbols.now strings.now i)) low.0 count) }
{
    let end = readable_end(strings);
    (low.0..count)
        .find(|i| !starts_below(class, order, symbols, end, SymbolIndex(*i)))
        .map(SymbolIndex)
}
