// The walk over pairs of symbol and value.
ghost use Rattle.std.specs.Prelude.{◌≡◌, ◌≤◌};
ghost use Rattle.lookup.specs.Lent.{parts_of, asked_of};
ghost use Rattle.gnu.specs.Walk.{walk_pairs};

use endian::kinds::{Class, Order};
use gnu_table::words::word_of;
use lookup::{Asked, Lookup, Parts, is_wanted};
use symbol::table::SymbolIndex;

// The pairs of symbols `start` to `end - 1`, to the first match, an ended chain or no more pairs.
// A value is compared but for its low bit, which ends the chain; then the name decides, then the
// version. A probe is one pair.
#[tactic(auto, using(crate::proofs::Walking::walk_from_start, crate::proofs::Walking::walk_from_match, crate::proofs::Walking::walk_from_end, crate::proofs::Walking::walk_from_on, crate::proofs::Walking::walk_from_none), unfolding(crate::specs::Walk::walk_pairs))]
pub(crate) fn walk(
    class: Class,
    order: Order,
    parts: Parts,
    asked: Asked,
    hash: u32,
    values_at: u32,
    base: u32,
    start: u32,
    end: u32,
) -> Lookup
    requires { (base ≤ start) × (start ≤ end) }
    ensures { result
        ≡ walk_pairs class order (parts_of parts.entry) (asked_of asked.entry) hash values_at base
        start end }
{
    let mut i = start;
    let mut probes: usize = 0;
    // No `for`: document 01 asks for a loop that yields what it found by break.
    let found = 'pairs: loop {
        if i == end {
            break None;
        }
        probes += 1;
        let value = word_of(order, parts.table, values_at, i - base);
        let symbol = SymbolIndex(i);
        if value / 2 == hash / 2
            && is_wanted(
                class,
                order,
                parts.symbols,
                parts.strings,
                parts.versyms,
                parts.store,
                parts.version_strings,
                symbol,
                asked,
            )
        {
            break Some(symbol);
        }
        if value % 2 == 1 {
            break None;
        }
        i += 1;
    };
    Lookup {
        symbol: found,
        probes,
    }
}
