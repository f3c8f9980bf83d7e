// The lookup of a name, by its hash, in a GNU table.
ghost use Rattle.std.specs.Prelude.{◌≡◌};
ghost use Rattle.lookup.specs.Wanted.{wanted};
ghost use Rattle.lookup.specs.Lent.{parts_of, asked_of};
ghost use Rattle.gnu_table.specs.Places.{table_at};
ghost use Rattle.gnu.specs.Lookup.{gnu_lookup};
ghost use Rattle.gnu.specs.Find.{gnu_find};

use super::start::start_of;
use super::walk::walk;
use endian::kinds::{Class, Order};
use endian::refusals::{Refusal, TOO_LONG};
use gnu_table::filter::bloom_filter;
use gnu_table::header::{Layout, header};
use lookup::{Asked, Lookup, Parts, smaller};
use symbol::table::symbol_count;

// The lookup by a layout: the bloom filter, the start, the walk.
#[tactic(auto, using(crate::proofs::Finds::filter_any, crate::proofs::Lookups::start_range, crate::proofs::Lookups::lookup_stops, crate::proofs::Lookups::lookup_refuses, crate::proofs::Lookups::lookup_nowhere, crate::proofs::Starts::none_start, crate::proofs::Starts::some_start))]
fn lookup_at(
    class: Class,
    order: Order,
    parts: Parts,
    asked: Asked,
    hash: u32,
    layout: Layout,
    count: u32,
) -> Result<Lookup, Refusal>
    ensures { result
        ≡ gnu_lookup (table_at class order parts.entry.table.now layout count) hash
        (wanted class order (parts_of parts.entry) (asked_of asked.entry)) }
{
    let nothing = Lookup {
        symbol: None,
        probes: 0,
    };
    if !bloom_filter(class, order, parts.table, layout, hash)? {
        return Ok(nothing);
    }
    let Some(start) = start_of(class, order, parts.table, layout, count, hash) else {
        return Ok(nothing);
    };
    let base = layout.symbol_base;
    let end = start + smaller(count - start, layout.value_count - (start - base));
    Ok(walk(
        class,
        order,
        parts,
        asked,
        hash,
        layout.values_at,
        base,
        start,
        end,
    ))
}

// The symbol that a name binds to, with its hash and the version that is needed: found with the
// probes made, or none with them. Refused in this order: a part or a name that is too long; as
// `gnu_table::header::header`; a bloom_shift above 31, where the second bit of the bloom filter is reached.
#[tactic(auto, using(crate::proofs::Finds::find_by_lem))]
pub fn find(
    class: Class,
    order: Order,
    parts: Parts,
    asked: Asked,
    hash: u32,
) -> Result<Lookup, Refusal>
    ensures { result ≡ gnu_find class order (parts_of parts.entry) (asked_of asked.entry) hash }
{
    if parts.any_long(asked) {
        return Err(TOO_LONG);
    }
    let count = symbol_count(class, parts.symbols)?;
    let layout = header(class, order, parts.table)?;
    lookup_at(class, order, parts, asked, hash, layout, count)
}
