// The SysV lookup.
ghost use Rattle.std.specs.Prelude.{◌≡◌, ◌+◌, ◌*◌, ◌^◌, ◌<◌};
ghost use Rattle.endian.specs.Word.{word_at};
ghost use Rattle.lookup.specs.Wanted.{wanted, walk as walk_of};
ghost use Rattle.lookup.specs.Lent.{parts_of, asked_of};
ghost use Rattle.sysv_header.specs.Reading.{header_of};
ghost use Rattle.sysv.specs.Table.{visited, sysv_lookup};
ghost use Rattle.sysv.specs.Find.{sysv_table, sysv_find};

use endian::kinds::{Class, Order};
use endian::refusals::{Refusal, TOO_LONG};
use lookup::{Asked, Lookup, Parts, is_wanted};
use symbol::table::SymbolIndex;
use sysv_header::header::{Header, header_of};
use word::u32_at;

// The walk from a number on: test and follow, at most as many tests as there are chains.
#[tactic(auto, using(crate::proofs::Walking::walking_start, crate::proofs::Walking::walking_zero, crate::proofs::Walking::walking_spent, crate::proofs::Walking::walking_match, crate::proofs::Walking::walking_past, crate::proofs::Walking::walking_on))]
fn walk(
    class: Class,
    order: Order,
    parts: Parts,
    asked: Asked,
    chains_at: usize,
    chains: usize,
    start: u32,
) -> Lookup
    requires { (chains_at < 2 ^ 40) × (chains < 2 ^ 32) }
    ensures { result
        ≡ walk_of (wanted class order (parts_of parts.entry) (asked_of asked.entry))
        (visited chains (λ i. word_at order 4 parts.entry.table.now (chains_at + i * 4)) chains start) }
{
    let mut i: u32 = start;
    let mut probes: usize = 0;
    let found = 'chain: loop {
        if i == 0 {
            break None;
        }
        if probes == chains {
            break None;
        }
        probes += 1;
        let symbol = SymbolIndex(i);
        if is_wanted(
            class,
            order,
            parts.symbols,
            parts.strings,
            parts.versyms,
            parts.store,
            parts.version_strings,
            symbol,
            asked,
        ) {
            break Some(symbol);
        }
        let number = i as usize;
        if chains <= number {
            break None;
        }
        i = u32_at(order, parts.table, chains_at + number * 4);
    };
    Lookup {
        symbol: found,
        probes,
    }
}

// The lookup of a hash in a table of this header.
#[tactic(auto, using(crate::proofs::Headers::lookup_none))]
fn lookup_at(
    class: Class,
    order: Order,
    parts: Parts,
    asked: Asked,
    hash: u32,
    header: Header,
) -> Lookup
    requires { header ≡ header_of order parts.table.now }
    ensures { result
        ≡ sysv_lookup (sysv_table class order (parts_of parts.entry)) hash
        (wanted class order (parts_of parts.entry) (asked_of asked.entry)) }
{
    let buckets = header.bucket_count;
    if buckets == 0 {
        return Lookup {
            symbol: None,
            probes: 0,
        };
    }
    let start = u32_at(order, parts.table, 8 + (hash % buckets) as usize * 4);
    let chains_at = 8 + buckets as usize * 4;
    let chains = header.chain_count as usize;
    walk(class, order, parts, asked, chains_at, chains, start)
}

// The symbol of a name and a version, by the name's SysV hash, with the probes that were made: one
// for each number tested. Refused in this order: a part that is too long, the store apart; as
// `header_of`.
#[tactic(auto, using(crate::proofs::Headers::find_from_lem, sysv_header::proofs::Headers::header_read))]
pub fn find(
    class: Class,
    order: Order,
    parts: Parts,
    asked: Asked,
    hash: u32,
) -> Result<Lookup, Refusal>
    ensures { result ≡ sysv_find class order (parts_of parts.entry) (asked_of asked.entry) hash }
{
    if parts.any_long(asked) {
        return Err(TOO_LONG);
    }
    let header = header_of(order, parts.table)?;
    Ok(lookup_at(class, order, parts, asked, hash, header))
}
