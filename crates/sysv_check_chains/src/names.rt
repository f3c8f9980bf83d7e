// The hashes of the symbols' names.
ghost use Rattle.std.specs.Prelude.{◌≡◌, ◌+◌, ◌≤◌, length, take, drop};
ghost use Rattle.endian.specs.Refusals.{limit};
ghost use Rattle.name_hash.specs.Hash.{sysv_hash};
ghost use Rattle.lookup.specs.Wanted.{name_of};
ghost use Rattle.sysv_check_chains.specs.Hash.{sysv_hash_at};

use super::chains::Chains;
use name_hash::sysv_hash;
use strings::Place;
use symbol::table::{SymbolIndex, symbol_name};

// The hash of a part of the strings.
fn part_hash(strings: &[u8], place: Place) -> u32
    requires { (place.start + place.len ≤ length strings.now) × (length strings.now ≤ limit) }
    ensures { result ≡ sysv_hash (take place.len (drop place.start strings.now)) }
{
    let end = place.start + place.len;
    sysv_hash(&strings[place.start..end]).unwrap()
}

// The hash of a symbol's name; of one that cannot be read, that of the empty name.
pub(crate) fn symbol_hash(chains: Chains, symbol: SymbolIndex) -> u32
    ensures { result
        ≡ sysv_hash_at (name_of chains.entry.class chains.entry.order chains.entry.symbols.now
        chains.entry.strings.now) symbol.0 }
{
    match symbol_name(
        chains.class,
        chains.order,
        chains.symbols,
        chains.strings,
        symbol,
    ) {
        Ok(place) => part_hash(chains.strings, place),
        Err(_) => 0,
    }
}
