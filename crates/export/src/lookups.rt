// What the lookups in both hash tables answer to C.
ghost use Rattle.std.specs.Prelude.{◌≡◌, Err};
ghost use Rattle.lookup.specs.Lent.{parts_of, asked_of};
ghost use Rattle.lookup.specs.Wanted.{all_parts};
ghost use Rattle.export.specs.Kinds.{kind_refusal};
ghost use Rattle.export.specs.Lookups.{lookup_answer};

use endian::refusals::{Refusal, TOO_LONG, UNKNOWN_KIND};
use lookup::{Asked, Lookup, Parts};

// What a lookup gives: found is 1 with a symbol, and 0 without.
#[repr(C)]
#[derive(Clone, Copy)]
pub struct LookupAnswer {
    pub refusal: u32,
    pub found: u32,
    pub symbol: u64,
    pub probes: u64,
}

// An answer of either lookup, as C gets it.
pub fn lookup_answer(answer: Result<Lookup, Refusal>) -> LookupAnswer
    ensures { result ≡ lookup_answer answer }
{
    match answer {
        Ok(lookup) => LookupAnswer {
            refusal: 0,
            found: lookup.symbol.is_some() as u32,
            symbol: lookup.symbol.map_or(0, |symbol| symbol.0 as u64),
            probes: lookup.probes as u64,
        },
        Err(refusal) => LookupAnswer {
            refusal: refusal.0,
            found: 0,
            symbol: 0,
            probes: 0,
        },
    }
}

// The answer of either lookup where a number is no class or no order.
#[tactic(auto, using(crate::proofs::Unknown::kind_refusal_parts))]
pub fn unknown_lookup(parts: Parts, asked: Asked) -> LookupAnswer
    ensures { result
        ≡ lookup_answer
        (Err (kind_refusal (all_parts (parts_of parts.entry) (asked_of asked.entry)))) }
{
    if parts.any_long(asked) {
        return lookup_answer(Err(TOO_LONG));
    }
    lookup_answer(Err(UNKNOWN_KIND))
}
