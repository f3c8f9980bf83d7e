// The records of the version sections, by place. A list is of Verdefs or of Verneeds; each record of
// it has a chain of Verdauxs or of Vernauxs.
ghost use Rattle.std.specs.Prelude.{◌≡◌, ◌+◌, ◌≤◌, ◌<◌};
ghost use Rattle.version_records.specs.Records.{verdef_shape, verneed_shape, verdaux_shape, vernaux_shape, place_after, record_at, aux_at};
ghost use Rattle.version_records.specs.Tested.{left_at, offset_at};

use endian::kinds::Order;
use endian::refusals::{
    BAD_VERDAUX_NEXT, BAD_VERDEF_AUX, BAD_VERDEF_NEXT, BAD_VERNAUX_NEXT, BAD_VERNEED_AUX,
    BAD_VERNEED_NEXT, Refusal, VERDAUX_SHORT, VERDEF_SHORT, VERNAUX_SHORT, VERNEED_SHORT,
};
use version_layout::steps::{Aux, Record};
use word::u32_at;

// What a record of a list is tested for: its size, where its aux and its next stand, and the
// refusals, in the order of the tests.
#[derive(Clone, Copy, Debug, PartialEq, Eq)]
struct ListShape {
    size: usize,
    aux: usize,
    next: usize,
    short: Refusal,
    bad_aux: Refusal,
    bad_next: Refusal,
}

const VERDEF: ListShape = ListShape {
    size: 20,
    aux: 12,
    next: 16,
    short: VERDEF_SHORT,
    bad_aux: BAD_VERDEF_AUX,
    bad_next: BAD_VERDEF_NEXT,
};

const VERNEED: ListShape = ListShape {
    size: 16,
    aux: 8,
    next: 12,
    short: VERNEED_SHORT,
    bad_aux: BAD_VERNEED_AUX,
    bad_next: BAD_VERNEED_NEXT,
};

// The same of a record of a chain, which has no aux: one shape for both would hold two fields for nothing.
#[derive(Clone, Copy, Debug, PartialEq, Eq)]
struct ChainShape {
    size: usize,
    next: usize,
    short: Refusal,
    bad_next: Refusal,
}

const VERDAUX: ChainShape = ChainShape {
    size: 8,
    next: 4,
    short: VERDAUX_SHORT,
    bad_next: BAD_VERDAUX_NEXT,
};

const VERNAUX: ChainShape = ChainShape {
    size: 16,
    next: 12,
    short: VERNAUX_SHORT,
    bad_next: BAD_VERNAUX_NEXT,
};

// The place of the next record of a list: the end of `count` bytes where `next` is 0.
#[tactic(auto, unfolding(crate::specs::Records::place_after))]
fn place_after(count: usize, at: usize, next: usize) -> usize
    requires { at + next ≤ count }
    ensures { result ≡ place_after count at next }
{
    if next == 0 { count } else { at + next }
}

// How many bytes there are from a place on, which must be so many that the record there is not short.
fn left_at(s: &[u8], at: usize, size: usize, short: Refusal) -> Result<usize, Refusal>
    requires { 0 < size }
    ensures { result ≡ left_at s.now at size short }
{
    if s.len() < at {
        return Err(short);
    }
    let left = s.len() - at;
    if left < size { Err(short) } else { Ok(left) }
}

// How far it is from a record on, as it says at a place: not past the end, which is `left` bytes away.
fn offset_at(order: Order, s: &[u8], at: usize, left: usize, bad: Refusal) -> Result<usize, Refusal>
    ensures { result ≡ offset_at order s.now at left bad }
{
    let offset = u32_at(order, s, at) as usize;
    if left < offset { Err(bad) } else { Ok(offset) }
}

// The record of a list at a place. Refused in this order: it is short, as it is past the end; its
// aux, then its next, lies past the end.
#[tactic(auto, unfolding(crate::specs::Records::record_at))]
fn record_at(shape: ListShape, order: Order, s: &[u8], at: usize) -> Result<Record, Refusal>
    requires { (0 < shape.size) × (shape.aux ≤ shape.size) × (shape.next ≤ shape.size) }
    ensures { result ≡ record_at shape order s.now at }
{
    let left = left_at(s, at, shape.size, shape.short)?;
    let aux = offset_at(order, s, at + shape.aux, left, shape.bad_aux)?;
    let next = offset_at(order, s, at + shape.next, left, shape.bad_next)?;
    Ok(Record {
        at,
        aux: at + aux,
        next: place_after(s.len(), at, next),
    })
}

// The record of a chain at a place. Refused in this order: it is short, as it is past the end; its
// next lies past the end.
#[tactic(auto, unfolding(crate::specs::Records::aux_at))]
fn aux_at(shape: ChainShape, order: Order, s: &[u8], at: usize) -> Result<Aux, Refusal>
    requires { (0 < shape.size) × (shape.next ≤ shape.size) }
    ensures { result ≡ aux_at shape order s.now at }
{
    let left = left_at(s, at, shape.size, shape.short)?;
    let next = offset_at(order, s, at + shape.next, left, shape.bad_next)?;
    Ok(Aux {
        at,
        next: at + next,
    })
}

// The definition at a place.
pub fn verdef_at(order: Order, s: &[u8], at: usize) -> Result<Record, Refusal>
    ensures { result ≡ record_at verdef_shape order s.now at }
{
    record_at(VERDEF, order, s, at)
}

// The need at a place.
pub fn verneed_at(order: Order, s: &[u8], at: usize) -> Result<Record, Refusal>
    ensures { result ≡ record_at verneed_shape order s.now at }
{
    record_at(VERNEED, order, s, at)
}

// The aux of a definition at a place.
pub fn verdaux_at(order: Order, s: &[u8], at: usize) -> Result<Aux, Refusal>
    ensures { result ≡ aux_at verdaux_shape order s.now at }
{
    aux_at(VERDAUX, order, s, at)
}

// The needed version at a place.
pub fn vernaux_at(order: Order, s: &[u8], at: usize) -> Result<Aux, Refusal>
    ensures { result ≡ aux_at vernaux_shape order s.now at }
{
    aux_at(VERNAUX, order, s, at)
}
