// The dynamic entries of a segment: where they stand in the file, and the one of a number.
ghost use Rattle.std.specs.Prelude.{◌≡◌, ◌<◌};
ghost use Rattle.segment_dynamic.specs.Dynamic.{dynamic_size, dynamic_of, segment_dynamic, dynamic_entry};

use endian::kinds::{Class, Order};
use endian::refusals::{BAD_DYNAMIC_PLACE, LIMIT, Refusal, TOO_LONG};
use segment_data::part::segment_data;
use segment_entry::{PT_DYNAMIC, Segment};
use strings::Place;
use word::{u32_at, u64_at};

// The segment's part of the lent file, and how many whole entries it has.
#[derive(Clone, Copy, Debug, PartialEq, Eq)]
pub struct DynamicPart {
    pub place: Place,
    pub count: usize,
}

// Both unsigned, as the layout has them.
#[derive(Clone, Copy, Debug, PartialEq, Eq)]
pub struct DynamicEntry {
    pub tag: u64,
    pub value: u64,
}

fn dynamic_size(class: Class) -> usize
    ensures { result ≡ dynamic_size class }
{
    match class {
        Class::Elf32 => 8,
        Class::Elf64 => 16,
    }
}

// The entry at a place. A byte past the end counts as 0.
fn dynamic_of(class: Class, order: Order, bytes: &[u8], base: usize) -> DynamicEntry
    requires { base < 1099511627776 }
    ensures { result ≡ dynamic_of class order bytes.now base }
{
    match class {
        Class::Elf32 => DynamicEntry {
            tag: u32_at(order, bytes, base) as u64,
            value: u32_at(order, bytes, base + 4) as u64,
        },
        Class::Elf64 => DynamicEntry {
            tag: u64_at(order, bytes, base),
            value: u64_at(order, bytes, base + 8),
        },
    }
}

// Where the entries stand, and how many whole ones there are; a shorter tail is ignored. Refused
// first: a file that is too long. Then another type is not this kind, and last: bytes that are not
// all in the file.
pub fn segment_dynamic(
    class: Class,
    file: &[u8],
    segment: Segment,
) -> Result<Option<DynamicPart>, Refusal>
    ensures { result ≡ segment_dynamic class file.now segment }
{
    if LIMIT < file.len() {
        return Err(TOO_LONG);
    }
    if segment.kind != PT_DYNAMIC {
        return Ok(None);
    }
    let Ok(place) = segment_data(file, segment) else {
        return Err(BAD_DYNAMIC_PLACE);
    };
    Ok(Some(DynamicPart {
        place,
        count: place.len / dynamic_size(class),
    }))
}

// The entry of a number among the lent bytes of a dynamic segment; none where no whole one stands.
// Refused: bytes that are too long.
#[tactic(auto, unfolding(crate::specs::Dynamic::dynamic_entry))]
pub fn dynamic_entry(
    class: Class,
    order: Order,
    bytes: &[u8],
    number: u32,
) -> Result<Option<DynamicEntry>, Refusal>
    ensures { result ≡ dynamic_entry class order bytes.now number }
{
    if LIMIT < bytes.len() {
        return Err(TOO_LONG);
    }
    let at = number as usize;
    let record = dynamic_size(class);
    if (at + 1) * record <= bytes.len() {
        return Ok(Some(dynamic_of(class, order, bytes, at * record)));
    }
    Ok(None)
}
