// The bytes of a segment in the lent file, and those of an address range.
ghost use Rattle.std.specs.Prelude.{◌≡◌};
ghost use Rattle.segment_data.specs.Part.{is_in_file, is_here, segment_data, segment_data_range};

use endian::refusals::{BAD_SEGMENT_DATA, LIMIT, Refusal, TOO_LONG};
use segment_entry::Segment;
use strings::Place;

// Whether the segment's bytes are all in the file. Offset and size may be any numbers.
#[tactic(auto, unfolding(crate::specs::Part::is_in_file))]
pub fn is_in_file(file: &[u8], segment: Segment) -> bool
    ensures { result ≡ is_in_file file.now segment }
{
    let len = file.len() as u64;
    if len < segment.offset {
        return false;
    }
    segment.filesz <= len - segment.offset
}

// Whether the segment's file bytes have the addresses from `address` on.
#[tactic(auto, unfolding(crate::specs::Part::is_here))]
fn is_here(segment: Segment, address: u64, size: u64) -> bool
    ensures { result ≡ is_here segment address size }
{
    if address < segment.vaddr {
        return false;
    }
    let from = address - segment.vaddr;
    if segment.filesz < from {
        return false;
    }
    size <= segment.filesz - from
}

// The segment's bytes, as a part of the lent file. Refused in this order: a file that is too long;
// bytes that are not all in it.
pub fn segment_data(file: &[u8], segment: Segment) -> Result<Place, Refusal>
    ensures { result ≡ segment_data file.now segment }
{
    if LIMIT < file.len() {
        return Err(TOO_LONG);
    }
    if !is_in_file(file, segment) {
        return Err(BAD_SEGMENT_DATA);
    }
    Ok(Place {
        start: segment.offset as usize,
        len: segment.filesz as usize,
    })
}

// The bytes of an address range: not here if it begins below the segment's address or reaches past
// its file bytes. Refused first, as `segment_data`.
#[tactic(auto, unfolding(crate::specs::Part::is_in_file, crate::specs::Part::is_here))]
pub fn segment_data_range(
    file: &[u8],
    segment: Segment,
    address: u64,
    size: u64,
) -> Result<Option<Place>, Refusal>
    ensures { result ≡ segment_data_range file.now segment address size }
{
    let data = segment_data(file, segment)?;
    if !is_here(segment, address, size) {
        return Ok(None);
    }
    let from = address - segment.vaddr;
    Ok(Some(Place {
        start: data.start + from as usize,
        len: size as usize,
    }))
}
