// The notes of a segment.
ghost use Rattle.std.specs.Prelude.{◌≡◌};
ghost use Rattle.segment_parts.specs.SegmentNotes.{segment_notes};

use endian::kinds::Order;
use endian::refusals::{BAD_NOTE_PLACE, LIMIT, Refusal, TOO_LONG};
use note::reader::{NoteReader, reader_for};
use segment_data::part::segment_data;
use segment_entry::{PT_NOTE, Segment};
use strings::Place;

// The reader before the first note, and the part of the lent file that it reads.
#[derive(Clone, Copy, Debug, PartialEq, Eq)]
pub struct NotesPart {
    pub reader: NoteReader,
    pub place: Place,
}

// The notes of a segment. Refused first: a file that is too long. Then another type is not this kind,
// and last: bytes that are not all in the file; an alignment as `note::reader::reader_for`.
pub fn segment_notes(
    order: Order,
    file: &[u8],
    segment: Segment,
) -> Result<Option<NotesPart>, Refusal>
    ensures { result ≡ segment_notes order file.now segment }
{
    if LIMIT < file.len() {
        return Err(TOO_LONG);
    }
    if segment.kind != PT_NOTE {
        return Ok(None);
    }
    let Ok(place) = segment_data(file, segment) else {
        return Err(BAD_NOTE_PLACE);
    };
    let reader = reader_for(order, segment.align)?;
    Ok(Some(NotesPart { reader, place }))
}
