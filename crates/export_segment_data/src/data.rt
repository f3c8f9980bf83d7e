// The bytes of a segment in the file, for C.
ghost use Rattle.std.specs.Prelude.{◌≡◌};
ghost use Rattle.segment_data.specs.Part.{segment_data, segment_data_range};
ghost use Rattle.export.specs.Answers.{place_of};
ghost use Rattle.export.specs.Parts.{entry};
ghost use Rattle.export_segment_data.specs.Data.{place_part};

use endian::refusals::Refusal;
use export::answers::{PlaceAnswer, place_answer};
use export::parts::{PartAnswer, entry_of, no_part, part_answer};
use segment_data::part::{segment_data, segment_data_range};
use strings::Place;

// The bytes of a segment in the file.
#[unsafe(no_mangle)]
pub extern "C" fn fetulombo_segment_data(file: &[u8], offset: u64, filesz: u64) -> PlaceAnswer
    ensures { result ≡ place_of (segment_data file.now (entry 0 offset 0 filesz 0)) }
{
    place_answer(segment_data(file, entry_of(0, offset, 0, filesz, 0)))
}

// A part of the file that has no number.
pub(crate) fn place_part(found: Result<Option<Place>, Refusal>) -> PartAnswer
    ensures { result ≡ place_part found }
{
    match found {
        Ok(Some(place)) => part_answer(place.start, place.len, 0),
        Ok(None) => no_part(0),
        Err(refusal) => no_part(refusal.0),
    }
}

// The bytes of an address range of a segment.
#[unsafe(no_mangle)]
pub extern "C" fn fetulombo_segment_data_range(
    file: &[u8],
    offset: u64,
    vaddr: u64,
    filesz: u64,
    address: u64,
    size: u64,
) -> PartAnswer
    ensures { result ≡ place_part (segment_data_range file.now (entry 0 offset vaddr filesz 0) address size) }
{
    let segment = entry_of(0, offset, vaddr, filesz, 0);
    place_part(segment_data_range(file, segment, address, size))
}
