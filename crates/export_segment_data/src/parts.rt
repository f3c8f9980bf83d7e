// What else a segment holds, for C: its interpreter's name and its notes.
ghost use Rattle.std.specs.Prelude.{◌≡◌};
ghost use Rattle.endian.specs.declared.kinds.Order.TheVariants.{Little};
ghost use Rattle.segment_parts.specs.Interpreter.{segment_interpreter};
ghost use Rattle.segment_parts.specs.SegmentNotes.{segment_notes};
ghost use Rattle.export.specs.Parts.{entry};
ghost use Rattle.export_segment_data.specs.Data.{place_part};
ghost use Rattle.export_segment_data.specs.Parts.{notes_answer};

use crate::data::place_part;
use endian::kinds::Order;
use export::parts::{PartAnswer, entry_of, no_part, part_answer};
use segment_parts::interpreter::segment_interpreter;
use segment_parts::notes::segment_notes;

// The name of a segment's interpreter, without its zero.
#[unsafe(no_mangle)]
pub extern "C" fn fetulombo_segment_interpreter(
    file: &[u8],
    kind: u32,
    offset: u64,
    filesz: u64,
) -> PartAnswer
    ensures { result ≡ place_part (segment_interpreter file.now (entry kind offset 0 filesz 0)) }
{
    let segment = entry_of(kind, offset, 0, filesz, 0);
    place_part(segment_interpreter(file, segment))
}

// The part of the file that a segment's notes stand in; number is their alignment. Neither depends on
// the order.
#[unsafe(no_mangle)]
pub extern "C" fn fetulombo_segment_notes(
    file: &[u8],
    kind: u32,
    offset: u64,
    filesz: u64,
    align: u64,
) -> PartAnswer
    ensures { result ≡ notes_answer (segment_notes Little file.now (entry kind offset 0 filesz align)) }
{
    let segment = entry_of(kind, offset, 0, filesz, align);
    match segment_notes(Order::Little, file, segment) {
        Ok(Some(part)) => {
            let align = part.reader.align.size();
            part_answer(part.place.start, part.place.len, align as u64)
        }
        Ok(None) => no_part(0),
        Err(refusal) => no_part(refusal.0),
    }
}
