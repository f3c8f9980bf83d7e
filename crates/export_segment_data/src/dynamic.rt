// The dynamic entries that a segment holds, for C. Refused in this order: a part that is too long; a
// number that is no class or no order; as the functions of `segment_dynamic`.
ghost use Rattle.std.specs.Prelude.{◌≡◌};
ghost use Rattle.export.specs.Parts.{entry};
ghost use Rattle.export_segment_data.specs.Dynamic.{segment_dynamic_answer, entry_answer, dynamic_entry_answer};

use endian::refusals::Refusal;
use export::kinds::{known, known_class};
use export::parts::{PartAnswer, entry_of, no_part, part_answer};
use segment_dynamic::dynamic::{DynamicEntry, dynamic_entry, segment_dynamic};

// A dynamic entry. found is 0 where there is none and it is not refused.
#[repr(C)]
#[derive(Clone, Copy)]
pub struct DynamicAnswer {
    pub refusal: u32,
    pub found: u32,
    pub tag: u64,
    pub value: u64,
}

// Where the dynamic entries of a segment stand; number is how many whole ones there are.
#[unsafe(no_mangle)]
pub extern "C" fn fetulombo_segment_dynamic(
    class: u8,
    file: &[u8],
    kind: u32,
    offset: u64,
    filesz: u64,
) -> PartAnswer
    ensures { result ≡ segment_dynamic_answer class file.now (entry kind offset 0 filesz 0) }
{
    let segment = entry_of(kind, offset, 0, filesz, 0);
    let found = known_class(class, &[file]).and_then(|class| segment_dynamic(class, file, segment));
    match found {
        Ok(Some(part)) => part_answer(part.place.start, part.place.len, part.count as u64),
        Ok(None) => no_part(0),
        Err(refusal) => no_part(refusal.0),
    }
}

fn entry_answer(found: Result<Option<DynamicEntry>, Refusal>) -> DynamicAnswer
    ensures { result ≡ entry_answer found }
{
    match found {
        Ok(Some(entry)) => DynamicAnswer {
            refusal: 0,
            found: 1,
            tag: entry.tag,
            value: entry.value,
        },
        Ok(None) => DynamicAnswer {
            refusal: 0,
            found: 0,
            tag: 0,
            value: 0,
        },
        Err(refusal) => DynamicAnswer {
            refusal: refusal.0,
            found: 0,
            tag: 0,
            value: 0,
        },
    }
}

// The dynamic entry of a number.
#[unsafe(no_mangle)]
pub extern "C" fn fetulombo_segment_dynamic_entry(
    class: u8,
    order: u8,
    bytes: &[u8],
    number: u32,
) -> DynamicAnswer
    ensures { result ≡ dynamic_entry_answer class order bytes.now number }
{
    let found = known(class, order, &[bytes]).and_then(|(class, order)| {
        dynamic_entry(class, order, bytes, number)
    });
    entry_answer(found)
}
