// The name of the interpreter that a segment holds.
ghost use Rattle.std.specs.Prelude.{◌≡◌};
ghost use Rattle.segment_parts.specs.Interpreter.{segment_interpreter};

use endian::refusals::{BAD_INTERPRETER_PLACE, ENDLESS_INTERPRETER, LIMIT, Refusal, TOO_LONG};
use segment_data::part::segment_data;
use segment_entry::{PT_INTERP, Segment};
use strings::{Place, string_at};

// The segment's bytes up to their first zero: a part of the lent file, without its zero. Refused first: a file that is too long. Then another
// type is not this kind, and last: bytes that are not all in the file; no zero among them.
#[tactic(auto, unfolding(segment_data::specs::Part::is_in_file))]
pub fn segment_interpreter(file: &[u8], segment: Segment) -> Result<Option<Place>, Refusal>
    ensures { result ≡ segment_interpreter file.now segment }
{
    if LIMIT < file.len() {
        return Err(TOO_LONG);
    }
    if segment.kind != PT_INTERP {
        return Ok(None);
    }
    let Ok(bytes) = segment_data(file, segment) else {
        return Err(BAD_INTERPRETER_PLACE);
    };
    let start = bytes.start;
    let end = start + bytes.len;
    let Ok(name) = string_at(&file[start..end], 0) else {
        return Err(ENDLESS_INTERPRETER);
    };
    Ok(Some(Place {
        start,
        len: name.len,
    }))
}
