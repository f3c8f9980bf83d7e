// Strings, for C.
ghost use Rattle.std.specs.Prelude.{◌≡◌};
ghost use Rattle.strings.specs.Strings.{string_at};
ghost use Rattle.export.specs.Answers.{place_of};
ghost use Rattle.export_bytes.specs.StringTable.{equals_answer};

use endian::refusals::{LIMIT, TOO_LONG};
use export::answers::{NumberAnswer, PlaceAnswer, no_number, place_answer, truth_answer};

#[unsafe(no_mangle)]
pub extern "C" fn fetulombo_string_at(strings: &[u8], offset: u32) -> PlaceAnswer
    ensures { result ≡ place_of (string_at strings.now offset) }
{
    place_answer(strings::string_at(strings, offset))
}

// Whether the string at an offset can be read and is the name. Refused: strings or a name that is
// too long.
#[unsafe(no_mangle)]
pub extern "C" fn fetulombo_string_equals(strings: &[u8], offset: u32, name: &[u8]) -> NumberAnswer
    ensures { result ≡ equals_answer strings.now offset name.now }
{
    if LIMIT < strings.len() || LIMIT < name.len() {
        return no_number(TOO_LONG);
    }
    truth_answer(strings::string_equals(strings, offset, name))
}
