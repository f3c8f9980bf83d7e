// Strings of a string table: the one at an offset, and whether it is a wanted name.
#![tactic(auto)]

ghost use Rattle.std.specs.Prelude.{◌≡◌};
ghost use Rattle.strings.specs.Strings.{string_at, string_equals};
ghost use Rattle.strings.specs.AfterZero.{after_zero};

use endian::refusals::{LIMIT, NO_STRING, Refusal, TOO_LONG};
use memchr::memrchr;
use name_match::reads_name;
use zero_search::first_zero;

// A part of lent bytes: so many from a place on.
#[derive(Clone, Copy, Debug, PartialEq, Eq)]
pub struct Place {
    pub start: usize,
    pub len: usize,
}

// The string at an offset, without its zero. Refused in this order: strings that are too long; an offset at or past
// the end, or no zero from there on.
pub fn string_at(strings: &[u8], offset: u32) -> Result<Place, Refusal>
    ensures { result ≡ string_at strings.now offset }
{
    if LIMIT < strings.len() {
        return Err(TOO_LONG);
    }
    let start = offset as usize;
    let end = first_zero(strings, start);
    if end < strings.len() {
        return Ok(Place {
            start,
            len: end - start,
        });
    }
    Err(NO_STRING)
}

// Whether `string_at` reads a string at the offset and it is the name, byte for byte. Compares while
// reading, and stops at a difference.
pub fn string_equals(strings: &[u8], offset: u32, name: &[u8]) -> bool
    ensures { result ≡ string_equals strings.now offset name.now }
{
    if LIMIT < strings.len() {
        return false;
    }
    reads_name(strings, offset as usize, name)
}

// The place after the last zero byte, or 0: exactly a string that starts below it has a zero.
pub fn after_last_zero(strings: &[u8]) -> usize
    ensures { result ≡ after_zero strings.now }
{
    match memrchr(0, strings) {
        Some(last) => last + 1,
        None => 0,
    }
}
