// Words at a place, for C. Refused in this order: bytes that are too long; a number that is no order.
// A function for each width, as the C interface names them.
ghost use Rattle.std.specs.Prelude.{◌≡◌};
ghost use Rattle.export_bytes.specs.Words.{word_answer};

use endian::refusals::{LIMIT, TOO_LONG, UNKNOWN_KIND};
use export::answers::{NumberAnswer, no_number, number_answer};
use export::kinds::{is_kind, order_of, unless_long};
use word::{u16_at, u32_at, u64_at};

#[unsafe(no_mangle)]
pub extern "C" fn fetulombo_u16_at(order: u8, bytes: &[u8], at: usize) -> NumberAnswer
    ensures { result ≡ word_answer order 2 bytes.now at }
{
    if !is_kind(order) {
        return no_number(unless_long(bytes, UNKNOWN_KIND));
    }
    if LIMIT < bytes.len() {
        return no_number(TOO_LONG);
    }
    number_answer(u16_at(order_of(order), bytes, at) as u64)
}

#[unsafe(no_mangle)]
pub extern "C" fn fetulombo_u32_at(order: u8, bytes: &[u8], at: usize) -> NumberAnswer
    ensures { result ≡ word_answer order 4 bytes.now at }
{
    if !is_kind(order) {
        return no_number(unless_long(bytes, UNKNOWN_KIND));
    }
    if LIMIT < bytes.len() {
        return no_number(TOO_LONG);
    }
    number_answer(u32_at(order_of(order), bytes, at) as u64)
}

#[unsafe(no_mangle)]
pub extern "C" fn fetulombo_u64_at(order: u8, bytes: &[u8], at: usize) -> NumberAnswer
    ensures { result ≡ word_answer order 8 bytes.now at }
{
    if !is_kind(order) {
        return no_number(unless_long(bytes, UNKNOWN_KIND));
    }
    if LIMIT < bytes.len() {
        return no_number(TOO_LONG);
    }
    number_answer(u64_at(order_of(order), bytes, at))
}
