// Words of 1, 2, 4 and 8 bytes at any place of a slice, in either byte order. They are total: a
// byte past the end counts as 0.
#![tactic(auto)]

ghost use Rattle.std.specs.Prelude.{◌≡◌, get_or};
ghost use Rattle.endian.specs.Word.{word_at};
ghost use Rattle.word.specs.Bytes.{BytesAt};

use endian::kinds::Order;
use std::array;

// The N bytes at a place. A byte past the end is 0. The place is compared with the length, not asked for by `get`: where
// a caller has tested how much is left at its place, the compiler then tests no word again.
#[inline]
fn bytes_at<const N: usize>(s: &[u8], at: usize) -> [u8; N]
    ensures { BytesAt N s.now at result }
{
    if s.len() <= at {
        return [0; N];
    }
    let rest = &s[at..];
    match rest.first_chunk() {
        Some(whole) => *whole,
        None => array::from_fn(|i| rest.get(i).copied().unwrap_or(0)),
    }
}

// The words at any place. A byte past the end counts as 0.
pub fn u8_at(s: &[u8], at: usize) -> u8
    ensures { result ≡ get_or s.now at 0 }
{
    if at < s.len() { s[at] } else { 0 }
}

pub fn u16_at(order: Order, s: &[u8], at: usize) -> u16
    ensures { result ≡ word_at order 2 s.now at }
{
    let bytes = bytes_at(s, at);
    match order {
        Order::Little => u16::from_le_bytes(bytes),
        Order::Big => u16::from_be_bytes(bytes),
    }
}

pub fn u32_at(order: Order, s: &[u8], at: usize) -> u32
    ensures { result ≡ word_at order 4 s.now at }
{
    let bytes = bytes_at(s, at);
    match order {
        Order::Little => u32::from_le_bytes(bytes),
        Order::Big => u32::from_be_bytes(bytes),
    }
}

pub fn u64_at(order: Order, s: &[u8], at: usize) -> u64
    ensures { result ≡ word_at order 8 s.now at }
{
    let bytes = bytes_at(s, at);
    match order {
        Order::Little => u64::from_le_bytes(bytes),
        Order::Big => u64::from_be_bytes(bytes),
    }
}
