// The search for a zero byte.
#![tactic(auto)]

ghost use Rattle.std.specs.Prelude.{◌≡◌, ◌≤◌, ◌<◌, length};
ghost use Rattle.endian.specs.First.{first, is_zero};
ghost use Rattle.zero_search.specs.Zeros.{first_zero};

use memchr::memchr_iter;

// Where fewer bytes are left, the kit's search, which looks at so many at once, costs more than a plain one.
const FEW: usize = 32;

// Where more than so many of those few are left, the first are looked at in a loop whose length the compiler knows,
// and from half as many more on the last ones too.
const NEAR: usize = 16;

// The first zero from one place on and before another, or that other: byte by byte.
fn zero_before(bytes: &[u8], from: usize, end: usize) -> usize
    requires { (from ≤ end) × (end ≤ length bytes.now) }
    ensures passed { first_zero bytes.now from ≡ first_zero bytes.now result }
    ensures within { (from ≤ result) × (result ≤ end) }
    ensures found { result < end → first_zero bytes.now result ≡ result }
{
    let mut i = from;
    while i < end {
        if bytes[i] == 0 {
            return i;
        }
        i += 1;
    }
    i
}

// The first zero of some bytes, or their length. Most strings are short: the iterator's search looks near first,
// which `memchr` does not.
fn wide_search(rest: &[u8]) -> usize
    ensures { result ≡ first is_zero rest.now }
{
    memchr_iter(0, rest).next().unwrap_or(rest.len())
}

// The same, however many they are.
fn zero_in(rest: &[u8]) -> usize
    ensures found { result ≡ first is_zero rest.now }
    ensures within { result ≤ length rest.now }
{
    if FEW <= rest.len() {
        return wide_search(rest);
    }
    if rest.len() <= NEAR {
        return zero_before(rest, 0, rest.len());
    }
    let near = zero_before(rest, 0, NEAR);
    if near < NEAR {
        return near;
    }
    if rest.len() < NEAR + NEAR / 2 {
        return zero_before(rest, near, rest.len());
    }
    // The last ones overlap these.
    zero_before(rest, rest.len() - NEAR, rest.len())
}

// The first zero from a place on; without one the length, or the place where it is past the end.
pub fn first_zero(bytes: &[u8], from: usize) -> usize
    ensures { result ≡ first_zero bytes.now from }
{
    if bytes.len() <= from || bytes[from] == 0 {
        return from;
    }
    from + zero_in(&bytes[from..])
}
