// The size limit, and the refusals by their numbers: document 01's, and our own.
ghost use Rattle.std.specs.Prelude.{◌≡◌, Some, map};
ghost use Rattle.endian.specs.InOrder.{refusals};
ghost use Rattle.endian.specs.Lent.{now_of};
ghost use Rattle.endian.specs.Printed.{refusal_text};
ghost use Rattle.endian.specs.Refusals.{limit, any_long};

use std::error::Error;
use std::fmt;

// The most bytes that a lent part may have.
pub const LIMIT: usize = 1073741824;

// A refusal is its number, and nothing else: no enum, since marks::marks_of and export::answers::no_number take any.
#[derive(Clone, Copy, Debug, PartialEq, Eq)]
pub struct Refusal(pub u32);

impl fmt::Display for Refusal {
    ghost output = { λ r. Some (refusal_text r) };

    fn fmt<W: fmt::Write>(&self, f: &mut fmt::Formatter<W>) -> fmt::Result {
        write!(f, "refused, number {}", self.0)
    }
}

impl Error for Refusal {}

pub const TOO_LONG: Refusal = Refusal(1);

pub const NOTE_SHORT: Refusal = Refusal(2);

pub const BAD_NOTE_NAME: Refusal = Refusal(3);

pub const BAD_NOTE_DESCRIPTOR: Refusal = Refusal(4);

pub const BAD_NOTE_ALIGNMENT: Refusal = Refusal(5);

pub const BAD_PROPERTY: Refusal = Refusal(6);

pub const SHORT_PROPERTY_NUMBER: Refusal = Refusal(7);

pub const VERDEF_SHORT: Refusal = Refusal(8);

pub const BAD_VERDEF_AUX: Refusal = Refusal(9);

pub const BAD_VERDEF_NEXT: Refusal = Refusal(10);

pub const VERDAUX_SHORT: Refusal = Refusal(11);

pub const BAD_VERDAUX_NEXT: Refusal = Refusal(12);

pub const VERNEED_SHORT: Refusal = Refusal(13);

pub const BAD_VERNEED_AUX: Refusal = Refusal(14);

pub const BAD_VERNEED_NEXT: Refusal = Refusal(15);

pub const VERNAUX_SHORT: Refusal = Refusal(16);

pub const BAD_VERNAUX_NEXT: Refusal = Refusal(17);

pub const BAD_VERDAUX_NAME: Refusal = Refusal(18);

pub const BAD_VERNEED_FILE: Refusal = Refusal(19);

pub const BAD_VERNAUX_NAME: Refusal = Refusal(20);

pub const BAD_VERSION_INDEX: Refusal = Refusal(21);

pub const STORE_TOO_SMALL: Refusal = Refusal(22);

pub const BAD_SYSV_HEADER: Refusal = Refusal(23);

pub const BAD_SYSV_BUCKETS: Refusal = Refusal(24);

pub const BAD_SYSV_CHAINS: Refusal = Refusal(25);

pub const BAD_GNU_HEADER: Refusal = Refusal(26);

pub const BAD_GNU_BLOOM: Refusal = Refusal(27);

pub const BAD_GNU_BUCKETS: Refusal = Refusal(28);

pub const NO_SEGMENT: Refusal = Refusal(29);

pub const BAD_BLOOM_SHIFT: Refusal = Refusal(30);

pub const BAD_SEGMENT_DATA: Refusal = Refusal(31);

pub const BAD_DYNAMIC_PLACE: Refusal = Refusal(32);

pub const BAD_INTERPRETER_PLACE: Refusal = Refusal(33);

pub const ENDLESS_INTERPRETER: Refusal = Refusal(34);

pub const BAD_NOTE_PLACE: Refusal = Refusal(35);

pub const NO_STRING: Refusal = Refusal(36);

pub const NO_SYMBOL: Refusal = Refusal(37);

// Not document 01's: a class or a byte order that C passes and that is none.
pub const UNKNOWN_KIND: Refusal = Refusal(39);

// Its promise ties the constant to its name in specs/.
fn limit_of() -> usize
    ensures { result ≡ limit }
{
    LIMIT
}

// All of them, in the order of their numbers: its promise ties each constant to its name in specs/.
fn in_order() -> [Refusal; 38]
    ensures { result ≡ refusals }
{
    [
        TOO_LONG,
        NOTE_SHORT,
        BAD_NOTE_NAME,
        BAD_NOTE_DESCRIPTOR,
        BAD_NOTE_ALIGNMENT,
        BAD_PROPERTY,
        SHORT_PROPERTY_NUMBER,
        VERDEF_SHORT,
        BAD_VERDEF_AUX,
        BAD_VERDEF_NEXT,
        VERDAUX_SHORT,
        BAD_VERDAUX_NEXT,
        VERNEED_SHORT,
        BAD_VERNEED_AUX,
        BAD_VERNEED_NEXT,
        VERNAUX_SHORT,
        BAD_VERNAUX_NEXT,
        BAD_VERDAUX_NAME,
        BAD_VERNEED_FILE,
        BAD_VERNAUX_NAME,
        BAD_VERSION_INDEX,
        STORE_TOO_SMALL,
        BAD_SYSV_HEADER,
        BAD_SYSV_BUCKETS,
        BAD_SYSV_CHAINS,
        BAD_GNU_HEADER,
        BAD_GNU_BLOOM,
        BAD_GNU_BUCKETS,
        NO_SEGMENT,
        BAD_BLOOM_SHIFT,
        BAD_SEGMENT_DATA,
        BAD_DYNAMIC_PLACE,
        BAD_INTERPRETER_PLACE,
        ENDLESS_INTERPRETER,
        BAD_NOTE_PLACE,
        NO_STRING,
        NO_SYMBOL,
        UNKNOWN_KIND,
    ]
}

// Whether one of several parts is too long.
pub fn any_long(parts: &[&[u8]]) -> bool
    ensures { result ≡ any_long (map now_of parts.now) }
{
    parts.iter().any(|part| LIMIT < part.len())
}
