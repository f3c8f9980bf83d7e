// Whether a note holds GNU properties, and the reader before the first.
#![tactic(auto)]

ghost use Rattle.std.specs.Prelude.{◌≡◌};
ghost use Rattle.note_properties.specs.Properties.{is_gnu, gnu_properties};

use endian::kinds::{Class, Order};
use endian::refusals::{LIMIT, Refusal, TOO_LONG};
use note_name::trimmed;
use property_reader::PropertyReader;

// The type of a note that holds properties, where its name is `GNU`.
pub const NT_GNU_PROPERTY_TYPE_0: u32 = 5;

// Whether the trimmed name is `GNU`.
fn is_gnu(name: &[u8]) -> bool
    ensures { result ≡ is_gnu name.now }
{
    trimmed(name) == b"GNU".as_slice()
}

// The reader before the first property of a note, by the note's type, name and descriptor. Refused
// first: a name or a descriptor that is too long. Then another type, or another trimmed name, is not
// this kind.
pub fn gnu_properties(
    class: Class,
    order: Order,
    kind: u32,
    name: &[u8],
    descriptor: &[u8],
) -> Result<Option<PropertyReader>, Refusal>
    ensures { result ≡ gnu_properties class order kind name.now descriptor.now }
{
    if LIMIT < name.len() || LIMIT < descriptor.len() {
        return Err(TOO_LONG);
    }
    if kind != NT_GNU_PROPERTY_TYPE_0 || !is_gnu(name) {
        return Ok(None);
    }
    Ok(Some(PropertyReader {
        class,
        order,
        at: 0,
    }))
}
