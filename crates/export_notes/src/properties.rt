// GNU properties, for C. Refused in this order: a part that is too long; a number that is no class or no
// order; as the functions of `note_properties` and `property_reader`.
ghost use Rattle.std.specs.Prelude.{◌≡◌};
ghost use Rattle.export_notes.specs.Properties.{gnu_properties_answer, no_property, property_answer, property_step_answer, property_number_answer};

use endian::refusals::Refusal;
use export::answers::{NumberAnswer, no_number, number_answer};
use export::kinds::{known, known_order};
use note_properties::gnu_properties;
use property_reader::{Property, PropertyReader, property_number};

// A step of a property reader: found is 1 with a property, 0 at the end or where it is refused. next is
// the place of the reader after it.
#[repr(C)]
#[derive(Clone, Copy)]
pub struct PropertyAnswer {
    pub refusal: u32,
    pub found: u32,
    pub kind: u64,
    pub start: u64,
    pub length: u64,
    pub next: u64,
}

// Whether a note of this type, name and descriptor holds GNU properties.
#[unsafe(no_mangle)]
pub extern "C" fn fetulombo_gnu_properties(
    class: u8,
    order: u8,
    kind: u32,
    name: &[u8],
    descriptor: &[u8],
) -> NumberAnswer
    ensures { result ≡ gnu_properties_answer class order kind name.now descriptor.now }
{
    let found = known(class, order, &[name, descriptor]).and_then(|(class, order)| {
        gnu_properties(class, order, kind, name, descriptor)
    });
    match found {
        Ok(Some(_)) => number_answer(1),
        Ok(None) => number_answer(0),
        Err(refusal) => no_number(refusal),
    }
}

pub(crate) fn no_property(refusal: u32, next: usize) -> PropertyAnswer
    ensures { result ≡ no_property refusal next }
{
    PropertyAnswer {
        refusal,
        found: 0,
        kind: 0,
        start: 0,
        length: 0,
        next: next as u64,
    }
}

pub(crate) fn property_answer(
    found: Result<Option<Property>, Refusal>,
    next: usize,
) -> PropertyAnswer
    ensures { result ≡ property_answer found next }
{
    match found {
        Ok(Some(property)) => PropertyAnswer {
            refusal: 0,
            found: 1,
            kind: property.kind as u64,
            start: property.start as u64,
            length: property.size as u64,
            next: next as u64,
        },
        Ok(None) => no_property(0, next),
        Err(refusal) => no_property(refusal.0, next),
    }
}

// The property at a place of a descriptor.
#[unsafe(no_mangle)]
pub extern "C" fn fetulombo_property_step(
    class: u8,
    order: u8,
    descriptor: &[u8],
    at: usize,
) -> PropertyAnswer
    ensures { result ≡ property_step_answer class order descriptor.now at }
{
    match known(class, order, &[descriptor]) {
        Ok((class, order)) => {
            let (found, next) = PropertyReader { class, order, at }.step(descriptor);
            property_answer(found, next.at)
        }
        Err(refusal) => no_property(refusal.0, descriptor.len()),
    }
}

// A property's data as a number.
#[unsafe(no_mangle)]
pub extern "C" fn fetulombo_property_number(order: u8, part: &[u8]) -> NumberAnswer
    ensures { result ≡ property_number_answer order part.now }
{
    let read = known_order(order, &[part]).and_then(|order| property_number(order, part));
    match read {
        Ok(value) => number_answer(value as u64),
        Err(refusal) => no_number(refusal),
    }
}
