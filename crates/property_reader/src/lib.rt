// The GNU properties in a descriptor, one step at a time.
#![tactic(auto)]

ghost use Rattle.std.specs.Prelude.{◌≡◌};
ghost use Rattle.property_reader.specs.Reader.{property_align, property_step, property_number};
ghost use Rattle.property_reader.specs.After.{property_reader_after};

use endian::kinds::{Class, Order};
use endian::refusals::{BAD_PROPERTY, LIMIT, Refusal, SHORT_PROPERTY_NUMBER, TOO_LONG};
use note::reader::Align;
use word::u32_at;

// The bytes of a property's type and size.
pub const PROPERTY_HEADER: usize = 8;

// How the properties are laid out, and where the next one starts.
#[derive(Clone, Copy, Debug, PartialEq, Eq)]
pub struct PropertyReader {
    pub class: Class,
    pub order: Order,
    pub at: usize,
}

// A property's type, which is any number that the file has, and where its data stands in the lent descriptor: size bytes at start.
#[derive(Clone, Copy, Debug, PartialEq, Eq)]
pub struct Property {
    pub kind: u32,
    pub start: usize,
    pub size: usize,
}

// The alignment of properties: by the class, whatever the notes' own alignment.
fn property_align(class: Class) -> Align
    ensures { result ≡ property_align class }
{
    match class {
        Class::Elf32 => Align::Four,
        Class::Elf64 => Align::Eight,
    }
}

impl PropertyReader {
    // One property further, from any place: what is found, and the reader that stands after it. By value,
    // as document 01's readers. Refused as `advance`.
    pub fn step(self, bytes: &[u8]) -> (Result<Option<Property>, Refusal>, PropertyReader)
        ensures found { result.0 ≡ property_step self bytes.now }
        ensures next { result.1 ≡ property_reader_after self bytes.now }
    {
        let mut reader = self;
        let found = reader.advance(bytes);
        (found, reader)
    }

    // The same of the reader itself. Refused first: bytes that are too long. Then a reader at
    // or past their end is at its end, and stays as it is. Then refused: a property that is not whole,
    // its padding included. A refused reader stands at the end of these bytes, where the next step
    // over them finds the end unless they are too long.
    #[tactic(auto, using(note::proofs::Aligned::aligned_next), unfolding(crate::specs::Reader::property_step))]
    fn advance(&mut self, bytes: &[u8]) -> Result<Option<Property>, Refusal>
        ensures found { result ≡ property_step self.old bytes.now }
        ensures moved { self.new ≡ property_reader_after self.old bytes.now }
    {
        let at = self.at;
        // Where a refused reader stands.
        self.at = bytes.len();
        if LIMIT < bytes.len() {
            return Err(TOO_LONG);
        }
        if bytes.len() <= at {
            self.at = at;
            return Ok(None);
        }
        let left = bytes.len() - at;
        if left < PROPERTY_HEADER {
            return Err(BAD_PROPERTY);
        }
        let size = u32_at(self.order, bytes, at + 4) as usize;
        let align = property_align(self.class);
        let next = (PROPERTY_HEADER + size).next_multiple_of(align.size());
        if left < next {
            return Err(BAD_PROPERTY);
        }
        self.at = at + next;
        Ok(Some(Property {
            kind: u32_at(self.order, bytes, at),
            start: at + PROPERTY_HEADER,
            size,
        }))
    }
}

// A property's data as a number: its first 4 bytes. Refused in this order: data that is too long;
// fewer than 4 bytes.
pub fn property_number(order: Order, part: &[u8]) -> Result<u32, Refusal>
    ensures { result ≡ property_number order part.now }
{
    if LIMIT < part.len() {
        return Err(TOO_LONG);
    }
    if part.len() < 4 {
        return Err(SHORT_PROPERTY_NUMBER);
    }
    Ok(u32_at(order, part, 0))
}
