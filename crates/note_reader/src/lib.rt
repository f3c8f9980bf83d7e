// The end form of the note reader: a struct that carries the lent bytes and the reader. The work is
// done by `note`'s step.
#![tactic(auto)]

ghost use Rattle.std.specs.Prelude.{◌≡◌};
ghost use Rattle.note.specs.Notes.{note_step};
ghost use Rattle.note_reader.specs.Held.{notes_at, answered, stepped};

use endian::refusals::Refusal;
use note::reader::{Note, NoteReader};

// The lent bytes, and the reader of what is left of them.
#[derive(Clone, Copy)]
pub struct Notes<'a> {
    pub bytes: &'a [u8],
    pub reader: NoteReader,
}

// What a step found, and the notes that are left after it.
#[derive(Clone, Copy)]
pub struct Stepped<'a> {
    pub answer: Result<Option<Note>, Refusal>,
    pub next: Notes<'a>,
}

// The bytes with a reader.
pub fn notes_of<'a>(bytes: &'a [u8], reader: NoteReader) -> Notes<'a>
    ensures { result ≡ notes_at bytes.entry reader }
{
    Notes { bytes, reader }
}

impl<'a> Notes<'a> {
    // One note further: as `NoteReader::step`, with the reader moved. By value, as document 01's readers.
    // No `Iterator`, which would not end: over bytes that are too long each step is refused anew.
    pub fn next(self) -> Stepped<'a>
        ensures found { result.answer ≡ answered self.entry }
        ensures moved { result.next ≡ stepped self.entry }
    {
        let (answer, reader) = self.reader.step(self.bytes);
        Stepped {
            answer,
            next: Notes {
                bytes: self.bytes,
                reader,
            },
        }
    }
}

// What the first step of a reader over the bytes finds.
pub fn first_step(bytes: &[u8], reader: NoteReader) -> Result<Option<Note>, Refusal>
    ensures { result ≡ note_step reader bytes.now }
{
    notes_of(bytes, reader).next().answer
}
