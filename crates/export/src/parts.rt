// What the exported functions about a segment's parts share: a segment of the numbers that C passes, and
// the struct that they hand back.
ghost use Rattle.std.specs.Prelude.{◌≡◌};
ghost use Rattle.export.specs.Parts.{entry, no_part, part};

use segment_entry::Segment;

// A part of the file. found is 0 where there is none and it is not refused. number is of what was
// asked: how many dynamic entries, or the notes' alignment.
#[repr(C)]
#[derive(Clone, Copy)]
pub struct PartAnswer {
    pub refusal: u32,
    pub found: u32,
    pub start: u64,
    pub length: u64,
    pub number: u64,
}

// A segment of these numbers; the others are 0.
pub fn entry_of(kind: u32, offset: u64, vaddr: u64, filesz: u64, align: u64) -> Segment
    ensures { result ≡ entry kind offset vaddr filesz align }
{
    Segment {
        kind,
        flags: 0,
        offset,
        vaddr,
        paddr: 0,
        filesz,
        memsz: 0,
        align,
    }
}

pub fn no_part(refusal: u32) -> PartAnswer
    ensures { result ≡ no_part refusal }
{
    PartAnswer {
        refusal,
        found: 0,
        start: 0,
        length: 0,
        number: 0,
    }
}

pub fn part_answer(start: usize, len: usize, number: u64) -> PartAnswer
    ensures { result ≡ part start len number }
{
    PartAnswer {
        refusal: 0,
        found: 1,
        start: start as u64,
        length: len as u64,
        number,
    }
}
