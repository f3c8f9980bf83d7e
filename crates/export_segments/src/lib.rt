// Segments, for C. Refused in this order: a table that is too long; a number that is no class or no
// order; as the functions of `segment`. What a segment's type and flags say is asked by these two numbers.
#![tactic(auto)]

ghost use Rattle.std.specs.Prelude.{◌≡◌};
ghost use Rattle.export_segments.specs.Answers.{segment_count_answer, segment_answer, segment_at_answer, entry, kind_number, facts};

use endian::refusals::Refusal;
use export::answers::{NumberAnswer, no_number, number_answer};
use export::kinds::{known, known_class};
use segment::table::{segment_at, segment_count};
use segment_entry::{Segment, SegmentKind};

// The fields of a segment.
#[repr(C)]
#[derive(Clone, Copy)]
pub struct SegmentAnswer {
    pub refusal: u64,
    pub kind: u32,
    pub flags: u32,
    pub offset: u64,
    pub vaddr: u64,
    pub paddr: u64,
    pub filesz: u64,
    pub memsz: u64,
    pub align: u64,
}

// What kind and flags say: the number of a known kind or 0, and three truths as 0 or 1.
#[repr(C)]
#[derive(Clone, Copy)]
pub struct SegmentFactsAnswer {
    pub kind: u64,
    pub readable: u64,
    pub writable: u64,
    pub executable: u64,
}

#[unsafe(no_mangle)]
pub extern "C" fn fetulombo_segment_count(class: u8, table: &[u8]) -> NumberAnswer
    ensures { result ≡ segment_count_answer class table.now }
{
    let counted = known_class(class, &[table]).and_then(|class| segment_count(class, table));
    match counted {
        Ok(count) => number_answer(count as u64),
        Err(refusal) => no_number(refusal),
    }
}

fn segment_answer(found: Result<Segment, Refusal>) -> SegmentAnswer
    ensures { result ≡ segment_answer found }
{
    match found {
        Ok(segment) => SegmentAnswer {
            refusal: 0,
            kind: segment.kind,
            flags: segment.flags,
            offset: segment.offset,
            vaddr: segment.vaddr,
            paddr: segment.paddr,
            filesz: segment.filesz,
            memsz: segment.memsz,
            align: segment.align,
        },
        Err(refusal) => SegmentAnswer {
            refusal: refusal.0 as u64,
            kind: 0,
            flags: 0,
            offset: 0,
            vaddr: 0,
            paddr: 0,
            filesz: 0,
            memsz: 0,
            align: 0,
        },
    }
}

#[unsafe(no_mangle)]
pub extern "C" fn fetulombo_segment_at(
    class: u8,
    order: u8,
    table: &[u8],
    number: u32,
) -> SegmentAnswer
    ensures { result ≡ segment_at_answer class order table.now number }
{
    let found = known(class, order, &[table]).and_then(|(class, order)| {
        segment_at(class, order, table, number)
    });
    segment_answer(found)
}

// A segment of this type and these flags; its other numbers are 0.
fn entry_of(kind: u32, flags: u32) -> Segment
    ensures { result ≡ entry kind flags }
{
    Segment {
        kind,
        flags,
        offset: 0,
        vaddr: 0,
        paddr: 0,
        filesz: 0,
        memsz: 0,
        align: 0,
    }
}

fn kind_number(kind: SegmentKind) -> u64
    ensures { result ≡ kind_number kind }
{
    match kind {
        SegmentKind::Other => 0,
        SegmentKind::Load => 1,
        SegmentKind::Dynamic => 2,
        SegmentKind::Interpreter => 3,
        SegmentKind::Note => 4,
    }
}

// What the type and the flags of a segment say.
#[unsafe(no_mangle)]
pub extern "C" fn fetulombo_segment_facts(kind: u32, flags: u32) -> SegmentFactsAnswer
    ensures { result ≡ facts (entry kind flags) }
{
    let segment = entry_of(kind, flags);
    let may = segment.permissions();
    SegmentFactsAnswer {
        kind: kind_number(segment.known_kind()),
        readable: may.readable as u64,
        writable: may.writable as u64,
        executable: may.executable as u64,
    }
}
