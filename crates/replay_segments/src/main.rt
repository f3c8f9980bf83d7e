// Replays the original's recorded answers about segments: records of 320 bytes on the standard input
// (docs/COMPARISON.md). Prints how many there were and how many answers differ.
#![tactic(auto)]

use endian::kinds::{Class, Order};
use endian::refusals::Refusal;
use export::kinds::{class_of, order_of};
use replay::{MOST, NONE_YET};
use segment::table::segment_at;
use segment_data::part::{segment_data, segment_data_range};
use segment_dynamic::dynamic::{DynamicEntry, DynamicPart, dynamic_entry, segment_dynamic};
use segment_entry::Segment;
use segment_parts::interpreter::segment_interpreter;
use segment_parts::notes::{NotesPart, segment_notes};
use std::io;
use std::io::{ErrorKind, Read};
use strings::Place;
use word::{u8_at, u32_at, u64_at};

const RECORD: usize = 320;

// Where the parts, the numbers and the answers stand in a record.
const TABLE: usize = 3;

const NUMBER: usize = 115;

const FILE: usize = 120;

const ADDRESS: usize = 200;

const SIZE: usize = 208;

const ENTRY_NUMBER: usize = 216;

const SEGMENT: usize = 217;

const DATA: usize = 274;

const RANGE: usize = 279;

const DYNAMIC: usize = 284;

const INTERPRETER: usize = 289;

const NOTES: usize = 294;

const ENTRY: usize = 299;

// What an answer is recorded as.
const REFUSED: u8 = 0;

const FOUND: u8 = 1;

const NONE: u8 = 2;

// The bytes at a place, where they are all there.
fn part(bytes: &[u8], place: Place) -> Option<&[u8]> {
    bytes.get(place.start..)?.get(..place.len)
}

// A part of the record, or none of it where the record is too short.
fn recorded(record: &[u8; RECORD], start: usize, length: u8) -> &[u8] {
    let len = length as usize;
    part(record, Place { start, len }).unwrap_or(&[])
}

// The recorded segment.
fn recorded_segment(record: &[u8; RECORD]) -> Segment {
    let fields = &record[SEGMENT + 1..];
    Segment {
        kind: u32_at(Order::Little, fields, 0),
        flags: u32_at(Order::Little, fields, 4),
        offset: u64_at(Order::Little, fields, 8),
        vaddr: u64_at(Order::Little, fields, 16),
        paddr: u64_at(Order::Little, fields, 24),
        filesz: u64_at(Order::Little, fields, 32),
        memsz: u64_at(Order::Little, fields, 40),
        align: u64_at(Order::Little, fields, 48),
    }
}

// A part of the file and its number, as the record has them.
type Part = (Place, usize);

// The answer that 5 bytes from a place on record, or none where they record no such thing.
fn recorded_part(record: &[u8; RECORD], at: usize) -> Option<Result<Option<Part>, Refusal>> {
    let answer = recorded(record, at, 5);
    let refusal = Refusal(u8_at(answer, 1) as u32);
    let place = Place {
        start: u8_at(answer, 2) as usize,
        len: u8_at(answer, 3) as usize,
    };
    match u8_at(answer, 0) {
        REFUSED => Some(Err(refusal)),
        FOUND => Some(Ok(Some((place, u8_at(answer, 4) as usize)))),
        NONE if refusal == Refusal(0) => Some(Ok(None)),
        _ => None,
    }
}

// Whether the answer that is recorded at a place is this one, of number 0.
fn place_agrees(record: &[u8; RECORD], at: usize, found: Result<Option<Place>, Refusal>) -> bool {
    recorded_part(record, at) == Some(found.map(|here| here.map(|place| (place, 0))))
}

// The recorded entry, or none where the record names no such thing.
fn recorded_entry(record: &[u8; RECORD]) -> Option<Option<DynamicEntry>> {
    match record[ENTRY] {
        FOUND => Some(Some(DynamicEntry {
            tag: u64_at(Order::Little, record, ENTRY + 1),
            value: u64_at(Order::Little, record, ENTRY + 9),
        })),
        NONE => Some(None),
        _ => None,
    }
}

// Whether the entry of the recorded number among the entries' bytes is the recorded one.
fn entry_agrees(record: &[u8; RECORD], class: Class, order: Order, place: Place) -> bool {
    let file = recorded(record, FILE, record[FILE - 1]);
    let number = record[ENTRY_NUMBER] as u32;
    match (part(file, place), recorded_entry(record)) {
        (Some(bytes), Some(entry)) => dynamic_entry(class, order, bytes, number) == Ok(entry),
        _ => false,
    }
}

// Whether the dynamic entries are the recorded ones, and the one of the recorded number is.
fn dynamic_agrees(
    record: &[u8; RECORD],
    class: Class,
    order: Order,
    found: Result<Option<DynamicPart>, Refusal>,
) -> bool {
    let counted = found.map(|held| held.map(|part| (part.place, part.count)));
    if recorded_part(record, DYNAMIC) != Some(counted) {
        return false;
    }
    match found {
        Ok(Some(part)) => entry_agrees(record, class, order, part.place),
        _ => true,
    }
}

// Whether the notes stand in the recorded part, and have the recorded alignment.
fn notes_agree(record: &[u8; RECORD], found: Result<Option<NotesPart>, Refusal>) -> bool {
    let aligned = found.map(|held| held.map(|part| (part.place, part.reader.align.size())));
    recorded_part(record, NOTES) == Some(aligned)
}

// Whether all that the segment holds is as recorded.
fn held_agrees(record: &[u8; RECORD], class: Class, order: Order, segment: Segment) -> bool {
    let file = recorded(record, FILE, record[FILE - 1]);
    let address = u64_at(Order::Little, record, ADDRESS);
    let size = u64_at(Order::Little, record, SIZE);
    place_agrees(record, DATA, segment_data(file, segment).map(Some))
        && place_agrees(
            record,
            RANGE,
            segment_data_range(file, segment, address, size),
        )
        && dynamic_agrees(record, class, order, segment_dynamic(class, file, segment))
        && place_agrees(record, INTERPRETER, segment_interpreter(file, segment))
        && notes_agree(record, segment_notes(order, file, segment))
}

fn agrees(record: &[u8; RECORD]) -> bool {
    let class = class_of(record[0]);
    let order = order_of(record[1]);
    let table = recorded(record, TABLE, record[2]);
    let number = u32_at(Order::Little, record, NUMBER);
    let refusal = record[SEGMENT] as u32;
    match segment_at(class, order, table, number) {
        Ok(segment) => {
            refusal == 0
                && segment == recorded_segment(record)
                && held_agrees(record, class, order, segment)
        }
        Err(found) => found == Refusal(refusal),
    }
}

fn main(rt: HostRuntime) -> io::Result<()> {
    let mut input = rt.reader();
    let mut record = [0u8; RECORD];
    let mut tally = NONE_YET;
    for _ in 0..MOST {
        if let Err(error) = input.read_exact(&mut record) {
            if error.kind() == ErrorKind::UnexpectedEof {
                break;
            }
            return Err(error);
        }
        tally = tally.counted(agrees(&record));
    }
    println!(rt;
        "{} recorded answers about segments, {} different",
        tally.ran, tally.different
    )
}
