// Replays the original's recorded walks over notes and properties: records of 128 bytes on the
// standard input (docs/COMPARISON.md). Prints how many there were and how many walks differ.
#![tactic(auto)]

use endian::kinds::Order;
use endian::refusals::Refusal;
use export::kinds::{class_of, order_of};
use note::reader::{Note, NoteReader, reader_for};
use property_reader::{Property, PropertyReader, property_number};
use replay::{MOST, NONE_YET};
use std::io;
use std::io::{ErrorKind, Read};
use word::{u8_at, u32_at};

const RECORD: usize = 128;

// Where the lent bytes and the steps stand in a record, and how long a step is.
const BYTES: usize = 4;

const STEPS: usize = 68;

const STEP: usize = 10;

// What a step is recorded as.
const REFUSED: u8 = 0;

const FOUND: u8 = 1;

const END: u8 = 2;

// What the recorded step found, or none where the record names no such thing.
fn recorded_note(step: &[u8]) -> Option<Result<Option<Note>, Refusal>> {
    match u8_at(step, 0) {
        REFUSED => Some(Err(Refusal(u8_at(step, 1) as u32))),
        FOUND => Some(Ok(Some(Note {
            kind: u32_at(Order::Little, step, 2),
            name: u8_at(step, 6) as usize,
            namesz: u8_at(step, 7) as usize,
            descriptor: u8_at(step, 8) as usize,
            descsz: u8_at(step, 9) as usize,
        }))),
        END => Some(Ok(None)),
        _ => None,
    }
}

// Whether each step from the reader on is the one that is recorded, to the end.
fn notes_agree(record: &[u8; RECORD], mut reader: NoteReader, bytes: &[u8]) -> bool {
    for step in record[STEPS..].chunks(STEP) {
        let (found, next) = reader.step(bytes);
        reader = next;
        if recorded_note(step) != Some(found) {
            return false;
        }
        if found == Ok(None) {
            return true;
        }
    }
    false
}

fn walk_agrees(record: &[u8; RECORD], bytes: &[u8]) -> bool {
    match reader_for(order_of(record[1]), record[2] as u64) {
        Ok(reader) => notes_agree(record, reader, bytes),
        Err(refusal) => recorded_note(&record[STEPS..]) == Some(Err(refusal)),
    }
}

// The same of a property, without its number.
fn recorded_property(step: &[u8]) -> Option<Result<Option<Property>, Refusal>> {
    match u8_at(step, 0) {
        REFUSED => Some(Err(Refusal(u8_at(step, 1) as u32))),
        FOUND => Some(Ok(Some(Property {
            kind: u32_at(Order::Little, step, 2),
            start: u8_at(step, 6) as usize,
            size: u8_at(step, 7) as usize,
        }))),
        END => Some(Ok(None)),
        _ => None,
    }
}

// A property's data, where it is all there.
fn data_of(property: Property, bytes: &[u8]) -> Option<&[u8]> {
    bytes.get(property.start..)?.get(..property.size)
}

// Whether the property's number is the recorded one, of which the record has the lowest byte.
fn number_agrees(step: &[u8], order: Order, property: Property, bytes: &[u8]) -> bool {
    let Some(part) = data_of(property, bytes) else {
        return false;
    };
    let recorded = match u8_at(step, 8) {
        0 => Ok(u8_at(step, 9) as u32),
        refusal => Err(Refusal(refusal as u32)),
    };
    property_number(order, part).map(|value| value % 256) == recorded
}

fn properties_agree(record: &[u8; RECORD], mut reader: PropertyReader, bytes: &[u8]) -> bool {
    for step in record[STEPS..].chunks(STEP) {
        let (found, next) = reader.step(bytes);
        reader = next;
        if recorded_property(step) != Some(found) {
            return false;
        }
        match found {
            Ok(Some(property)) => {
                if !number_agrees(step, reader.order, property, bytes) {
                    return false;
                }
            }
            Ok(None) => return true,
            Err(_) => {}
        }
    }
    false
}

fn agrees(record: &[u8; RECORD]) -> bool {
    let Some(bytes) = record.get(BYTES..BYTES + record[3] as usize) else {
        return false;
    };
    if record[0] == b'n' {
        return walk_agrees(record, bytes);
    }
    let reader = PropertyReader {
        class: class_of(record[2]),
        order: order_of(record[1]),
        at: 0,
    };
    properties_agree(record, reader, bytes)
}

fn main(rt: HostRuntime) -> io::Result<()> {
    let mut input = rt.reader();
    let mut record = [0u8; RECORD];
    let mut tally = NONE_YET;
    for _ in 0..MOST {
        if let Err(error) = input.read_exact(&mut record) {
            if error.kind() == ErrorKind::UnexpectedEof {
                break;
            }
            return Err(error);
        }
        tally = tally.counted(agrees(&record));
    }
    println!(rt;
        "{} recorded walks over notes and properties, {} different",
        tally.ran, tally.different
    )
}
