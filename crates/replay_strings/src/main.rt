// Replays the original's recorded answers about strings: records of 64 bytes on the standard input
// (docs/COMPARISON.md). Prints how many there were and how many answers differ.
#![tactic(auto)]

use endian::kinds::Order;
use endian::refusals::Refusal;
use replay::{MOST, NONE_YET};
use std::io;
use std::io::{ErrorKind, Read};
use strings::Place;
use word::{u8_at, u32_at};

const RECORD: usize = 64;

// What string_at gave: the recorded refusal, or the recorded place.
fn place_recorded(record: &[u8]) -> Result<Place, Refusal> {
    match u8_at(record, 37) {
        0 => Ok(Place {
            start: u32_at(Order::Little, record, 38) as usize,
            len: u32_at(Order::Little, record, 42) as usize,
        }),
        refusal => Err(Refusal(refusal as u32)),
    }
}

fn agrees(record: &[u8]) -> bool {
    let strings_end = 1 + u8_at(record, 0) as usize;
    let name_end = 47 + u8_at(record, 46) as usize;
    let Some(strings) = record.get(1..strings_end) else {
        return false;
    };
    let Some(name) = record.get(47..name_end) else {
        return false;
    };
    let offset = u32_at(Order::Little, record, 33);
    let equal = u8_at(record, 59) == 1;
    strings::string_at(strings, offset) == place_recorded(record)
        && strings::string_equals(strings, offset, name) == equal
}

fn main(rt: HostRuntime) -> io::Result<()> {
    let mut input = rt.reader();
    let mut record = [0u8; RECORD];
    let mut tally = NONE_YET;
    for _ in 0..MOST {
        if let Err(error) = input.read_exact(&mut record) {
            if error.kind() == ErrorKind::UnexpectedEof {
                break;
            }
            return Err(error);
        }
        tally = tally.counted(agrees(&record));
    }
    println!(rt;
        "{} recorded answers about strings, {} different",
        tally.ran, tally.different
    )
}
