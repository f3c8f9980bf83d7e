// Replays the original's recorded answers about symbols: records of 128 bytes on the standard input
// (docs/COMPARISON.md). Prints how many there were and how many answers differ.
#![tactic(auto)]

use endian::kinds::Order;
use endian::refusals::Refusal;
use export::kinds::{class_of, order_of};
use replay::{MOST, NONE_YET};
use std::io;
use std::io::{ErrorKind, Read};
use strings::Place;
use symbol::table::SymbolIndex;
use symbol_entry::Symbol;
use word::{u8_at, u16_at, u32_at, u64_at};

const RECORD: usize = 128;

// What symbol_at gave: the refusal or the fields that are recorded from byte 100 on.
fn symbol_recorded(record: &[u8]) -> Result<Symbol, Refusal> {
    match u8_at(record, 100) {
        0 => Ok(Symbol {
            name: u32_at(Order::Little, record, 101),
            value: u64_at(Order::Little, record, 105),
            size: u64_at(Order::Little, record, 113),
            info: u8_at(record, 121),
            other: u8_at(record, 122),
            shndx: u16_at(Order::Little, record, 123),
        }),
        refusal => Err(Refusal(refusal as u32)),
    }
}

// What symbol_name gave: the refusal or the place that is recorded from byte 125 on.
fn name_recorded(record: &[u8]) -> Result<Place, Refusal> {
    match u8_at(record, 125) {
        0 => Ok(Place {
            start: u8_at(record, 126) as usize,
            len: u8_at(record, 127) as usize,
        }),
        refusal => Err(Refusal(refusal as u32)),
    }
}

fn agrees(record: &[u8]) -> bool {
    let class = class_of(u8_at(record, 0));
    let order = order_of(u8_at(record, 1));
    let symbols_end = 3 + u8_at(record, 2) as usize;
    let strings_end = 88 + u8_at(record, 87) as usize;
    let Some(symbols) = record.get(3..symbols_end) else {
        return false;
    };
    let Some(strings) = record.get(88..strings_end) else {
        return false;
    };
    let index = SymbolIndex(u32_at(Order::Little, record, 83));
    symbol::table::symbol_at(class, order, symbols, index) == symbol_recorded(record)
        && symbol::table::symbol_name(class, order, symbols, strings, index)
            == name_recorded(record)
}

fn main(rt: HostRuntime) -> io::Result<()> {
    let mut input = rt.reader();
    let mut record = [0u8; RECORD];
    let mut tally = NONE_YET;
    for _ in 0..MOST {
        if let Err(error) = input.read_exact(&mut record) {
            if error.kind() == ErrorKind::UnexpectedEof {
                break;
            }
            return Err(error);
        }
        tally = tally.counted(agrees(&record));
    }
    println!(rt;
        "{} recorded answers about symbols, {} different",
        tally.ran, tally.different
    )
}
