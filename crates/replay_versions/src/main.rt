// Replays the original's recorded answers about versions: records of 288 bytes on the standard input
// (docs/COMPARISON.md). Prints how many there were and how many answers differ.
#![tactic(auto)]

use endian::kinds::Order;
use endian::refusals::Refusal;
use export::kinds::order_of;
use export_version_match::need_of;
use replay::{MOST, NONE_YET, part, part_at};
use std::io;
use std::io::{ErrorKind, Read};
use symbol::table::SymbolIndex;
use version::index::VersionIndex;
use version::table::{Versym, version_of};
use version_match::matches;
use version_parse::parse::parse;
use word::{u8_at, u16_at, u32_at};

const RECORD: usize = 288;

// Numbers in the store, enough for any index, and how many of them are looked at: more than any
// table that is recorded as read asks for.
const STORE: usize = 393216;

const LOOKED_AT: usize = 60;

// Where the parts, the answer, the entries and the match stand in a record.
const VERSYMS: usize = 5;

const VERDEF: usize = 13;

const VERNEED: usize = 69;

const STRINGS: usize = 133;

const ANSWER: usize = 149;

const ENTRIES: usize = 152;

const MATCH: usize = 272;

// The answer that is recorded: a refusal, or the highest index.
fn recorded_answer(record: &[u8]) -> Result<VersionIndex, Refusal> {
    match u8_at(record, ANSWER) {
        0 => Ok(VersionIndex(u16_at(Order::Little, record, ANSWER + 1))),
        refusal => Err(Refusal(refusal as u32)),
    }
}

// What a number of the store must be: those of the entries 2 to 6 are recorded, all others are 0.
fn recorded_number(record: &[u8], i: usize) -> u32 {
    if 12 <= i && i < 42 {
        u32_at(Order::Little, record, ENTRIES + (i - 12) * 4)
    } else {
        0
    }
}

fn same_store(record: &[u8], store: &[u32]) -> bool {
    store
        .iter()
        .take(LOOKED_AT)
        .enumerate()
        .all(|(i, number)| *number == recorded_number(record, i))
}

// The symbol's versym that is recorded.
fn recorded_versym(record: &[u8]) -> Versym {
    let versym = u16_at(Order::Little, record, MATCH + 1);
    Versym {
        index: VersionIndex(versym % 0x8000),
        hidden: 0x8000 <= versym,
    }
}

fn same_match(record: &[u8], order: Order, versyms: &[u8], store: &[u32], strings: &[u8]) -> bool {
    let symbol = SymbolIndex(u8_at(record, MATCH) as u32);
    let need = need_of(
        u8_at(record, MATCH + 3),
        u32_at(Order::Little, record, MATCH + 4),
    );
    let name = part_at(record, MATCH + 8);
    let met = matches(order, versyms, store, strings, symbol, need, name);
    version_of(order, versyms, symbol) == Ok(recorded_versym(record))
        && met == (u8_at(record, MATCH + 13) == 1)
}

fn agrees(record: &[u8]) -> bool {
    let order = order_of(u8_at(record, 0));
    let versyms = part(record, VERSYMS, u8_at(record, 1));
    let verdef = part(record, VERDEF, u8_at(record, 2));
    let verneed = part(record, VERNEED, u8_at(record, 3));
    let strings = part(record, STRINGS, u8_at(record, 4));
    let mut store = [0xffff_ffffu32; STORE];
    let parsed = parse(order, verdef, verneed, strings, &mut store);
    parsed == recorded_answer(record)
        && same_store(record, &store)
        && (parsed.is_err() || same_match(record, order, versyms, &store, strings))
}

fn main(rt: HostRuntime) -> io::Result<()> {
    let mut input = rt.reader();
    let mut record = [0u8; RECORD];
    let mut tally = NONE_YET;
    for _ in 0..MOST {
        if let Err(error) = input.read_exact(&mut record) {
            if error.kind() == ErrorKind::UnexpectedEof {
                break;
            }
            return Err(error);
        }
        tally = tally.counted(agrees(&record));
    }
    println!(rt;
        "{} recorded answers about versions, {} different",
        tally.ran, tally.different
    )
}
