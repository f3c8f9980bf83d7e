// Replays the recorded answers of lookups in both hash tables: records of 640 bytes on the standard
// input (docs/COMPARISON.md). Prints how many there were and how many answers differ.
#![tactic(auto)]

use endian::kinds::Order;
use endian::refusals::Refusal;
use export::kinds::{class_of, order_of};
use lookup::{Asked, Lookup, Parts};
use replay::{MOST, NONE_YET, part_at};
use std::io;
use std::io::{ErrorKind, Read};
use symbol::table::SymbolIndex;
use version_match::Need;
use version_parse::parse::parse;
use word::{u8_at, u32_at};

const RECORD: usize = 640;

// Numbers in the store: more than any versions that are recorded ask for.
const STORE: usize = 60;

// Where the parts, what is asked and the answers stand in a record.
const TABLE: usize = 3;

const SYMBOLS: usize = 152;

const STRINGS: usize = 369;

const VERSYMS: usize = 459;

const VERDEF: usize = 478;

const VERNEED: usize = 535;

const VERSION_STRINGS: usize = 568;

const NAME: usize = 593;

const NEED_NAME: usize = 604;

const HASH: usize = 612;

const NEED: usize = 616;

const ANSWER: usize = 621;

const LENGTH: usize = 631;

// The recorded parts, with the store of the versions that were parsed.
fn parts_of<'a>(record: &'a [u8], store: &'a [u32]) -> Parts<'a> {
    Parts {
        table: part_at(record, TABLE),
        symbols: part_at(record, SYMBOLS),
        strings: part_at(record, STRINGS),
        versyms: part_at(record, VERSYMS),
        store,
        version_strings: part_at(record, VERSION_STRINGS),
    }
}

// The name and the version that the record asks for.
fn asked_of(record: &[u8]) -> Asked {
    Asked {
        name: part_at(record, NAME),
        need: match u8_at(record, NEED) {
            0 => Need::Any,
            _ => Need::Hash(u32_at(Order::Little, record, NEED + 1)),
        },
        need_name: part_at(record, NEED_NAME),
    }
}

// The recorded answer of the lookup: a refusal, or the symbol or none, and the probes. No answer where
// the byte that says whether there is a symbol is neither 0 nor 1.
fn recorded_lookup(record: &[u8]) -> Option<Result<Lookup, Refusal>> {
    let symbol = SymbolIndex(u32_at(Order::Little, record, ANSWER + 2));
    let probes = u32_at(Order::Little, record, ANSWER + 6) as usize;
    let found = match (u8_at(record, ANSWER), u8_at(record, ANSWER + 1)) {
        (0, 0) => None,
        (0, 1) => Some(symbol),
        (0, _) => return None,
        (refusal, _) => return Some(Err(Refusal(refusal as u32))),
    };
    Some(Ok(Lookup {
        symbol: found,
        probes,
    }))
}

// The recorded length of the table: a refusal, or so many symbols, or nothing. No answer as above.
fn recorded_length(record: &[u8]) -> Option<Result<Option<u32>, Refusal>> {
    let count = u32_at(Order::Little, record, LENGTH + 2);
    match (u8_at(record, LENGTH), u8_at(record, LENGTH + 1)) {
        (0, 0) => Some(Ok(None)),
        (0, 1) => Some(Ok(Some(count))),
        (0, _) => None,
        (refusal, _) => Some(Err(Refusal(refusal as u32))),
    }
}

// Whether both answers about the table are the recorded ones.
fn tables_agree(record: &[u8], parts: Parts) -> bool {
    let class = class_of(u8_at(record, 1));
    let order = order_of(u8_at(record, 2));
    let asked = asked_of(record);
    let hash = u32_at(Order::Little, record, HASH);
    let (found, length) = if u8_at(record, 0) == b'g' {
        (
            gnu::find::find(class, order, parts, asked, hash),
            gnu_length::table_length(class, order, parts.table),
        )
    } else {
        (
            sysv::find::find(class, order, parts, asked, hash),
            sysv_header::length::table_length(order, parts.table).map(Some),
        )
    };
    Some(found) == recorded_lookup(record) && Some(length) == recorded_length(record)
}

// The recorded versions can all be read.
fn agrees(record: &[u8]) -> bool {
    let order = order_of(u8_at(record, 2));
    let verdef = part_at(record, VERDEF);
    let verneed = part_at(record, VERNEED);
    let strings = part_at(record, VERSION_STRINGS);
    let mut store = [0xffff_ffffu32; STORE];
    parse(order, verdef, verneed, strings, &mut store).is_ok()
        && tables_agree(record, parts_of(record, &store))
}

fn main(rt: HostRuntime) -> io::Result<()> {
    let mut input = rt.reader();
    let mut record = [0u8; RECORD];
    let mut tally = NONE_YET;
    for _ in 0..MOST {
        if let Err(error) = input.read_exact(&mut record) {
            if error.kind() == ErrorKind::UnexpectedEof {
                break;
            }
            return Err(error);
        }
        tally = tally.counted(agrees(&record));
    }
    println!(rt;
        "{} recorded lookups in hash tables, {} different",
        tally.ran, tally.different
    )
}
