// Replays the recorded verdicts of both table checkers: records of 472 bytes on the standard input
// (docs/COMPARISON.md). Prints how many there were and how many verdicts differ.
#![tactic(auto)]

use endian::kinds::Order;
use endian::refusals::Refusal;
use export::kinds::{class_of, order_of};
use gnu_rules::Fault;
use replay::{MOST, NONE_YET, part_at};
use std::io;
use std::io::{ErrorKind, Read};
use word::{u8_at, u32_at};

const RECORD: usize = 472;

// Where the parts and the verdict stand in a record.
const TABLE: usize = 3;

const SYMBOLS: usize = 152;

const STRINGS: usize = 369;

const VERDICT: usize = 459;

// The verdict of the checker that the record names; the SysV one has no place and no longest chain.
fn checked(record: &[u8]) -> Result<usize, Fault> {
    let class = class_of(u8_at(record, 1));
    let order = order_of(u8_at(record, 2));
    let table = part_at(record, TABLE);
    let symbols = part_at(record, SYMBOLS);
    let strings = part_at(record, STRINGS);
    if u8_at(record, 0) == b'g' {
        return gnu_check::check::check(class, order, table, symbols, strings);
    }
    match sysv_check::table::check(class, order, table, symbols, strings) {
        Ok(()) => Ok(0),
        Err(sysv_check::table::Fault::Broken(rule)) => Err(Fault::Broken { rule, place: 0 }),
        Err(sysv_check::table::Fault::Refused(refusal)) => Err(Fault::Refused(refusal)),
    }
}

// The recorded verdict: the refusal, or no rule with the longest chain, or the broken rule with its
// place.
fn recorded_verdict(record: &[u8]) -> Result<usize, Fault> {
    let place = u32_at(Order::Little, record, VERDICT + 2);
    let longest = u32_at(Order::Little, record, VERDICT + 6) as usize;
    match (u8_at(record, VERDICT), u8_at(record, VERDICT + 1)) {
        (0, 0) => Ok(longest),
        (0, rule) => Err(Fault::Broken { rule, place }),
        (refusal, _) => Err(Fault::Refused(Refusal(refusal as u32))),
    }
}

fn agrees(record: &[u8]) -> bool {
    checked(record) == recorded_verdict(record)
}

fn main(rt: HostRuntime) -> io::Result<()> {
    let mut input = rt.reader();
    let mut record = [0u8; RECORD];
    let mut tally = NONE_YET;
    for _ in 0..MOST {
        if let Err(error) = input.read_exact(&mut record) {
            if error.kind() == ErrorKind::UnexpectedEof {
                break;
            }
            return Err(error);
        }
        tally = tally.counted(agrees(&record));
    }
    println!(rt;
        "{} recorded verdicts on hash tables, {} different",
        tally.ran, tally.different
    )
}
