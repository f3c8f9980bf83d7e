// A table of program headers: how many it has, and the one of a number.
ghost use Rattle.std.specs.Prelude.{◌≡◌, ◌<◌};
ghost use Rattle.segment.specs.Table.{segment_size, segment_of, segment_count, segment_at};

use endian::kinds::{Class, Order};
use endian::refusals::{LIMIT, NO_SEGMENT, Refusal, TOO_LONG};
use segment_entry::Segment;
use word::{u32_at, u64_at};

fn segment_size(class: Class) -> usize
    ensures { result ≡ segment_size class }
{
    match class {
        Class::Elf32 => 32,
        Class::Elf64 => 56,
    }
}

// How many whole records there are; a shorter tail is ignored. Refused: a table that is too long.
pub fn segment_count(class: Class, table: &[u8]) -> Result<u32, Refusal>
    ensures { result ≡ segment_count class table.now }
{
    if LIMIT < table.len() {
        return Err(TOO_LONG);
    }
    // By class, since a size that is chosen first makes it a division by a variable.
    match class {
        Class::Elf32 => Ok((table.len() / 32) as u32),
        Class::Elf64 => Ok((table.len() / 56) as u32),
    }
}

// The fields of the record at a place. A byte past the end counts as 0.
fn segment_of(class: Class, order: Order, table: &[u8], base: usize) -> Segment
    requires { base < 1099511627776 }
    ensures { result ≡ segment_of class order table.now base }
{
    match class {
        Class::Elf32 => Segment {
            kind: u32_at(order, table, base),
            flags: u32_at(order, table, base + 24),
            offset: u32_at(order, table, base + 4) as u64,
            vaddr: u32_at(order, table, base + 8) as u64,
            paddr: u32_at(order, table, base + 12) as u64,
            filesz: u32_at(order, table, base + 16) as u64,
            memsz: u32_at(order, table, base + 20) as u64,
            align: u32_at(order, table, base + 28) as u64,
        },
        Class::Elf64 => Segment {
            kind: u32_at(order, table, base),
            flags: u32_at(order, table, base + 4),
            offset: u64_at(order, table, base + 8),
            vaddr: u64_at(order, table, base + 16),
            paddr: u64_at(order, table, base + 24),
            filesz: u64_at(order, table, base + 32),
            memsz: u64_at(order, table, base + 40),
            align: u64_at(order, table, base + 48),
        },
    }
}

// The segment of a number. Refused in this order: a table that is too long; a number with no whole
// record.
#[tactic(auto, unfolding(crate::specs::Table::segment_at))]
pub fn segment_at(class: Class, order: Order, table: &[u8], number: u32) -> Result<Segment, Refusal>
    ensures { result ≡ segment_at class order table.now number }
{
    if LIMIT < table.len() {
        return Err(TOO_LONG);
    }
    let at = number as usize;
    let record = segment_size(class);
    if table.len() < (at + 1) * record {
        return Err(NO_SEGMENT);
    }
    Ok(segment_of(class, order, table, at * record))
}
