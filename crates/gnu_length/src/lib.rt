// The length of the symbol table, from the GNU table alone.
#![tactic(auto)]

ghost use Rattle.std.specs.Prelude.{◌≡◌, ◌^◌, ◌≤◌, ◌<◌};
ghost use Rattle.std.proofs.Math.Option.{some};
ghost use Rattle.gnu_table.specs.Places.{table_at};
ghost use Rattle.gnu_length.specs.Length.{number_after, length_of, length_answer, gnu_length};
ghost use Rattle.gnu_length.specs.Passes.{highest_of, length_from};

use endian::kinds::{Class, Order};
use endian::refusals::Refusal;
use gnu_table::header::{Layout, header};
use gnu_table::words::word_of;
use word::u32_at;

// The highest value of the buckets, or 0 where there is none.
#[tactic(auto, using(crate::proofs::Lengths::highest_step))]
fn highest_bucket(order: Order, table: &[u8], buckets_at: u32, bucket_count: u32) -> u32
    ensures { result ≡ highest_of order table.now buckets_at bucket_count }
{
    let mut highest: u32 = 0;
    for b in 0..bucket_count {
        highest = highest.max(word_of(order, table, buckets_at, b));
    }
    highest
}

// The number after a symbol's, where that has no more than 32 bits.
fn number_after(symbol: u64) -> Option<u32>
    requires { symbol < 2 ^ 40 }
    ensures { result ≡ length_answer (number_after (some symbol)) }
{
    u32::try_from(symbol + 1).ok()
}

// The number after the first symbol of `start` to `end - 1` whose value has low bit 1.
fn length_from(
    order: Order,
    table: &[u8],
    values_at: u32,
    base: u64,
    start: u64,
    end: u64,
) -> Option<u32>
    requires { (base ≤ start) × (end < 2 ^ 40) }
    ensures { result ≡ length_from order table.now values_at base start end }
{
    for i in start..end {
        let value = u32_at(order, table, values_at as usize + (i - base) as usize * 4);
        if value % 2 == 1 {
            return number_after(i);
        }
    }
    None
}

#[tactic(auto, using(crate::proofs::Lengths::length_base, crate::proofs::Lengths::length_buckets, crate::proofs::Lengths::length_below, crate::proofs::Lengths::length_is))]
fn length_at(class: Class, order: Order, table: &[u8], layout: Layout) -> Option<u32>
    ensures { result ≡ length_answer (length_of (table_at class order table.now layout 0)) }
{
    let base = layout.symbol_base;
    if base == 0 {
        return None;
    }
    let bucket_count = layout.bucket_count;
    if bucket_count == 0 {
        return None;
    }
    let highest = highest_bucket(order, table, layout.buckets_at, bucket_count);
    if highest < base {
        return None;
    }
    let end = base as u64 + layout.value_count as u64;
    length_from(
        order,
        table,
        layout.values_at,
        base as u64,
        highest as u64,
        end,
    )
}

// The number of symbols that the table implies: from the highest bucket value's word to the first
// with low bit 1, and one more. Nothing if symbol_base or bucket_count is 0, the highest is below
// symbol_base, no such word exists, or the length passes 32 bits. Refused as `gnu_table::header::header`.
#[tactic(auto, using(crate::proofs::Lengths::length_by_lem))]
pub fn table_length(class: Class, order: Order, table: &[u8]) -> Result<Option<u32>, Refusal>
    ensures { result ≡ gnu_length class order table.now }
{
    let layout = header(class, order, table)?;
    Ok(length_at(class, order, table, layout))
}
