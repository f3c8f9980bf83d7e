// The bloom filter of a GNU table.
ghost use Rattle.std.specs.Prelude.{◌≡◌, ◌<◌};
ghost use Rattle.endian.specs.Word.{word_at};
ghost use Rattle.gnu_table.specs.Table.{bit, bloom_filter};
ghost use Rattle.gnu_table.specs.Header.{word_size};
ghost use Rattle.gnu_table.specs.Places.{table_at, bloom_word_at};

use super::header::{Layout, word_size};
use endian::kinds::{Class, Order};
use endian::refusals::{BAD_BLOOM_SHIFT, Refusal};
use word::{u32_at, u64_at};

fn has_bit(word: u64, k: u32) -> bool
    requires { k < 64 }
    ensures { result ≡ bit word k }
{
    (word >> k) % 2 == 1
}

// The bloom word at a place in the bytes.
fn word_at(class: Class, order: Order, table: &[u8], at: usize) -> u64
    ensures { result ≡ word_at order (word_size class) table.now at }
{
    match class {
        Class::Elf32 => u32_at(order, table, at) as u64,
        Class::Elf64 => u64_at(order, table, at),
    }
}

// The bloom word of a hash.
fn bloom_word(class: Class, order: Order, table: &[u8], bloom_count: u32, hash: u32) -> u64
    requires { 0 < bloom_count }
    ensures { result ≡ bloom_word_at class order table.now bloom_count hash }
{
    let size = word_size(class);
    let place = (hash as usize / (size * 8)) & (bloom_count as usize - 1);
    word_at(class, order, table, 16 + place * size)
}

// Whether the bloom filter lets a hash pass. Refused: a shift above 31, where the second bit is reached.
#[tactic(auto, using(crate::proofs::Filters::filter_none, crate::proofs::Filters::filter_first, crate::proofs::Filters::filter_shift, crate::proofs::Filters::filter_is), unfolding(crate::specs::Table::bloom_first, crate::specs::Table::bloom_second))]
pub fn bloom_filter(
    class: Class,
    order: Order,
    table: &[u8],
    layout: Layout,
    hash: u32,
) -> Result<bool, Refusal>
    ensures { result ≡ bloom_filter (table_at class order table.now layout 0) hash }
{
    let bloom_count = layout.bloom_count;
    let shift = layout.bloom_shift;
    if bloom_count == 0 {
        return Ok(false);
    }
    let width = (word_size(class) * 8) as u32;
    let word = bloom_word(class, order, table, bloom_count, hash);
    if !has_bit(word, hash % width) {
        return Ok(false);
    }
    if 31 < shift {
        return Err(BAD_BLOOM_SHIFT);
    }
    Ok(has_bit(word, (hash >> shift) % width))
}
