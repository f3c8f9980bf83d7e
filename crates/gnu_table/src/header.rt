// The header of a GNU table, and where the table's parts stand in its bytes.
ghost use Rattle.std.specs.Prelude.{◌≡◌, ◌≤◌, ◌<◌};
ghost use Rattle.gnu_table.specs.Header.{word_size, gnu_header};

use endian::kinds::{Class, Order};
use endian::refusals::{BAD_GNU_BLOOM, BAD_GNU_BUCKETS, BAD_GNU_HEADER, LIMIT, Refusal, TOO_LONG};
use word::u32_at;

// The header's four numbers; then the places of the buckets and of the values, and how many values
// there are.
#[derive(Clone, Copy, Debug, PartialEq, Eq)]
pub struct Layout {
    pub bucket_count: u32,
    pub symbol_base: u32,
    pub bloom_count: u32,
    pub bloom_shift: u32,
    pub buckets_at: u32,
    pub values_at: u32,
    pub value_count: u32,
}

// The bytes of a bloom word.
pub(crate) fn word_size(class: Class) -> usize
    ensures { (result ≡ word_size class) × (0 < result) × (result ≤ 8) }
{
    match class {
        Class::Elf32 => 4,
        Class::Elf64 => 8,
    }
}

// The header and the places. Refused in this order: a table that is too long; one whose header,
// bloom words or buckets are not whole.
#[tactic(auto, using(crate::proofs::Headers::header_long, crate::proofs::Headers::header_short, crate::proofs::Headers::header_bloom, crate::proofs::Headers::header_buckets, crate::proofs::Headers::header_is))]
pub fn header(class: Class, order: Order, table: &[u8]) -> Result<Layout, Refusal>
    ensures { result ≡ gnu_header class order table.now }
{
    if LIMIT < table.len() {
        return Err(TOO_LONG);
    }
    if table.len() < 16 {
        return Err(BAD_GNU_HEADER);
    }
    let bucket_count = u32_at(order, table, 0);
    let bloom_count = u32_at(order, table, 8);
    let buckets_at = 16 + bloom_count as usize * word_size(class);
    if table.len() < buckets_at {
        return Err(BAD_GNU_BLOOM);
    }
    let values_at = buckets_at + bucket_count as usize * 4;
    if table.len() < values_at {
        return Err(BAD_GNU_BUCKETS);
    }
    Ok(Layout {
        bucket_count,
        symbol_base: u32_at(order, table, 4),
        bloom_count,
        bloom_shift: u32_at(order, table, 12),
        buckets_at: buckets_at as u32,
        values_at: values_at as u32,
        value_count: ((table.len() - values_at) / 4) as u32,
    })
}
