// Where the walk of a hash starts.
ghost use Rattle.std.specs.Prelude.{◌≡◌};
ghost use Rattle.gnu_table.specs.Places.{table_at};
ghost use Rattle.gnu.specs.Lookup.{start_of};
ghost use Rattle.gnu.specs.Start.{start_answer};

use endian::kinds::{Class, Order};
use gnu_table::header::Layout;
use gnu_table::words::word_of;

// The symbol number that the hash's bucket holds, or none where there is no bucket, or its value is 0,
// past the symbols, below symbol_base or past the values.
#[tactic(auto, using(crate::proofs::Lookups::start_none, crate::proofs::Lookups::start_past, crate::proofs::Lookups::start_below, crate::proofs::Lookups::start_values, crate::proofs::Lookups::start_is, crate::proofs::Starts::answer_none, crate::proofs::Starts::answer_some))]
pub(crate) fn start_of(
    class: Class,
    order: Order,
    table: &[u8],
    layout: Layout,
    count: u32,
    hash: u32,
) -> Option<u32>
    ensures { result ≡ start_answer (start_of (table_at class order table.now layout count) hash) }
{
    let bucket_count = layout.bucket_count;
    if bucket_count == 0 {
        return None;
    }
    let start = word_of(order, table, layout.buckets_at, hash % bucket_count);
    if start == 0 {
        return None;
    }
    if count < start {
        return None;
    }
    if start < layout.symbol_base {
        return None;
    }
    if layout.value_count < start - layout.symbol_base {
        return None;
    }
    Some(start)
}
