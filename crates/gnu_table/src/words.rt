// The words of a table.
ghost use Rattle.std.specs.Prelude.{◌≡◌, ◌+◌, ◌*◌};
ghost use Rattle.endian.specs.Word.{word_at};

use endian::kinds::Order;
use word::u32_at;

// Word i of those from a place on: a bucket, or a value.
pub fn word_of(order: Order, table: &[u8], start: u32, i: u32) -> u32
    ensures { result ≡ word_at order 4 table.now (start + i * 4) }
{
    u32_at(order, table, start as usize + i as usize * 4)
}
