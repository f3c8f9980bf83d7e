// G10: low bit 1 exactly at a bucket's last symbol, which after G9 is the last of its run; and the
// longest chain, by these bits.
#![tactic(auto)]

ghost use Rattle.std.specs.Prelude.{cond, ◌≡◌, ◌+◌, ◌*◌, ◌≤◌, ◌<◌, option_map};
ghost use Rattle.endian.specs.Word.{word_at};
ghost use Rattle.symbol.specs.Table.{symbol_index};
ghost use Rattle.gnu_table.specs.Table.{odd};
ghost use Rattle.gnu_check_hashes.specs.Lent.{table_of};
ghost use Rattle.gnu_check_ends.specs.Ends.{last_in, ends_run, wrong_end, longest_chain};

use endian::kinds::Order;
use gnu_check_hashes::hashes::symbol_hash;
use gnu_check_hashes::table::Table;
use gnu_table::header::Layout;
use gnu_table::words::word_of;
use symbol::table::SymbolIndex;

// Whether the next symbol is of another bucket, or there is none.
fn is_last(table: Table, symbol: SymbolIndex) -> bool
    requires { (0 < table.layout.bucket_count) × (symbol.0 < table.count) }
    ensures { result
        ≡ last_in table.entry.class table.entry.order table.entry.symbols.now table.entry.strings.now
        table.entry.layout.bucket_count table.entry.count symbol.0 }
{
    let next = symbol.0 + 1;
    if next == table.count {
        return true;
    }
    let buckets = table.layout.bucket_count;
    let Table {
        class,
        order,
        symbols,
        strings,
        ..
    } = table;
    let b = symbol_hash(class, order, symbols, strings, symbol) % buckets;
    symbol_hash(class, order, symbols, strings, SymbolIndex(next)) % buckets != b
}

fn ends_right(table: Table, symbol: SymbolIndex) -> bool
    requires { (0 < table.layout.bucket_count) × (table.layout.symbol_base ≤ symbol.0) × (symbol.0 < table.count) }
    ensures { result ≡ ends_run (table_of table.entry) symbol.0 }
{
    let value = word_of(
        table.order,
        table.bytes,
        table.layout.values_at,
        symbol.0 - table.layout.symbol_base,
    );
    let ends = value % 2 == 1;
    ends == is_last(table, symbol)
}

// The lowest hashed symbol whose low bit is not 1 exactly if it is the last of its run, where there is
// one; none without buckets. In a table that keeps G9 it is the lowest that breaks G10.
pub fn lowest_wrong_end(table: Table) -> Option<SymbolIndex>
    ensures { result ≡ option_map symbol_index (wrong_end (table_of table.entry)) }
{
    if table.layout.bucket_count == 0 {
        return None;
    }
    (table.layout.symbol_base..table.count)
        .find(|i| !ends_right(table, SymbolIndex(*i)))
        .map(SymbolIndex)
}

// Where the chain of the next symbol starts: there, if the low bit of the value before it is 1.
fn chain_start(value: u32, start: u32, next: u32) -> u32
    ensures { result ≡ cond (odd value) next start }
{
    if value % 2 == 1 { next } else { start }
}

// The longest chain, by the low bits, or 0. `start` is where the current chain starts.
pub fn longest_chain(order: Order, table: &[u8], layout: Layout, count: u32) -> usize
    ensures { result
        ≡ longest_chain layout.symbol_base
        (λ k. word_at order 4 table.now (layout.values_at + k * 4))
        count }
{
    let base = layout.symbol_base;
    let mut longest: u32 = 0;
    let mut start = base;
    for i in base..count {
        let value = word_of(order, table, layout.values_at, i - base);
        let next = i + 1;
        longest = longest.max(next - start);
        start = chain_start(value, start, next);
    }
    longest as usize
}
