// G9: each bucket holds 0 if it has no symbol, else its lowest, and its symbols are consecutive. One
// pass over the symbols sees their runs in one bucket, and one over the buckets what they hold. In a
// table that keeps G7 they find what breaks G9.
#![tactic(auto)]

ghost use Rattle.std.specs.Prelude.{◌≡◌, cond, eqb, ◌-◌, ◌%◌, ◌<◌, Some};
ghost use Rattle.gnu_check_hashes.specs.Lent.{table_of};
ghost use Rattle.gnu_check_hashes.specs.Names.{hash_in};
ghost use Rattle.lookup.specs.Search.{first_from};
ghost use Rattle.gnu_check_buckets.specs.Runs.{lesser, is_bucket, may_be, stray, least_misplaced, wrong_bucket};

use gnu_check_hashes::hashes::symbol_hash;
use gnu_check_hashes::table::Table;
use gnu_table::words::word_of;
use symbol::table::SymbolIndex;

// The bucket of a symbol.
fn bucket_of(table: Table, symbol: SymbolIndex) -> u32
    requires { 0 < table.layout.bucket_count }
    ensures { (result
        ≡ hash_in table.entry.class table.entry.order table.entry.symbols.now table.entry.strings.now symbol.0
        % table.entry.layout.bucket_count)
        × (result < table.entry.layout.bucket_count) }
{
    let Table {
        class,
        order,
        symbols,
        strings,
        ..
    } = table;
    symbol_hash(class, order, symbols, strings, symbol) % table.layout.bucket_count
}

// The lesser of two numbers, where there are any.
fn lesser(a: Option<u32>, b: Option<u32>) -> Option<u32>
    ensures { result ≡ lesser a b }
{
    match (a, b) {
        (Some(a), Some(b)) => Some(a.min(b)),
        (Some(a), None) => Some(a),
        (None, b) => b,
    }
}

// Where the run of symbol i of bucket b starts: with the run of the symbol before, if that is of the
// same bucket.
fn run_start(last: Option<u32>, b: u32, start: u32, i: u32) -> u32
    ensures { result ≡ cond (is_bucket b last) start i }
{
    match last {
        Some(bucket) => if bucket == b { start } else { i },
        None => i,
    }
}

// The lowest of the wrong buckets so far, with one that holds a number and should hold another.
fn lower_wrong(best: Option<u32>, b: u32, held: u32, right: u32) -> Option<u32>
    ensures { result ≡ cond (eqb held right) best (lesser best (Some b)) }
{
    if held == right {
        best
    } else {
        lesser(best, Some(b))
    }
}

// The lowest bucket of a symbol whose bucket does not hold the start of its run, where there is one.
// `start` is where the current run starts, `last` the bucket of the symbol before.
fn least_misplaced(table: Table) -> Option<u32>
    requires { 0 < table.layout.bucket_count }
    ensures { result
        ≡ least_misplaced (table_of table.entry) table.entry.layout.symbol_base
        (table.entry.count - table.entry.layout.symbol_base) }
{
    let mut best = None;
    let mut start = table.layout.symbol_base;
    let mut last = None;
    for i in table.layout.symbol_base..table.count {
        let b = bucket_of(table, SymbolIndex(i));
        start = run_start(last, b, start, i);
        let held = word_of(table.order, table.bytes, table.layout.buckets_at, b);
        best = lower_wrong(best, b, held, start);
        last = Some(b);
    }
    best
}

// Whether a symbol of this value may be of bucket b: its hash is the value but for the low bit.
fn may_be(value: u32, buckets: u32, b: u32) -> bool
    requires { 0 < buckets }
    ensures { result ≡ may_be value buckets b }
{
    let even = value / 2 * 2;
    even % buckets == b || (even + 1) % buckets == b
}

// Whether a bucket holds neither 0 nor the first symbol of a run of its own, with a value that may be
// of this bucket. A name is hashed only where the value does not rule the bucket out.
fn is_stray(table: Table, b: u32) -> bool
    requires { 0 < table.layout.bucket_count }
    ensures { result ≡ stray (table_of table.entry) b }
{
    let layout = table.layout;
    let v = word_of(table.order, table.bytes, layout.buckets_at, b);
    if v == 0 {
        return false;
    }
    if v < layout.symbol_base {
        return true;
    }
    if table.count <= v {
        return true;
    }
    let value = word_of(
        table.order,
        table.bytes,
        layout.values_at,
        v - layout.symbol_base,
    );
    if !may_be(value, layout.bucket_count, b) {
        return true;
    }
    if bucket_of(table, SymbolIndex(v)) != b {
        return true;
    }
    if v == layout.symbol_base {
        return false;
    }
    bucket_of(table, SymbolIndex(v - 1)) == b
}

// The lowest such bucket, where there is one.
fn lowest_stray(table: Table) -> Option<u32>
    requires { 0 < table.layout.bucket_count }
    ensures { result ≡ first_from (stray (table_of table.entry)) 0 table.entry.layout.bucket_count }
{
    (0..table.layout.bucket_count).find(|b| is_stray(table, *b))
}

// The lowest bucket that is stray, or that a misplaced symbol is in, where there is one. In a table that
// keeps G7 it is the lowest that breaks G9.
pub fn lowest_wrong_bucket(table: Table) -> Option<u32>
    ensures { result ≡ wrong_bucket (table_of table.entry) }
{
    if table.layout.bucket_count == 0 {
        return None;
    }
    lesser(lowest_stray(table), least_misplaced(table))
}
