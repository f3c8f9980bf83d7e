// The checker: the refusals, then the rules in order.
ghost use Rattle.std.specs.Prelude.{true, ◌≡◌, ℕ, ◌≤◌, ◌<◌};
ghost use Rattle.gnu_check_hashes.specs.Lent.{table_of};
ghost use Rattle.gnu_rules.specs.Rules.{value_is_hash, gnu_check, gnu_table_check};
ghost use Rattle.gnu_check.specs.Verdicts.{Sound, from_names, from_buckets};

use endian::kinds::{Class, Order};
use endian::refusals::{LIMIT, TOO_LONG};
use gnu_check_buckets::lowest_wrong_bucket;
use gnu_check_ends::{longest_chain, lowest_wrong_end};
use gnu_check_hashes::table::Table;
use gnu_check_values::blooms::lowest_unset;
use gnu_check_values::values::lowest_wrong_value;
use gnu_rules::Fault;
use gnu_rules::header_rules::broken_header;
use gnu_table::header::header;
use readable_names::lowest_unreadable;
use symbol::table::{SymbolIndex, symbol_count};

// G9, G10 and the longest chain.
fn check_buckets(table: Table) -> Result<usize, Fault>
    requires { (0 < table.layout.bucket_count)
        × (table.layout.symbol_base ≤ table.count)
        × ((i : ℕ) → table.layout.symbol_base ≤ i → i < table.count → value_is_hash (table_of table) i ≡ true) }
    ensures { result ≡ from_buckets (table_of table.entry) }
{
    if let Some(bucket) = lowest_wrong_bucket(table) {
        return Err(Fault::Broken {
            rule: 9,
            place: bucket,
        });
    }
    if let Some(end) = lowest_wrong_end(table) {
        return Err(Fault::Broken {
            rule: 10,
            place: end.0,
        });
    }
    Ok(longest_chain(table.order, table.bytes, table.layout, table.count))
}

// G6 to G8, then the buckets.
fn check_symbols(table: Table) -> Result<usize, Fault>
    requires { Sound table.layout table.count }
    ensures { result ≡ from_names (table_of table.entry) }
{
    let base = SymbolIndex(table.layout.symbol_base);
    if let Some(unreadable) = lowest_unreadable(
        table.class,
        table.order,
        table.symbols,
        table.strings,
        base,
        table.count,
    ) {
        return Err(Fault::Broken {
            rule: 6,
            place: unreadable.0,
        });
    }
    if let Some(wrong) = lowest_wrong_value(table) {
        return Err(Fault::Broken {
            rule: 7,
            place: wrong.0,
        });
    }
    if let Some(unset) = lowest_unset(table) {
        return Err(Fault::Broken {
            rule: 8,
            place: unset.0,
        });
    }
    check_buckets(table)
}

// The rules in order, of a table with this layout and so many symbols.
fn check_table(table: Table) -> Result<usize, Fault>
    ensures { result ≡ gnu_table_check (table_of table.entry) }
{
    if let Some(rule) = broken_header(table.layout, table.count) {
        return Err(Fault::Broken { rule, place: 0 });
    }
    check_symbols(table)
}

// Whether a table keeps the rules over these symbols and strings: accepted, with the longest chain,
// or the first broken rule with its lowest symbol or bucket, or 0. Refused in this order: a part that
// is too long; as `gnu_table::header::header`. Linear in the table, the symbols and what the names add up to.
pub fn check(
    class: Class,
    order: Order,
    table: &[u8],
    symbols: &[u8],
    strings: &[u8],
) -> Result<usize, Fault>
    ensures { result ≡ gnu_check class order table.now symbols.now strings.now }
{
    if LIMIT < strings.len() {
        return Err(Fault::Refused(TOO_LONG));
    }
    let count = symbol_count(class, symbols)?;
    let layout = header(class, order, table)?;
    check_table(Table {
        class,
        order,
        bytes: table,
        symbols,
        strings,
        layout,
        count,
    })
}
