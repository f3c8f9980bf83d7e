// G7: each hashed symbol's value is its name's hash but for the low bit.
ghost use Rattle.std.specs.Prelude.{not, ◌≡◌, ◌≤◌, option_map};
ghost use Rattle.symbol.specs.Table.{symbol_index};
ghost use Rattle.gnu_check_hashes.specs.Lent.{table_of};
ghost use Rattle.gnu_rules.specs.Rules.{value_is_hash};
ghost use Rattle.lookup.specs.Search.{first_from};

use gnu_check_hashes::hashes::symbol_hash;
use gnu_check_hashes::table::Table;
use gnu_table::words::word_of;
use symbol::table::SymbolIndex;

fn value_is_right(table: Table, symbol: SymbolIndex) -> bool
    requires { table.layout.symbol_base ≤ symbol.0 }
    ensures { result ≡ value_is_hash (table_of table.entry) symbol.0 }
{
    let value = word_of(
        table.order,
        table.bytes,
        table.layout.values_at,
        symbol.0 - table.layout.symbol_base,
    );
    let Table {
        class,
        order,
        symbols,
        strings,
        ..
    } = table;
    value / 2 == symbol_hash(class, order, symbols, strings, symbol) / 2
}

// The lowest hashed symbol whose value is wrong, where there is one.
pub fn lowest_wrong_value(table: Table) -> Option<SymbolIndex>
    ensures { result
        ≡ option_map symbol_index
        (first_from (λ i. not (value_is_hash (table_of table.entry) i)) table.entry.layout.symbol_base
        table.entry.count) }
{
    (table.layout.symbol_base..table.count)
        .find(|i| !value_is_right(table, SymbolIndex(*i)))
        .map(SymbolIndex)
}
