// G8: both bloom bits of each hashed symbol are set.
ghost use Rattle.std.specs.Prelude.{not, ◌≡◌, option_map};
ghost use Rattle.symbol.specs.Table.{symbol_index};
ghost use Rattle.gnu_check_hashes.specs.Lent.{table_of};
ghost use Rattle.lookup.specs.Search.{first_from};
ghost use Rattle.gnu_check_values.specs.Blooms.{hash_passes};

use gnu_check_hashes::hashes::symbol_hash;
use gnu_check_hashes::table::Table;
use gnu_table::filter::bloom_filter;
use symbol::table::SymbolIndex;

fn has_bits(table: Table, symbol: SymbolIndex) -> bool
    ensures { result ≡ hash_passes (table_of table.entry) symbol.0 }
{
    let Table {
        class,
        order,
        symbols,
        strings,
        ..
    } = table;
    let hash = symbol_hash(class, order, symbols, strings, symbol);
    bloom_filter(table.class, table.order, table.bytes, table.layout, hash).unwrap_or(false)
}

// The lowest hashed symbol whose hash the bloom filter does not let pass, where there is one.
pub fn lowest_unset(table: Table) -> Option<SymbolIndex>
    ensures { result
        ≡ option_map symbol_index
        (first_from (λ i. not (hash_passes (table_of table.entry) i)) table.entry.layout.symbol_base
        table.entry.count) }
{
    (table.layout.symbol_base..table.count)
        .find(|i| !has_bits(table, SymbolIndex(*i)))
        .map(SymbolIndex)
}
