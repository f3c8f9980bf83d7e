// The checker: its refusals, then its rules in order.
ghost use Rattle.std.specs.Prelude.{◌≡◌};
ghost use Rattle.symbol.specs.Table.{symbols_in};
ghost use Rattle.sysv_header.specs.Header.{bucket_count_of, chain_count_of};
ghost use Rattle.sysv.specs.Layout.{sysv_table_of};
ghost use Rattle.sysv_check.specs.Rules.{t1, sysv_table_check};
ghost use Rattle.sysv_check.specs.Check.{sysv_check};
ghost use Rattle.sysv_check.specs.declared.table.Fault.TheVariants.{Refused};

use endian::kinds::{Class, Order};
use endian::refusals::{LIMIT, Refusal, TOO_LONG};
use readable_names::lowest_unreadable;
use symbol::table::{SymbolIndex, symbol_count};
use sysv_check_chains::chains::{Chains, chains_hold};
use sysv_header::header::header_of;

// The first symbol that must be found.
const FIRST_GLOBAL: u32 = 1;

// The first broken rule, by its number in document 01, or a refusal.
#[derive(Clone, Copy, Debug, PartialEq, Eq)]
pub enum Fault {
    Broken(u8),
    Refused(Refusal),
}

impl From<Refusal> for Fault {
    ghost from_gives = { λ r e. e ≡ Refused r };

    fn from(refusal: Refusal) -> Fault {
        Fault::Refused(refusal)
    }
}

// T1.
fn has_shape(buckets: u32, chains: u32, count: u32, low: u32) -> bool
    ensures { result ≡ t1 buckets chains count low }
{
    1 <= low && low <= count && chains == count && 1 <= buckets
}

// The rules in order, for a table of so many chains.
fn check_rules(chains: Chains, chain_count: u32) -> Result<(), Fault>
    requires { (chains.buckets ≡ bucket_count_of chains.order chains.table.now)
        × (chain_count ≡ chain_count_of chains.order chains.table.now)
        × (chains.count ≡ symbols_in chains.class chains.symbols.now) }
    ensures { result
        ≡ sysv_table_check (sysv_table_of chains.entry.class chains.entry.order chains.entry.table.now
        chains.entry.symbols.now chains.entry.strings.now) chains.entry.first.0 }
{
    let Chains {
        class,
        order,
        symbols,
        strings,
        buckets,
        count,
        first,
        ..
    } = chains;
    if !has_shape(buckets, chain_count, count, first.0) {
        return Err(Fault::Broken(1));
    }
    if lowest_unreadable(class, order, symbols, strings, first, count).is_some() {
        return Err(Fault::Broken(2));
    }
    if !chains_hold(chains, count - first.0) {
        return Err(Fault::Broken(3));
    }
    Ok(())
}

// Whether a table keeps the rules over these symbols and strings: accepted, or the first broken rule.
// Refused in this order: a part that is too long; as `header_of`.
pub fn check(
    class: Class,
    order: Order,
    table: &[u8],
    symbols: &[u8],
    strings: &[u8],
) -> Result<(), Fault>
    ensures { result ≡ sysv_check class order table.now symbols.now strings.now }
{
    if LIMIT < strings.len() {
        return Err(Fault::Refused(TOO_LONG));
    }
    let count = symbol_count(class, symbols)?;
    let header = header_of(order, table)?;
    let chains = Chains {
        class,
        order,
        table,
        symbols,
        strings,
        buckets: header.bucket_count,
        count,
        first: SymbolIndex(FIRST_GLOBAL),
    };
    check_rules(chains, header.chain_count)
}
