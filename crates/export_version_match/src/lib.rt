// The match of a version, for C.
#![tactic(auto)]

ghost use Rattle.std.specs.Prelude.{◌≡◌};
ghost use Rattle.symbol.specs.Table.{symbol_index};
ghost use Rattle.export_version_match.specs.Answers.{need_of, match_answer};

use endian::refusals::{TOO_LONG, any_long};
use export::answers::{NumberAnswer, no_number, truth_answer};
use export::kinds::known_order;
use symbol::table::SymbolIndex;
use version_match::{Need, matches};

// Which version is needed, as C passes it: any where needed is 0.
pub fn need_of(needed: u8, hash: u32) -> Need
    ensures { result ≡ need_of needed hash }
{
    match needed {
        0 => Need::Any,
        _ => Need::Hash(hash),
    }
}

// Whether the version of a symbol is the one that is needed. Refused in this order: versyms, strings or
// a name that is too long; a number that is no order.
pub fn fetulombo_version_matches(
    order: u8,
    versyms: &[u8],
    store: &[u32],
    strings: &[u8],
    symbol: u32,
    needed: u8,
    hash: u32,
    name: &[u8],
) -> NumberAnswer
    ensures { result
        ≡ match_answer order versyms.now store.now strings.now (symbol_index symbol)
        (need_of needed hash) name.now }
{
    let order = match known_order(order, &[versyms, strings, name]) {
        Ok(order) => order,
        Err(refusal) => return no_number(refusal),
    };
    if any_long(&[versyms, strings, name]) {
        return no_number(TOO_LONG);
    }
    truth_answer(matches(
        order,
        versyms,
        store,
        strings,
        SymbolIndex(symbol),
        need_of(needed, hash),
        name,
    ))
}
