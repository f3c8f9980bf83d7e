// The match of a version, as a function of the archive: `export_version_match` is a library, which other
// crates use, and a crate is a library or an object of the archive.
#![tactic(auto)]

ghost use Rattle.std.specs.Prelude.{◌≡◌};
ghost use Rattle.symbol.specs.Table.{symbol_index};
ghost use Rattle.export_version_match.specs.Answers.{need_of, match_answer};

use export::answers::NumberAnswer;

#[unsafe(no_mangle)]
pub extern "C" fn fetulombo_version_matches(
    order: u8,
    versyms: &[u8],
    store: &[u32],
    strings: &[u8],
    symbol: u32,
    needed: u8,
    hash: u32,
    name: &[u8],
) -> NumberAnswer
    ensures { result
        ≡ match_answer order versyms.now store.now strings.now (symbol_index symbol)
        (need_of needed hash) name.now }
{
    export_version_match::fetulombo_version_matches(
        order, versyms, store, strings, symbol, needed, hash, name,
    )
}
