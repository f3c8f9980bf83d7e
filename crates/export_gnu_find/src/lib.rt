// The lookup in a GNU table, for C. Refused in this order: a part or a name that is too long; a number
// that is no class or no order; as `gnu::find`.
#![tactic(auto)]

ghost use Rattle.std.specs.Prelude.{◌≡◌};
ghost use Rattle.export_version_match.specs.Answers.{need_of};
ghost use Rattle.export_gnu_find.specs.Answers.{gnu_answer};

use export::kinds::{are_kinds, class_of, order_of};
use export::lookups::{LookupAnswer, lookup_answer, unknown_lookup};
use export_version_match::need_of;
use gnu::find::find;
use lookup::{Asked, Parts};

// The symbol of a name and a version in a GNU table.
#[unsafe(no_mangle)]
pub extern "C" fn fetulombo_gnu_find(
    class: u8,
    order: u8,
    table: &[u8],
    symbols: &[u8],
    strings: &[u8],
    versyms: &[u8],
    store: &[u32],
    version_strings: &[u8],
    name: &[u8],
    hash: u32,
    needed: u8,
    need_hash: u32,
    need_name: &[u8],
) -> LookupAnswer
    ensures { result
        ≡ gnu_answer class order
        (record {
          table = table.entry.now;
          symbols = symbols.now;
          strings = strings.now;
          versyms = versyms.now;
          store = store.now;
          version_strings = version_strings.now;
        })
        (record {
          name = name.entry.now;
          need = need_of needed need_hash;
          need_name = need_name.now;
        })
        hash }
{
    let parts = Parts {
        table,
        symbols,
        strings,
        versyms,
        store,
        version_strings,
    };
    let asked = Asked {
        name,
        need: need_of(needed, need_hash),
        need_name,
    };
    if !are_kinds(class, order) {
        return unknown_lookup(parts, asked);
    }
    lookup_answer(find(class_of(class), order_of(order), parts, asked, hash))
}
