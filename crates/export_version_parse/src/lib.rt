// Versions parsed into the lent store, for C.
#![tactic(auto)]

ghost use Rattle.std.specs.Prelude.{◌≡◌, length};
ghost use Rattle.version_parse.specs.Parse.{answer_of, store_after};
ghost use Rattle.export_version_parse.specs.Answers.{parsed_answer, parsed_by};

use export::answers::{NumberAnswer, no_number, number_answer};
use export::kinds::known_order;
use version_parse::store::zero;

// Parses the definitions and the needs into the store, and answers the highest index. Refused in this
// order: a part that is too long; a number that is no order; as `parse`. The store is settled to its end,
// all 0 after a refusal.
#[unsafe(no_mangle)]
pub extern "C" fn fetulombo_versions_parse(
    order: u8,
    verdef: &[u8],
    verneed: &[u8],
    strings: &[u8],
    store: &mut [u32],
) -> NumberAnswer
    ensures answer { result
        ≡ parsed_answer (answer_of (parsed_by order verdef.now verneed.now strings.now
        (length store.old))) }
    ensures after { store.new
        ≡ store_after (length store.old)
        (parsed_by order verdef.now verneed.now strings.now (length store.old)) }
{
    let order = match known_order(order, &[verdef, verneed, strings]) {
        Ok(order) => order,
        Err(refusal) => {
            zero(store);
            return no_number(refusal);
        }
    };
    match version_parse::parse::parse(order, verdef, verneed, strings, store) {
        Ok(index) => number_answer(index.0 as u64),
        Err(refusal) => no_number(refusal),
    }
}
