// Version parsing as a whole: the one function that writes to lent memory.
ghost use Rattle.std.specs.Prelude.{◌≡◌, length};
ghost use Rattle.version_parse.specs.Parse.{parsed_into, parsed, answer_of, store_after};
ghost use Rattle.version_parse.specs.ParseAnswers.{parsed_outcome};

use super::fill::second_pass;
use super::store::zero;
use endian::kinds::Order;
use endian::refusals::{Refusal, STORE_TOO_SMALL, TOO_LONG, any_long};
use version::index::VersionIndex;
use version::store::ENTRY;
use version_highest::highest::first_pass;

// Both passes, over a store of zeros. A refusal leaves it half filled.
fn attempt(
    order: Order,
    verdef: &[u8],
    verneed: &[u8],
    strings: &[u8],
    store: &mut [u32],
) -> Result<VersionIndex, Refusal>
    ensures { parsed_outcome result store.new
        ≡ parsed_into order verdef.now verneed.now strings.now store.old }
{
    if any_long(&[verdef, verneed, strings]) {
        return Err(TOO_LONG);
    }
    let high = first_pass(order, verdef, verneed)?;
    if store.len() < (high.0 as usize + 1) * ENTRY {
        return Err(STORE_TOO_SMALL);
    }
    second_pass(order, verdef, verneed, strings, store)?;
    Ok(high)
}

// Parses the definitions and the needs into the store: the numbers of each version at its index, and 0
// in every other number. Answers the highest index of the version sections, which the store then has
// room for. An absent section is an empty one. Refused in this order: a section or strings that are too
// long; what the first pass refuses; a store with no room for the highest index; what the second pass
// refuses. After a refusal the whole store is 0.
pub fn parse(
    order: Order,
    verdef: &[u8],
    verneed: &[u8],
    strings: &[u8],
    store: &mut [u32],
) -> Result<VersionIndex, Refusal>
    ensures answer { result
        ≡ answer_of
        (parsed order verdef.now verneed.now strings.now (length store.old)) }
    ensures after { store.new
        ≡ store_after (length store.old)
        (parsed order verdef.now verneed.now strings.now (length store.old)) }
{
    zero(store);
    let parsed = attempt(order, verdef, verneed, strings, store);
    if parsed.is_err() {
        zero(store);
    }
    parsed
}
