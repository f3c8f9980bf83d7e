// The first pass: the highest index that the definitions and the needs name.
ghost use Rattle.std.specs.Prelude.{◌≡◌, ◌≤◌, length, Ok};
ghost use Rattle.version_records.specs.Outcome.{folded};
ghost use Rattle.version_records.specs.Walk.{collect};
ghost use Rattle.version_records.specs.Records.{verdefs, verneeds};
ghost use Rattle.version_highest.specs.Highest.{higher_of, def_indices, need_indices, highest_index};

use endian::kinds::Order;
use endian::refusals::Refusal;
use version::index::VersionIndex;
use version_layout::indices::{def_index, need_index};
use version_layout::steps::{Record, is_base};
use version_records::records::{verdef_at, vernaux_at, verneed_at};
use word::u16_at;

#[tactic(auto, unfolding(crate::specs::Highest::higher_of))]
fn higher(high: VersionIndex, index: VersionIndex) -> VersionIndex
    ensures { result ≡ higher_of high index }
{
    VersionIndex(high.0.max(index.0))
}

// The higher of an index and a definition's, which is passed over if it is flagged base.
#[tactic(auto, unfolding(crate::specs::Highest::def_indices))]
fn higher_def(order: Order, s: &[u8], def: Record, high: VersionIndex) -> VersionIndex
    requires { def.at ≤ length s.now }
    ensures { Ok result ≡ folded higher_of high (def_indices order s.now def) }
{
    if is_base(order, s, def) {
        return high;
    }
    higher(high, def_index(order, s, def.at))
}

// The highest index of the definitions.
fn highest_def(order: Order, s: &[u8]) -> Result<VersionIndex, Refusal>
    ensures { result
        ≡ folded higher_of (record { 0 = 0 })
        (collect (def_indices order s.now) (verdefs order s.now 0)) }
{
    let mut high = VersionIndex(0);
    let mut at: usize = 0;
    while at < s.len() {
        let def = verdef_at(order, s, at)?;
        high = higher_def(order, s, def, high);
        at = def.next;
    }
    Ok(high)
}

// The highest index of a need's versions. A record that is its own next repeats until the count
// ends, and names the same index each time.
fn highest_aux(
    order: Order,
    s: &[u8],
    need: Record,
    known: VersionIndex,
) -> Result<VersionIndex, Refusal>
    requires { need.at ≤ length s.now }
    ensures { result ≡ folded higher_of known (need_indices order s.now need) }
{
    let mut high = known;
    let mut at = need.aux;
    for _ in 0..u16_at(order, s, need.at + 2) {
        let aux = vernaux_at(order, s, at)?;
        high = higher(high, need_index(order, s, aux.at));
        if aux.next == at {
            return Ok(high);
        }
        at = aux.next;
    }
    Ok(high)
}

// The highest index of the needs, from one that is known.
fn highest_need(order: Order, s: &[u8], known: VersionIndex) -> Result<VersionIndex, Refusal>
    ensures { result
        ≡ folded higher_of known (collect (need_indices order s.now) (verneeds order s.now 0)) }
{
    let mut high = known;
    let mut at: usize = 0;
    while at < s.len() {
        let need = verneed_at(order, s, at)?;
        high = highest_aux(order, s, need, high)?;
        at = need.next;
    }
    Ok(high)
}

// The first pass: definitions, then needs.
pub fn first_pass(order: Order, verdef: &[u8], verneed: &[u8]) -> Result<VersionIndex, Refusal>
    ensures { result ≡ highest_index order verdef.now verneed.now }
{
    let high = highest_def(order, verdef)?;
    highest_need(order, verneed, high)
}
