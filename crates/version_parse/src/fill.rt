// The second pass: the entries of the definitions, then those of the needs. A refusal leaves the
// store half filled.
ghost use Rattle.std.specs.Prelude.{◌≡◌, ◌≤◌, length, Ok};
ghost use Rattle.version_records.specs.Outcome.{folded};
ghost use Rattle.version_records.specs.Walk.{collect};
ghost use Rattle.version_records.specs.Records.{verdefs, verneeds};
ghost use Rattle.version.specs.Store.{put_entry};
ghost use Rattle.version_entries.specs.Entries.{def_entries};
ghost use Rattle.version_entries.specs.EntryAnswers.{entry_outcome};
ghost use Rattle.version_parse.specs.SecondPass.{need_entries, entries};
ghost use Rattle.version_parse.specs.ParseAnswers.{filled_outcome};
ghost use Rattle.version_parse.specs.Room.{All, EntryRoom, DefRoom, NeedRoom};

use super::store::put_entry;
use endian::kinds::Order;
use endian::refusals::Refusal;
use version::store::Stored;
use version_entries::entries::{def_entry, need_entry};
use version_layout::steps::Record;
use version_records::records::{verdef_at, vernaux_at, verneed_at};
use word::{u16_at, u32_at};

// Stores what a record stores.
fn put(stored: Option<Stored>, store: &mut [u32])
    requires { EntryRoom (length store.old) stored }
    ensures { Ok store.new ≡ folded put_entry store.old (entry_outcome (Ok stored)) }
{
    if let Some(stored) = stored {
        put_entry(store, stored);
    }
}

// Stores the versions of the definitions.
fn fill_defs(order: Order, s: &[u8], strings: &[u8], store: &mut [u32]) -> Result<(), Refusal>
    requires { All (DefRoom order s.now (length store.old)) (verdefs order s.now 0) }
    ensures { filled_outcome result store.new
        ≡ folded put_entry store.old
        (collect (def_entries order s.now strings.now) (verdefs order s.now 0)) }
{
    let mut at: usize = 0;
    while at < s.len() {
        let def = verdef_at(order, s, at)?;
        put(def_entry(order, s, strings, def)?, store);
        at = def.next;
    }
    Ok(())
}

// Stores the versions of one need. A record that is its own next repeats until the count ends, and
// stores the same each time.
fn fill_auxs(
    order: Order,
    s: &[u8],
    strings: &[u8],
    need: Record,
    store: &mut [u32],
) -> Result<(), Refusal>
    requires { (need.at ≤ length s.now) × NeedRoom order s.now (length store.old) need }
    ensures { filled_outcome result store.new
        ≡ folded put_entry store.old (need_entries order s.now strings.now need) }
{
    let file = u32_at(order, s, need.at + 4);
    let mut at = need.aux;
    for _ in 0..u16_at(order, s, need.at + 2) {
        let aux = vernaux_at(order, s, at)?;
        put(need_entry(order, s, strings, file, aux)?, store);
        if aux.next == at {
            return Ok(());
        }
        at = aux.next;
    }
    Ok(())
}

// Stores the versions of the needs.
fn fill_needs(order: Order, s: &[u8], strings: &[u8], store: &mut [u32]) -> Result<(), Refusal>
    requires { All (NeedRoom order s.now (length store.old)) (verneeds order s.now 0) }
    ensures { filled_outcome result store.new
        ≡ folded put_entry store.old
        (collect (need_entries order s.now strings.now) (verneeds order s.now 0)) }
{
    let mut at = 0;
    while at < s.len() {
        let need = verneed_at(order, s, at)?;
        fill_auxs(order, s, strings, need, store)?;
        at = need.next;
    }
    Ok(())
}

// The second pass: definitions, then needs.
pub(crate) fn second_pass(
    order: Order,
    verdef: &[u8],
    verneed: &[u8],
    strings: &[u8],
    store: &mut [u32],
) -> Result<(), Refusal>
    requires { All (DefRoom order verdef.now (length store.old)) (verdefs order verdef.now 0)
        × All (NeedRoom order verneed.now (length store.old)) (verneeds order verneed.now 0) }
    ensures { filled_outcome result store.new
        ≡ folded put_entry store.old
        (entries order verdef.now verneed.now strings.now) }
{
    fill_defs(order, verdef, strings, store)?;
    fill_needs(order, verneed, strings, store)
}
