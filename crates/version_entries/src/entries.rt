// What a record of the version sections stores: the version of a definition or of a need, at its index.
ghost use Rattle.std.specs.Prelude.{◌≡◌, ◌≤◌, length};
ghost use Rattle.version_entries.specs.Entries.{part_at, def_version, passed_over, def_entries, need_version, aux_entries};
ghost use Rattle.version_entries.specs.EntryAnswers.{entry_step};

use endian::kinds::Order;
use endian::refusals::{BAD_VERDAUX_NAME, BAD_VERNAUX_NAME, BAD_VERNEED_FILE, Refusal};
use strings::string_at;
use version::store::{DEFINITION, NEED, Part, Stored, Version};
use version_layout::indices::{def_index, need_index};
use version_layout::steps::{Aux, Record, is_base};
use version_records::records::verdaux_at;
use word::{u16_at, u32_at};

// The string at an offset, with the refusal where there is none.
#[tactic(auto, using(strings::proofs::Inside::string_inside), unfolding(crate::specs::Entries::part_at))]
fn part_at(strings: &[u8], offset: u32, refusal: Refusal) -> Result<Part, Refusal>
    ensures { result ≡ part_at refusal strings.now offset }
{
    match string_at(strings, offset) {
        Ok(place) => Ok(Part {
            start: place.start as u32,
            len: place.len as u32,
        }),
        Err(_) => Err(refusal),
    }
}

// The version of a definition: its first aux, then the name.
#[tactic(auto, unfolding(crate::specs::Entries::def_version))]
fn def_version(order: Order, s: &[u8], strings: &[u8], def: Record) -> Result<Version, Refusal>
    requires { def.at ≤ length s.now }
    ensures { result ≡ def_version order s.now strings.now def }
{
    let aux = verdaux_at(order, s, def.aux)?;
    let name = part_at(strings, u32_at(order, s, aux.at), BAD_VERDAUX_NAME)?;
    Ok(Version {
        kind: DEFINITION,
        hash: u32_at(order, s, def.at + 8),
        name,
        file: Part { start: 0, len: 0 },
    })
}

// The version of a need: its name, then the file.
#[tactic(auto, unfolding(crate::specs::Entries::need_version))]
fn need_version(
    order: Order,
    s: &[u8],
    strings: &[u8],
    file: u32,
    aux: Aux,
) -> Result<Version, Refusal>
    requires { aux.at ≤ length s.now }
    ensures { result ≡ need_version order s.now strings.now file aux }
{
    let name = part_at(strings, u32_at(order, s, aux.at + 8), BAD_VERNAUX_NAME)?;
    let file = part_at(strings, file, BAD_VERNEED_FILE)?;
    Ok(Version {
        kind: NEED,
        hash: u32_at(order, s, aux.at),
        name,
        file,
    })
}

// Whether a definition stores nothing: it is flagged base, its index is special, as it is past the end,
// or it has no aux.
#[tactic(auto, using(crate::proofs::Entered::def_past))]
fn passed_over(order: Order, s: &[u8], def: Record) -> bool
    ensures { result ≡ passed_over order s.now def }
{
    s.len() < def.at
        || is_base(order, s, def)
        || def_index(order, s, def.at).is_special()
        || u16_at(order, s, def.at + 6) == 0
}

// What a definition stores: nothing if it is passed over. Past the end its index is 0, which is special.
#[tactic(auto, using(crate::proofs::Entered::def_inside))]
pub fn def_entry(
    order: Order,
    s: &[u8],
    strings: &[u8],
    def: Record,
) -> Result<Option<Stored>, Refusal>
    ensures { result ≡ entry_step (def_entries order s.now strings.now def) }
{
    if passed_over(order, s, def) {
        return Ok(None);
    }
    let version = def_version(order, s, strings, def)?;
    Ok(Some(Stored {
        index: def_index(order, s, def.at),
        version,
    }))
}

// What a needed version stores: nothing if its index is special, as it is past the end.
#[tactic(auto, using(crate::proofs::Entered::need_inside))]
pub fn need_entry(
    order: Order,
    s: &[u8],
    strings: &[u8],
    file: u32,
    aux: Aux,
) -> Result<Option<Stored>, Refusal>
    ensures { result ≡ entry_step (aux_entries order s.now strings.now file aux) }
{
    let index = need_index(order, s, aux.at);
    if index.is_special() {
        return Ok(None);
    }
    let version = need_version(order, s, strings, file, aux)?;
    Ok(Some(Stored { index, version }))
}
