// A version table: versyms, the store, and the versions' strings. What stands behind an index, and
// the version of a symbol.
ghost use Rattle.std.specs.Prelude.{◌≡◌, ◌≤◌, length};
ghost use Rattle.version.specs.Store.{store_needs};
ghost use Rattle.version.specs.Table.{stored_at, inside, valid, entry_at, versym_at};

use super::index::VersionIndex;
use super::store::{DEFINITION, ENTRY, NEED, Part, Version};
use endian::kinds::Order;
use endian::refusals::{BAD_VERSION_INDEX, LIMIT, Refusal, TOO_LONG};
use symbol::table::SymbolIndex;
use word::u16_at;

// What a symbol's versym says: the low 15 bits, and the top bit.
#[derive(Clone, Copy, Debug, PartialEq, Eq)]
pub struct Versym {
    pub index: VersionIndex,
    pub hidden: bool,
}

// The version that stands at an index. A definition has no file, whatever the store holds.
#[tactic(auto, unfolding(crate::specs::Table::stored_at))]
fn stored_at(store: &[u32], index: VersionIndex) -> Version
    requires { store_needs index ≤ length store.now }
    ensures { result ≡ stored_at store.now index }
{
    let at = index.0 as usize * ENTRY;
    Version {
        kind: store[at],
        hash: store[at + 1],
        name: Part {
            start: store[at + 2],
            len: store[at + 3],
        },
        file: if store[at] == NEED {
            Part {
                start: store[at + 4],
                len: store[at + 5],
            }
        } else {
            Part { start: 0, len: 0 }
        },
    }
}

fn is_inside(strings: &[u8], part: Part) -> bool
    ensures { result ≡ inside strings.now part }
{
    part.start as usize + part.len as usize <= strings.len()
}

#[tactic(auto, unfolding(crate::specs::Table::valid))]
fn is_valid(strings: &[u8], version: Version) -> bool
    ensures { result ≡ valid strings.now version }
{
    match version.kind {
        DEFINITION => is_inside(strings, version.name),
        NEED => is_inside(strings, version.name) && is_inside(strings, version.file),
        _ => false,
    }
}

// The version behind an index. The store may hold anything. Refused first: strings that are too long.
// Then 0 and 1 are special, and none stands behind them. Then refused: an index past the whole entries,
// or an entry of another kind, or one whose name or (of a need) file lies outside the strings.
#[tactic(auto, unfolding(crate::specs::Table::entry_at))]
pub fn entry(store: &[u32], strings: &[u8], index: VersionIndex) -> Result<Option<Version>, Refusal>
    ensures { result ≡ entry_at store.now strings.now index }
{
    if LIMIT < strings.len() {
        return Err(TOO_LONG);
    }
    if index.is_special() {
        return Ok(None);
    }
    if store.len() < (index.0 as usize + 1) * ENTRY {
        return Err(BAD_VERSION_INDEX);
    }
    let version = stored_at(store, index);
    if is_valid(strings, version) {
        return Ok(Some(version));
    }
    Err(BAD_VERSION_INDEX)
}

// The version of a symbol: its versym, or 1 where there is none. Refused: versyms that are too long.
#[tactic(auto, unfolding(crate::specs::Table::versym_at))]
pub fn version_of(order: Order, versyms: &[u8], symbol: SymbolIndex) -> Result<Versym, Refusal>
    ensures { result ≡ versym_at order versyms.now symbol }
{
    if LIMIT < versyms.len() {
        return Err(TOO_LONG);
    }
    let number = symbol.0 as usize;
    if versyms.len() < (number + 1) * 2 {
        return Ok(Versym {
            index: VersionIndex(1),
            hidden: false,
        });
    }
    let versym = u16_at(order, versyms, number * 2);
    Ok(Versym {
        index: VersionIndex(versym % 0x8000),
        hidden: 0x8000 <= versym,
    })
}
