// Versions, for C.
#![tactic(auto)]

ghost use Rattle.std.specs.Prelude.{◌≡◌};
ghost use Rattle.version.specs.Table.{entry_at};
ghost use Rattle.export_versions.specs.Answers.{version_index, no_version, version_answer, versym_answer, version_of_answer};

use endian::refusals::Refusal;
use export::kinds::known_order;
use symbol::table::SymbolIndex;
use version::index::VersionIndex;
use version::store::Version;
use version::table::{Versym, entry, version_of};

// What stands behind a version index: special is 1 for the indices 0 and 1, which name no version.
#[repr(C)]
#[derive(Clone, Copy)]
pub struct VersionAnswer {
    pub refusal: u32,
    pub special: u32,
    pub kind: u32,
    pub hash: u32,
    pub name: u32,
    pub name_length: u32,
    pub file: u32,
    pub file_length: u32,
}

// What a symbol's versym says; hidden is 0 or 1.
#[repr(C)]
#[derive(Clone, Copy)]
pub struct VersymAnswer {
    pub refusal: u64,
    pub index: u64,
    pub hidden: u64,
}

pub(crate) fn no_version(refusal: u32, special: u32) -> VersionAnswer
    ensures { result ≡ no_version refusal special }
{
    VersionAnswer {
        refusal,
        special,
        kind: 0,
        hash: 0,
        name: 0,
        name_length: 0,
        file: 0,
        file_length: 0,
    }
}

pub(crate) fn version_answer(found: Result<Option<Version>, Refusal>) -> VersionAnswer
    ensures { result ≡ version_answer found }
{
    match found {
        Ok(None) => no_version(0, 1),
        Ok(Some(version)) => VersionAnswer {
            refusal: 0,
            special: 0,
            kind: version.kind,
            hash: version.hash,
            name: version.name.start,
            name_length: version.name.len,
            file: version.file.start,
            file_length: version.file.len,
        },
        Err(refusal) => no_version(refusal.0, 0),
    }
}

// The version behind an index.
#[unsafe(no_mangle)]
pub extern "C" fn fetulombo_version_entry(
    store: &[u32],
    strings: &[u8],
    index: u16,
) -> VersionAnswer
    ensures { result ≡ version_answer (entry_at store.now strings.now (version_index index)) }
{
    version_answer(entry(store, strings, VersionIndex(index)))
}

fn versym_answer(found: Result<Versym, Refusal>) -> VersymAnswer
    ensures { result ≡ versym_answer found }
{
    match found {
        Ok(versym) => VersymAnswer {
            refusal: 0,
            index: versym.index.0 as u64,
            hidden: versym.hidden as u64,
        },
        Err(refusal) => VersymAnswer {
            refusal: refusal.0 as u64,
            index: 0,
            hidden: 0,
        },
    }
}

// The version of a symbol. Refused in this order: versyms that are too long; a number that is no order;
// as `version::table::version_of`.
#[unsafe(no_mangle)]
pub extern "C" fn fetulombo_version_of(order: u8, versyms: &[u8], symbol: u32) -> VersymAnswer
    ensures { result ≡ version_of_answer order versyms.now symbol }
{
    let symbol = SymbolIndex(symbol);
    let found = known_order(order, &[versyms]).and_then(|order| version_of(order, versyms, symbol));
    versym_answer(found)
}
