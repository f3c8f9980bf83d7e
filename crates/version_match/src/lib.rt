// Whether the version of a symbol is the one that is needed.
#![tactic(auto)]

ghost use Rattle.std.specs.Prelude.{◌≡◌, true, ◌+◌, ◌≤◌, length, take, drop};
ghost use Rattle.endian.specs.First.{same};
ghost use Rattle.version.specs.Table.{inside};
ghost use Rattle.version_match.specs.Match.{is_needed, matching};

use endian::kinds::Order;
use symbol::table::SymbolIndex;
use version::store::Version;
use version::table::{entry, version_of};

// Which version is needed: none in particular, which a special index meets and every version that is
// not hidden, or the one of a hash and a name, which stands beside it. No Option: Demand3Last and SysvLast say Need.Hash.
#[derive(Clone, Copy, Debug, PartialEq, Eq)]
pub enum Need {
    Any,
    Hash(u32),
}

// Whether a version has the hash and the name.
#[tactic(auto, using(crate::proofs::Compared::pointwise_part))]
fn is_needed(strings: &[u8], version: Version, hash: u32, name: &[u8]) -> bool
    requires { inside strings.now version.name ≡ true }
    ensures { result ≡ is_needed strings.now version hash name.now }
{
    let start = version.name.start as usize;
    let end = start + version.name.len as usize;
    version.hash == hash && &strings[start..end] == name
}

// Whether the version of a symbol is the one that is needed: never where versyms or strings are too
// long, or the index behind it is invalid. The name is not held to the limit: beside `Any` it is not
// looked at, and one that is too long is no version's.
#[tactic(auto, using(crate::proofs::Entered::name_inside), unfolding(crate::specs::Match::matching))]
pub fn matches(
    order: Order,
    versyms: &[u8],
    store: &[u32],
    strings: &[u8],
    symbol: SymbolIndex,
    need: Need,
    name: &[u8],
) -> bool
    ensures { result
        ≡ matching order versyms.now store.now strings.now symbol need
        name.now }
{
    let Ok(versym) = version_of(order, versyms, symbol) else {
        return false;
    };
    match (entry(store, strings, versym.index), need) {
        (Err(_), _) => false,
        (Ok(None), Need::Any) => true,
        (Ok(None), Need::Hash(_)) => false,
        (Ok(Some(_)), Need::Any) => !versym.hidden,
        (Ok(Some(version)), Need::Hash(hash)) => is_needed(strings, version, hash, name),
    }
}
