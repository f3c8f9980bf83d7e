// The writing of the lent store.
ghost use Rattle.std.specs.Prelude.{◌≡◌, ◌≤◌, length, replicate};
ghost use Rattle.version.specs.Store.{store_needs, put_entry};

use version::store::{ENTRY, Stored};

// Leaves 0 throughout.
pub fn zero(store: &mut [u32])
    ensures { store.new ≡ replicate (length store.old) 0 }
{
    store.fill(0);
}

// Leaves a version's numbers at its index, and the rest as it was.
#[tactic(auto, using(crate::proofs::Puts::put_entry_of), unfolding(version::specs::Store::put_entry))]
pub(crate) fn put_entry(store: &mut [u32], stored: Stored)
    requires { store_needs stored.index ≤ length store.old }
    ensures { store.new ≡ put_entry store.old stored }
{
    let at = stored.index.0 as usize * ENTRY;
    let version = stored.version;
    store[at] = version.kind;
    store[at + 1] = version.hash;
    store[at + 2] = version.name.start;
    store[at + 3] = version.name.len;
    store[at + 4] = version.file.start;
    store[at + 5] = version.file.len;
}
