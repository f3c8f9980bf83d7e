// The index that a record names, by the record's place. A byte past the end counts as 0.
ghost use Rattle.std.specs.Prelude.{◌≡◌};
ghost use Rattle.version_layout.specs.Indices.{def_index, need_index};

use endian::kinds::Order;
use version::index::VersionIndex;
use word::u16_at;

// The index of a definition: its whole 16 bits.
#[tactic(auto, using(endian::proofs::Word::word_past))]
pub fn def_index(order: Order, s: &[u8], at: usize) -> VersionIndex
    ensures { result ≡ def_index order s.now at }
{
    if s.len() < at {
        return VersionIndex(0);
    }
    VersionIndex(u16_at(order, s, at + 4))
}

// The index of a needed version: its low 15 bits.
#[tactic(auto, using(endian::proofs::Word::word_past))]
pub fn need_index(order: Order, s: &[u8], at: usize) -> VersionIndex
    ensures { result ≡ need_index order s.now at }
{
    if s.len() < at {
        return VersionIndex(0);
    }
    VersionIndex(u16_at(order, s, at + 6) % 0x8000)
}
