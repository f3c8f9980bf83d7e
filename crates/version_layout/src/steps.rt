// A record of the version sections, by its places.
ghost use Rattle.std.specs.Prelude.{◌≡◌};
ghost use Rattle.version_layout.specs.Indices.{is_base};

use endian::kinds::Order;
use word::u16_at;

// A record of a list: its place, the place of its chain, and that of the next record.
#[derive(Clone, Copy, Debug, PartialEq, Eq)]
pub struct Record {
    pub at: usize,
    pub aux: usize,
    pub next: usize,
}

// A record of a chain: its place, and that of the next record.
#[derive(Clone, Copy, Debug, PartialEq, Eq)]
pub struct Aux {
    pub at: usize,
    pub next: usize,
}

// Whether a definition is flagged base. A byte past the end counts as 0.
#[tactic(auto, using(endian::proofs::Word::word_past))]
pub fn is_base(order: Order, s: &[u8], def: Record) -> bool
    ensures { result ≡ is_base order s.now def }
{
    def.at <= s.len() && u16_at(order, s, def.at + 2) % 2 == 1
}
