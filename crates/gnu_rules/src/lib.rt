// Why the GNU checker does not accept a table, and the rules of the header. All its rules stand in
// specs/Rules.antt, what an accepted table promises in specs/Demand3.antt.
#![tactic(auto)]

ghost use Rattle.std.specs.Prelude.{◌≡◌};
ghost use Rattle.gnu_rules.specs.declared.Fault.TheVariants.{Refused};

use endian::refusals::Refusal;

pub mod header_rules;

// The first broken rule, by its number in document 01, and its lowest symbol or bucket, or 0; or a refusal.
#[derive(Clone, Copy, Debug, PartialEq, Eq)]
pub enum Fault {
    Broken { rule: u8, place: u32 },
    Refused(Refusal),
}

impl From<Refusal> for Fault {
    ghost from_gives = { λ r e. e ≡ Refused r };

    fn from(refusal: Refusal) -> Fault {
        Fault::Refused(refusal)
    }
}
