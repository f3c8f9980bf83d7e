// A note's name, without the zeros at its end.
#![tactic(auto)]

ghost use Rattle.std.specs.Prelude.{◌≡◌};
ghost use Rattle.note_name.specs.LentPart.{part_of, trimmed_part};

// The front part of the name without its trailing zeros: a part of the lent bytes, and no copy.
pub fn trimmed(name: &[u8]) -> &[u8]
    ensures { part_of result ≡ trimmed_part name.entry }
{
    match name.iter().rposition(|&b| b != 0) {
        Some(last) => &name[..=last],
        None => &name[..0],
    }
}
