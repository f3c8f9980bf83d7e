// Whether a symbol is a definition.
#![tactic(auto)]

ghost use Rattle.std.specs.Prelude.{◌≡◌};
ghost use Rattle.symbol_definition.specs.Definition.{starts_with_dollar, reserved_section, definition};

use endian::refusals::{LIMIT, Refusal, TOO_LONG};
use symbol_entry::{
    SHN_LORESERVE, SHN_UNDEF, SHN_XINDEX, STT_FUNC, STT_NOTYPE, STT_OBJECT, Symbol,
};

// Whether a section number stands for no section: undefined or reserved, but for the number that
// says that the real one stands elsewhere.
#[tactic(auto, unfolding(crate::specs::Definition::reserved_section))]
fn is_reserved(shndx: u16) -> bool
    ensures { result ≡ reserved_section shndx }
{
    shndx == SHN_UNDEF || (SHN_LORESERVE <= shndx && shndx != SHN_XINDEX)
}

#[tactic(auto, unfolding(crate::specs::Definition::starts_with_dollar))]
fn starts_with_dollar(strings: &[u8], offset: u32) -> bool
    ensures { result ≡ starts_with_dollar strings.now offset }
{
    match strings::string_at(strings, offset) {
        Ok(place) => place.len != 0 && word::u8_at(strings, place.start) == b'$',
        Err(_) => false,
    }
}

// Whether a symbol is a definition: its section is neither undefined nor reserved, and it is a
// function, a data object or without a type. A local one without a type is none if its name can be read
// and starts with `$`: a mapping symbol. Refused first: strings that are too long.
pub fn is_definition(symbol: Symbol, strings: &[u8]) -> Result<bool, Refusal>
    ensures { result ≡ definition strings.now symbol }
{
    if LIMIT < strings.len() {
        return Err(TOO_LONG);
    }
    if is_reserved(symbol.shndx) {
        return Ok(false);
    }
    match symbol.kind() {
        STT_FUNC | STT_OBJECT => Ok(true),
        STT_NOTYPE => Ok(!symbol.is_local() || !starts_with_dollar(strings, symbol.name)),
        _ => Ok(false),
    }
}
