// What the fields of a symbol say, for C. A symbol is passed as those of its fields that the answer
// depends on.
ghost use Rattle.std.specs.Prelude.{◌≡◌};
ghost use Rattle.symbol_definition.specs.Definition.{definition};
ghost use Rattle.export_symbols.specs.Facts.{definition_answer, entry, facts};

use export::answers::{NumberAnswer, no_number, truth_answer};
use symbol_definition::is_definition;
use symbol_entry::Symbol;

// What a symbol's info, other and section number say; the last five are 0 or 1.
#[repr(C)]
#[derive(Clone, Copy)]
pub struct FactsAnswer {
    pub bind: u32,
    pub kind: u32,
    pub visibility: u32,
    pub undefined: u32,
    pub common: u32,
    pub absolute: u32,
    pub local: u32,
    pub weak: u32,
}

// What the fields of a symbol say that need no strings.
#[unsafe(no_mangle)]
pub extern "C" fn fetulombo_symbol_facts(info: u8, other: u8, shndx: u16) -> FactsAnswer
    ensures { result ≡ facts (entry 0 info other shndx) }
{
    let symbol = Symbol {
        name: 0,
        value: 0,
        size: 0,
        info: info,
        other: other,
        shndx: shndx,
    };
    FactsAnswer {
        bind: symbol.bind() as u32,
        kind: symbol.kind() as u32,
        visibility: symbol.visibility() as u32,
        undefined: symbol.is_undefined() as u32,
        common: symbol.is_common() as u32,
        absolute: symbol.is_absolute() as u32,
        local: symbol.is_local() as u32,
        weak: symbol.is_weak() as u32,
    }
}

// Whether a symbol defines a function or a data object. Refused: strings that are too long.
#[unsafe(no_mangle)]
pub extern "C" fn fetulombo_symbol_is_definition(
    strings: &[u8],
    name: u32,
    info: u8,
    shndx: u16,
) -> NumberAnswer
    ensures { result ≡ definition_answer (definition strings.now (entry name info 0 shndx)) }
{
    let symbol = Symbol {
        name: name,
        value: 0,
        size: 0,
        info: info,
        other: 0,
        shndx: shndx,
    };
    match is_definition(symbol, strings) {
        Ok(is) => truth_answer(is),
        Err(refusal) => no_number(refusal),
    }
}
