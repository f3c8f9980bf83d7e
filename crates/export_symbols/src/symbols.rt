// Symbols, for C. Refused in this order: a part that is too long; a number that is no class or no
// order; as the functions of `symbol`.
ghost use Rattle.std.specs.Prelude.{◌≡◌};
ghost use Rattle.export_symbols.specs.Symbols.{symbol_count_answer, symbol_answer, symbol_at_answer, symbol_name_answer};

use endian::refusals::Refusal;
use export::answers::{NumberAnswer, PlaceAnswer, no_number, number_answer, place_answer};
use export::kinds::{known, known_class};
use symbol::table::{SymbolIndex, symbol_at, symbol_count, symbol_name};
use symbol_entry::Symbol;

#[repr(C)]
#[derive(Clone, Copy)]
pub struct SymbolAnswer {
    pub refusal: u32,
    pub name: u32,
    pub value: u64,
    pub size: u64,
    pub info: u8,
    pub other: u8,
    pub shndx: u16,
}

#[unsafe(no_mangle)]
pub extern "C" fn fetulombo_symbol_count(class: u8, symbols: &[u8]) -> NumberAnswer
    ensures { result ≡ symbol_count_answer class symbols.now }
{
    let counted = known_class(class, &[symbols]).and_then(|class| symbol_count(class, symbols));
    match counted {
        Ok(count) => number_answer(count as u64),
        Err(refusal) => no_number(refusal),
    }
}

fn symbol_answer(found: Result<Symbol, Refusal>) -> SymbolAnswer
    ensures { result ≡ symbol_answer found }
{
    match found {
        Ok(symbol) => SymbolAnswer {
            refusal: 0,
            name: symbol.name,
            value: symbol.value,
            size: symbol.size,
            info: symbol.info,
            other: symbol.other,
            shndx: symbol.shndx,
        },
        Err(refusal) => SymbolAnswer {
            refusal: refusal.0,
            name: 0,
            value: 0,
            size: 0,
            info: 0,
            other: 0,
            shndx: 0,
        },
    }
}

#[unsafe(no_mangle)]
pub extern "C" fn fetulombo_symbol_at(
    class: u8,
    order: u8,
    symbols: &[u8],
    index: u32,
) -> SymbolAnswer
    ensures { result ≡ symbol_at_answer class order symbols.now index }
{
    let found = known(class, order, &[symbols]).and_then(|(class, order)| {
        symbol_at(class, order, symbols, SymbolIndex(index))
    });
    symbol_answer(found)
}

#[unsafe(no_mangle)]
pub extern "C" fn fetulombo_symbol_name(
    class: u8,
    order: u8,
    symbols: &[u8],
    strings: &[u8],
    index: u32,
) -> PlaceAnswer
    ensures { result ≡ symbol_name_answer class order symbols.now strings.now index }
{
    let found = known(class, order, &[symbols, strings]).and_then(|(class, order)| {
        symbol_name(class, order, symbols, strings, SymbolIndex(index))
    });
    place_answer(found)
}
