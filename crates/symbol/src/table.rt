// A table of symbols: how many it has, the one of a number, and its name.
ghost use Rattle.std.specs.Prelude.{◌≡◌, ◌<◌};
ghost use Rattle.symbol.specs.Table.{symbol_size, symbol_of, symbol_count, symbol_at, symbol_name};

use endian::kinds::{Class, Order};
use endian::refusals::{LIMIT, NO_SYMBOL, Refusal, TOO_LONG};
use strings::Place;
use symbol_entry::Symbol;
use word::{u8_at, u16_at, u32_at, u64_at};

// A symbol's number, which is never a version's.
#[derive(Clone, Copy, Debug, PartialEq, Eq)]
pub struct SymbolIndex(pub u32);

fn symbol_size(class: Class) -> usize
    ensures { result ≡ symbol_size class }
{
    match class {
        Class::Elf32 => 16,
        Class::Elf64 => 24,
    }
}

// How many whole records there are; a shorter tail is ignored. Refused: symbols that are too long.
pub fn symbol_count(class: Class, symbols: &[u8]) -> Result<u32, Refusal>
    ensures { result ≡ symbol_count class symbols.now }
{
    if LIMIT < symbols.len() {
        return Err(TOO_LONG);
    }
    match class {
        Class::Elf32 => Ok((symbols.len() / 16) as u32),
        Class::Elf64 => Ok((symbols.len() / 24) as u32),
    }
}

// The fields of the record at a place. A byte past the end counts as 0.
fn symbol_of(class: Class, order: Order, symbols: &[u8], base: usize) -> Symbol
    requires { base < 4294967296 }
    ensures { result ≡ symbol_of class order symbols.now base }
{
    match class {
        Class::Elf32 => Symbol {
            name: u32_at(order, symbols, base),
            value: u32_at(order, symbols, base + 4) as u64,
            size: u32_at(order, symbols, base + 8) as u64,
            info: u8_at(symbols, base + 12),
            other: u8_at(symbols, base + 13),
            shndx: u16_at(order, symbols, base + 14),
        },
        Class::Elf64 => Symbol {
            name: u32_at(order, symbols, base),
            value: u64_at(order, symbols, base + 8),
            size: u64_at(order, symbols, base + 16),
            info: u8_at(symbols, base + 4),
            other: u8_at(symbols, base + 5),
            shndx: u16_at(order, symbols, base + 6),
        },
    }
}

// The symbol of a number. Refused in this order: symbols that are too long; number 0, or one with
// no whole record.
pub fn symbol_at(
    class: Class,
    order: Order,
    symbols: &[u8],
    index: SymbolIndex,
) -> Result<Symbol, Refusal>
    ensures { result ≡ symbol_at class order symbols.now index }
{
    if LIMIT < symbols.len() {
        return Err(TOO_LONG);
    }
    if index.0 == 0 {
        return Err(NO_SYMBOL);
    }
    let number = index.0 as usize;
    let record = symbol_size(class);
    if symbols.len() < (number + 1) * record {
        return Err(NO_SYMBOL);
    }
    Ok(symbol_of(class, order, symbols, number * record))
}

// The name of a symbol. Refused in this order: symbols or strings that are too long; as `symbol_at`;
// as `strings::string_at`.
pub fn symbol_name(
    class: Class,
    order: Order,
    symbols: &[u8],
    strings: &[u8],
    index: SymbolIndex,
) -> Result<Place, Refusal>
    ensures { result ≡ symbol_name class order symbols.now strings.now index }
{
    if LIMIT < strings.len() {
        return Err(TOO_LONG);
    }
    let symbol = symbol_at(class, order, symbols, index)?;
    strings::string_at(strings, symbol.name)
}
