// The GNU hash of a symbol's name, read to its zero while hashing.
ghost use Rattle.std.specs.Prelude.{◌≡◌};
ghost use Rattle.gnu_check_hashes.specs.Names.{hash_at, hash_in};

use endian::kinds::{Class, Order};
use endian::refusals::LIMIT;
use name_hash::gnu_step;
use symbol::table::{SymbolIndex, symbol_at};

// The hash of the string at an offset; of one that cannot be read, that of the empty name.
fn hash_at(strings: &[u8], offset: u32) -> u32
    ensures { result ≡ hash_at strings.now offset }
{
    if LIMIT < strings.len() {
        return 5381;
    }
    let Some(rest) = strings.get(offset as usize..) else {
        return 5381;
    };
    let mut h: u32 = 5381;
    for b in rest {
        if *b == 0 {
            return h;
        }
        h = gnu_step(h, *b);
    }
    5381
}

// The hash of a symbol's name; of one that cannot be read, that of the empty name.
pub fn symbol_hash(
    class: Class,
    order: Order,
    symbols: &[u8],
    strings: &[u8],
    symbol: SymbolIndex,
) -> u32
    ensures { result ≡ hash_in class order symbols.now strings.now symbol.0 }
{
    match symbol_at(class, order, symbols, symbol) {
        Ok(entry) => hash_at(strings, entry.name),
        Err(_) => 5381,
    }
}
