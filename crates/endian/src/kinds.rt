// Class and byte order, which the original has as types, as values; and of ELF's own numbers, as
// e_ident[4] and e_ident[5] hold them: 1 is ELF32 or little, 2 is ELF64 or big, any other is refused.
ghost use Rattle.endian.specs.Kinds.{Classes, Orders};

use super::refusals::{Refusal, UNKNOWN_KIND};

#[derive(Clone, Copy, Debug, PartialEq, Eq)]
pub enum Class {
    Elf32,
    Elf64,
}

#[derive(Clone, Copy, Debug, PartialEq, Eq)]
pub enum Order {
    Little,
    Big,
}

impl TryFrom<u8> for Class {
    type Error = Refusal;

    ghost try_from_gives = { Classes };

    fn try_from(number: u8) -> Result<Self, Refusal> {
        match number {
            1 => Ok(Class::Elf32),
            2 => Ok(Class::Elf64),
            _ => Err(UNKNOWN_KIND),
        }
    }
}

impl TryFrom<u8> for Order {
    type Error = Refusal;

    ghost try_from_gives = { Orders };

    fn try_from(number: u8) -> Result<Self, Refusal> {
        match number {
            1 => Ok(Order::Little),
            2 => Ok(Order::Big),
            _ => Err(UNKNOWN_KIND),
        }
    }
}
