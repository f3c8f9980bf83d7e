// What both hash tables say of the symbol table, for C. Refused in this order: a table that is too long;
// a number that is no class or no order; as the functions of `gnu_table`, `gnu_length` and `sysv_header`.
ghost use Rattle.std.specs.Prelude.{◌≡◌};
ghost use Rattle.export_tables.specs.Lengths.{gnu_base_answer, length_answer, gnu_length_answer, sysv_length_answer};

use endian::refusals::{Refusal, UNKNOWN_KIND};
use export::answers::{NumberAnswer, no_number, number_answer};
use export::kinds::{are_kinds, class_of, is_kind, order_of, unless_long};

// The length of the symbol table; known is 0 where a table says nothing of it.
#[repr(C)]
#[derive(Clone, Copy)]
pub struct LengthAnswer {
    pub refusal: u64,
    pub known: u64,
    pub symbols: u64,
}

// The number of the first hashed symbol of a GNU table.
#[unsafe(no_mangle)]
pub extern "C" fn fetulombo_gnu_base(class: u8, order: u8, table: &[u8]) -> NumberAnswer
    ensures { result ≡ gnu_base_answer class order table.now }
{
    if !are_kinds(class, order) {
        return no_number(unless_long(table, UNKNOWN_KIND));
    }
    match gnu_table::header::header(class_of(class), order_of(order), table) {
        Ok(layout) => number_answer(layout.symbol_base as u64),
        Err(refusal) => no_number(refusal),
    }
}

fn length_answer(found: Result<Option<u32>, Refusal>) -> LengthAnswer
    ensures { result ≡ length_answer found }
{
    match found {
        Ok(Some(symbols)) => LengthAnswer {
            refusal: 0,
            known: 1,
            symbols: symbols as u64,
        },
        Ok(None) => LengthAnswer {
            refusal: 0,
            known: 0,
            symbols: 0,
        },
        Err(refusal) => LengthAnswer {
            refusal: refusal.0 as u64,
            known: 0,
            symbols: 0,
        },
    }
}

// The length of the symbol table, from a GNU table.
#[unsafe(no_mangle)]
pub extern "C" fn fetulombo_gnu_length(class: u8, order: u8, table: &[u8]) -> LengthAnswer
    ensures { result ≡ gnu_length_answer class order table.now }
{
    if !are_kinds(class, order) {
        return length_answer(Err(unless_long(table, UNKNOWN_KIND)));
    }
    length_answer(gnu_length::table_length(class_of(class), order_of(order), table))
}

// The length of the symbol table, from a SysV table.
#[unsafe(no_mangle)]
pub extern "C" fn fetulombo_sysv_length(order: u8, table: &[u8]) -> NumberAnswer
    ensures { result ≡ sysv_length_answer order table.now }
{
    if !is_kind(order) {
        return no_number(unless_long(table, UNKNOWN_KIND));
    }
    match sysv_header::length::table_length(order_of(order), table) {
        Ok(count) => number_answer(count as u64),
        Err(refusal) => no_number(refusal),
    }
}
