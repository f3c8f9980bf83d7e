// The checkers of both hash tables, for C. Refused in this order: a part that is too long; a number that
// is no class or no order; as the checkers.
ghost use Rattle.std.specs.Prelude.{◌≡◌};
ghost use Rattle.export_tables.specs.Checks.{gnu_checked, gnu_check_answer, sysv_checked, sysv_check_answer};

use endian::refusals::UNKNOWN_KIND;
use export::kinds::{are_kinds, class_of, order_of, unless_long};

// What a checker says: accepted, with the longest chain of a GNU table; or the first broken rule with
// its place.
#[repr(C)]
#[derive(Clone, Copy)]
pub struct CheckAnswer {
    pub refusal: u32,
    pub accepted: u32,
    pub rule: u32,
    pub place: u32,
    pub longest: u64,
}

fn gnu_checked(checked: Result<usize, gnu_rules::Fault>) -> CheckAnswer
    ensures { result ≡ gnu_checked checked }
{
    match checked {
        Ok(longest) => CheckAnswer {
            refusal: 0,
            accepted: 1,
            rule: 0,
            place: 0,
            longest: longest as u64,
        },
        Err(gnu_rules::Fault::Broken { rule, place }) => CheckAnswer {
            refusal: 0,
            accepted: 0,
            rule: rule as u32,
            place,
            longest: 0,
        },
        Err(gnu_rules::Fault::Refused(refusal)) => CheckAnswer {
            refusal: refusal.0,
            accepted: 0,
            rule: 0,
            place: 0,
            longest: 0,
        },
    }
}

// Checks a GNU table by the rules G1 to G10.
#[unsafe(no_mangle)]
pub extern "C" fn fetulombo_gnu_check(
    class: u8,
    order: u8,
    table: &[u8],
    symbols: &[u8],
    strings: &[u8],
) -> CheckAnswer
    ensures { result
        ≡ gnu_check_answer class order table.now symbols.now strings.now }
{
    if !are_kinds(class, order) {
        let refusal = unless_long(
            table,
            unless_long(symbols, unless_long(strings, UNKNOWN_KIND)),
        );
        return gnu_checked(Err(gnu_rules::Fault::Refused(refusal)));
    }
    gnu_checked(gnu_check::check::check(class_of(class), order_of(order), table, symbols, strings))
}

fn sysv_checked(checked: Result<(), sysv_check::table::Fault>) -> CheckAnswer
    ensures { result ≡ sysv_checked checked }
{
    match checked {
        Ok(()) => CheckAnswer {
            refusal: 0,
            accepted: 1,
            rule: 0,
            place: 0,
            longest: 0,
        },
        Err(sysv_check::table::Fault::Broken(number)) => CheckAnswer {
            refusal: 0,
            accepted: 0,
            rule: number as u32,
            place: 0,
            longest: 0,
        },
        Err(sysv_check::table::Fault::Refused(refusal)) => CheckAnswer {
            refusal: refusal.0,
            accepted: 0,
            rule: 0,
            place: 0,
            longest: 0,
        },
    }
}

// Checks a SysV table by the rules T1 to T3.
#[unsafe(no_mangle)]
pub extern "C" fn fetulombo_sysv_check(
    class: u8,
    order: u8,
    table: &[u8],
    symbols: &[u8],
    strings: &[u8],
) -> CheckAnswer
    ensures { result
        ≡ sysv_check_answer class order table.now symbols.now strings.now }
{
    if !are_kinds(class, order) {
        let refusal = unless_long(
            table,
            unless_long(symbols, unless_long(strings, UNKNOWN_KIND)),
        );
        return sysv_checked(Err(sysv_check::table::Fault::Refused(refusal)));
    }
    sysv_checked(sysv_check::table::check(
        class_of(class),
        order_of(order),
        table,
        symbols,
        strings,
    ))
}
