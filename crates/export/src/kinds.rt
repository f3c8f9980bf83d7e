// Class and order as C passes them: ELF's own numbers, as e_ident[4] and e_ident[5] hold them. 1 is
// ELF32 or little, 2 is ELF64 or big. Any other number is refused, after a part that is too long and
// before everything else.
ghost use Rattle.std.specs.Prelude.{◌≡◌, map};
ghost use Rattle.endian.specs.Lent.{now_of};
ghost use Rattle.export.specs.Kinds.{class_of, order_of, is_kind, are_kinds, unless_long, kind_refusal};
ghost use Rattle.export.specs.Known.{known_class, known_order, known};

use endian::kinds::{Class, Order};
use endian::refusals::{LIMIT, Refusal, TOO_LONG, UNKNOWN_KIND, any_long};

// Whether a number is that of a class; or, which is the same, of an order.
#[tactic(auto, unfolding(crate::specs::Kinds::is_kind))]
pub fn is_kind(number: u8) -> bool
    ensures { result ≡ is_kind number }
{
    matches!(number, 1 | 2)
}

pub fn are_kinds(class: u8, order: u8) -> bool
    ensures { result ≡ are_kinds class order }
{
    is_kind(class) && is_kind(order)
}

// The class of a number that is one; else ELF64.
pub fn class_of(class: u8) -> Class
    ensures { result ≡ class_of class }
{
    Class::try_from(class).unwrap_or(Class::Elf64)
}

// The order of a number that is one; else big.
pub fn order_of(order: u8) -> Order
    ensures { result ≡ order_of order }
{
    Order::try_from(order).unwrap_or(Order::Big)
}

// Why two numbers, or one, are no kinds: 1 where a part is too long, else 39.
fn kind_refusal(parts: &[&[u8]]) -> Refusal
    ensures { result ≡ kind_refusal (map now_of parts.now) }
{
    if any_long(parts) {
        TOO_LONG
    } else {
        UNKNOWN_KIND
    }
}

// The class of a number, or why there is none.
pub fn known_class(class: u8, parts: &[&[u8]]) -> Result<Class, Refusal>
    ensures { result ≡ known_class class (map now_of parts.now) }
{
    if is_kind(class) {
        Ok(class_of(class))
    } else {
        Err(kind_refusal(parts))
    }
}

// The order of a number, or why there is none.
pub fn known_order(order: u8, parts: &[&[u8]]) -> Result<Order, Refusal>
    ensures { result ≡ known_order order (map now_of parts.now) }
{
    if is_kind(order) {
        Ok(order_of(order))
    } else {
        Err(kind_refusal(parts))
    }
}

// The class and the order of two numbers, or why there are none.
pub fn known(class: u8, order: u8, parts: &[&[u8]]) -> Result<(Class, Order), Refusal>
    ensures { result ≡ known class order (map now_of parts.now) }
{
    if are_kinds(class, order) {
        Ok((class_of(class), order_of(order)))
    } else {
        Err(kind_refusal(parts))
    }
}

// The refusal of a part that is too long, or else the one that is given.
pub fn unless_long(part: &[u8], refusal: Refusal) -> Refusal
    ensures { result ≡ unless_long part.now refusal }
{
    if LIMIT < part.len() {
        return TOO_LONG;
    }
    refusal
}
