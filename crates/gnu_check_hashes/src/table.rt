// What the passes of the GNU checker read.
use endian::kinds::{Class, Order};
use gnu_table::header::Layout;

// A GNU table: its bytes with their layout, and the symbols with their strings, of which there are
// `count`.
#[derive(Clone, Copy)]
pub struct Table<'a> {
    pub class: Class,
    pub order: Order,
    pub bytes: &'a [u8],
    pub symbols: &'a [u8],
    pub strings: &'a [u8],
    pub layout: Layout,
    pub count: u32,
}
