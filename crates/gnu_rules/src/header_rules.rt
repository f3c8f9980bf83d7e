// The rules of the header: G1 to G5.
ghost use Rattle.std.specs.Prelude.{◌≡◌};
ghost use Rattle.gnu_rules.specs.HeaderRules.{broken_header};

use gnu_table::header::Layout;

// The first broken rule of G1 to G5 in a header over so many symbols, if one is broken.
#[tactic(auto, using(crate::proofs::Powers::power_is, crate::proofs::Header::fifth_broken, crate::proofs::Header::none_broken), unfolding(crate::specs::HeaderRules::broken_header))]
pub fn broken_header(layout: Layout, count: u32) -> Option<u8>
    ensures { result ≡ broken_header layout count }
{
    if layout.symbol_base < 1 || count < layout.symbol_base {
        return Some(1);
    }
    if !layout.bloom_count.is_power_of_two() {
        return Some(2);
    }
    if layout.bucket_count < 1 {
        return Some(3);
    }
    if 31 < layout.bloom_shift {
        return Some(4);
    }
    if layout.value_count < count - layout.symbol_base {
        return Some(5);
    }
    None
}
