// The length of the symbol table, as the SysV table says it.
ghost use Rattle.std.specs.Prelude.{◌≡◌};
ghost use Rattle.sysv_header.specs.Header.{sysv_length};

use super::header::header_of;
use endian::kinds::Order;
use endian::refusals::Refusal;

// How many chains there are: one for each symbol. Refused as `header_of`.
#[tactic(auto, using(crate::proofs::Headers::length_from))]
pub fn table_length(order: Order, table: &[u8]) -> Result<u32, Refusal>
    ensures { result ≡ sysv_length order table.now }
{
    let header = header_of(order, table)?;
    Ok(header.chain_count)
}
