// The header of a SysV table, and whether its buckets and its chains stand whole after it.
ghost use Rattle.std.specs.Prelude.{◌≡◌};
ghost use Rattle.sysv_header.specs.Reading.{header_at};

use endian::kinds::Order;
use endian::refusals::{
    BAD_SYSV_BUCKETS, BAD_SYSV_CHAINS, BAD_SYSV_HEADER, LIMIT, Refusal, TOO_LONG,
};
use word::u32_at;

#[derive(Clone, Copy, Debug, PartialEq, Eq)]
pub struct Header {
    pub bucket_count: u32,
    pub chain_count: u32,
}

// The header. Refused in this order: a table that is too long; one too short for its header, its
// buckets, its chains.
#[tactic(auto, unfolding(crate::specs::Reading::header_at))]
pub fn header_of(order: Order, table: &[u8]) -> Result<Header, Refusal>
    ensures { result ≡ header_at order table.now }
{
    if LIMIT < table.len() {
        return Err(TOO_LONG);
    }
    if table.len() < 8 {
        return Err(BAD_SYSV_HEADER);
    }
    let buckets = u32_at(order, table, 0);
    let chains_at = 8 + buckets as usize * 4;
    if table.len() < chains_at {
        return Err(BAD_SYSV_BUCKETS);
    }
    let chains = u32_at(order, table, 4);
    if table.len() < chains_at + chains as usize * 4 {
        return Err(BAD_SYSV_CHAINS);
    }
    Ok(Header {
        bucket_count: buckets,
        chain_count: chains,
    })
}
