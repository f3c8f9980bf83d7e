// The two hashes of a symbol's name, and the step of the GNU one.
#![tactic(auto)]

ghost use Rattle.std.specs.Prelude.{◌≡◌};
ghost use Rattle.name_hash.specs.Hash.{gnu_step, gnu_hash, sysv_step, sysv_hash, name_hash};

use endian::refusals::{LIMIT, Refusal, TOO_LONG};

// The GNU hash after one byte more.
pub fn gnu_step(h: u32, b: u8) -> u32
    ensures { result ≡ gnu_step h b }
{
    (((h as u64) * 33 + (b as u64)) % 0x1_0000_0000) as u32
}

// The GNU hash. Refused: a name that is too long.
#[tactic(auto, unfolding(crate::specs::Hash::gnu_hash))]
pub fn gnu_hash(name: &[u8]) -> Result<u32, Refusal>
    ensures { result ≡ name_hash gnu_hash name.now }
{
    if LIMIT < name.len() {
        return Err(TOO_LONG);
    }
    Ok(name.iter().fold(5381, |h, &b| gnu_step(h, b)))
}

fn sysv_step(h: u32, b: u8) -> u32
    ensures { result ≡ sysv_step h b }
{
    let t = (((h as u64) * 16 + (b as u64)) % 0x1_0000_0000) as u32;
    let g = t & 0xf000_0000;
    (t ^ (g >> 24)) & !g
}

// The SysV hash. Refused: a name that is too long.
#[tactic(auto, unfolding(crate::specs::Hash::sysv_hash))]
pub fn sysv_hash(name: &[u8]) -> Result<u32, Refusal>
    ensures { result ≡ name_hash sysv_hash name.now }
{
    if LIMIT < name.len() {
        return Err(TOO_LONG);
    }
    Ok(name.iter().fold(0, |h, &b| sysv_step(h, b)))
}
