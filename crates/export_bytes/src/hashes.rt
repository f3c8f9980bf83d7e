// The hashes of a name, for C. Refused: a name that is too long.
ghost use Rattle.std.specs.Prelude.{◌≡◌};
ghost use Rattle.name_hash.specs.Hash.{name_hash, gnu_hash, sysv_hash};
ghost use Rattle.export_bytes.specs.Hashes.{hash_answer};

use endian::refusals::Refusal;
use export::answers::{NumberAnswer, no_number, number_answer};

pub(crate) fn hash_answer(hash: Result<u32, Refusal>) -> NumberAnswer
    ensures { result ≡ hash_answer hash }
{
    match hash {
        Ok(value) => number_answer(value as u64),
        Err(refusal) => no_number(refusal),
    }
}

#[unsafe(no_mangle)]
pub extern "C" fn fetulombo_gnu_hash(name: &[u8]) -> NumberAnswer
    ensures { result ≡ hash_answer (name_hash gnu_hash name.now) }
{
    hash_answer(name_hash::gnu_hash(name))
}

#[unsafe(no_mangle)]
pub extern "C" fn fetulombo_sysv_hash(name: &[u8]) -> NumberAnswer
    ensures { result ≡ hash_answer (name_hash sysv_hash name.now) }
{
    hash_answer(name_hash::sysv_hash(name))
}
