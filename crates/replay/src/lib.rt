// What the replays of the original's recorded answers share: how they count, and the parts of a record. Beside it
// their loop as one call, for whoever writes a replay of their own.
#![tactic(auto)]

ghost use Rattle.std.specs.Prelude.{◌≡◌, ◌+◌, ◌≤◌, get_or, IfOk};
ghost use Rattle.replay.specs.Part.{part_of};
ghost use Rattle.replay.specs.Count.{counted};

use std::io;
use std::io::{ErrorKind, Read};

// The most records that are read.
pub const MOST: u64 = 1000000;

// How many records there were, and at how many of them the answer differs.
#[derive(Clone, Copy, Debug, PartialEq, Eq)]
pub struct Tally {
    pub ran: u64,
    pub different: u64,
}

// Before the first record.
pub const NONE_YET: Tally = Tally {
    ran: 0,
    different: 0,
};

impl Tally {
    // With one record more, whose answer agrees or differs.
    pub fn counted(self, agrees: bool) -> Tally
        ensures { result ≡ counted self agrees }
    {
        Tally {
            ran: self.ran.wrapping_add(1),
            different: self.different.wrapping_add(u64::from(!agrees)),
        }
    }
}

// Reads records of the lent length to the end of the input, and tries each. A shorter one at the end is not tried.
// The replays have this loop in their `main`.
pub fn replay<R: Read, F: Fn(&[u8]) -> bool>(
    input: &mut R,
    record: &mut [u8],
    agrees: F,
) -> io::Result<Tally>
    requires { F.IsAlwaysCallable agrees }
    ensures { IfOk result (λ tally. tally.different ≤ tally.ran) }
{
    let mut tally = NONE_YET;
    for _ in 0..MOST {
        if let Err(error) = input.read_exact(record) {
            if error.kind() == ErrorKind::UnexpectedEof {
                break;
            }
            return Err(error);
        }
        tally = tally.counted(agrees(record));
    }
    Ok(tally)
}

// A part of a record: so many bytes from a place on, or none where the record is too short.
pub fn part(recorded: &[u8], start: usize, length: u8) -> &[u8]
    ensures { result.now ≡ part_of recorded.now start length }
{
    match recorded.get(start..) {
        Some(rest) => rest.get(..length as usize).unwrap_or(&[]),
        None => &[],
    }
}

// The same of a part whose length stands at a place, in the byte before it.
pub fn part_at(recorded: &[u8], at: usize) -> &[u8]
    ensures { result.now ≡ part_of recorded.now (at + 1) (get_or recorded.now at 0) }
{
    match recorded.get(at..) {
        Some([length, rest @ ..]) => part(rest, 0, *length),
        _ => &[],
    }
}

#[cfg(test)]
mod tests {
    use super::*;

    fn same_ends(record: &[u8]) -> bool {
        record.first() == record.last()
    }

    // An input, the length of a record, and how many there are and differ. Where the records have no byte, the most
    // are read.
    #[test]
    fn whole_records_are_tried(rt: HostRuntime) -> io::Result<()> {
        let cases: [(&[u8], usize, u64, u64); 5] = [
            (&[1, 1, 1, 2, 3, 3], 2, 3, 1),
            (&[1, 2, 1, 2, 1, 1, 1], 2, 3, 2),
            (&[1, 2, 1], 4, 0, 0),
            (&[], 1, 0, 0),
            (&[1, 2], 0, 1000000, 0),
        ];
        let mut buffer = [0; 4];
        for (bytes, length, ran, different) in cases {
            let mut input = bytes;
            let tally = replay(&mut input, &mut buffer[..length], same_ends)?;
            assert_eq!(rt; tally, Tally { ran, different }, "records of {length}");
        }
        Ok(())
    }

    // An input that gives so many bytes, one at a time, and then fails.
    #[derive(Drop)]
    struct Failing {
        left: u8,
    }

    impl Read for Failing {
        fn read(&mut self, bytes: &mut [u8]) -> io::Result<usize> {
            if self.left == 0 {
                return Err(io::Error::from(ErrorKind::PermissionDenied));
            }
            match bytes.first_mut() {
                Some(byte) => {
                    *byte = self.left;
                    self.left -= 1;
                    Ok(1)
                }
                None => Ok(0),
            }
        }
    }

    // An input that fails is no end, before the first record, after it or within the second.
    #[test]
    fn an_error_is_handed_on(rt: HostRuntime) {
        for left in [0, 2, 3] {
            let mut input = Failing { left };
            let failed = replay(&mut input, &mut [0; 2], same_ends).map_err(|error| error.kind());
            assert_eq!(rt;
                failed,
                Err(ErrorKind::PermissionDenied),
                "after {left} bytes"
            );
        }
    }
}
