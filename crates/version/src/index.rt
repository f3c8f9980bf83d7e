// The number of a version.
ghost use Rattle.std.specs.Prelude.{◌≡◌};
ghost use Rattle.version.specs.Index.{is_special};

// A version's number, which is never a symbol's.
#[derive(Clone, Copy, Debug, PartialEq, Eq)]
pub struct VersionIndex(pub u16);

impl VersionIndex {
    // 0 and 1, local and global, name no version.
    pub fn is_special(self) -> bool
        ensures { result ≡ is_special self }
    {
        self.0 <= 1
    }
}
