// What the fields of a found symbol say against signing an import.
#![tactic(auto)]

ghost use Rattle.std.specs.Prelude.{◌≡◌};
ghost use Rattle.marks_entry.specs.Marks.{is_hidden, entry_marks, any_entry_mark};

use symbol_entry::Symbol;

// The gABI's visibilities by which no other file sees a symbol, and GNU's type of a routine that is
// chosen when the program starts.
pub const STV_INTERNAL: u8 = 1;

pub const STV_HIDDEN: u8 = 2;

pub const STT_GNU_IFUNC: u8 = 10;

#[derive(Clone, Copy, Debug, Default, PartialEq, Eq)]
pub struct EntryMarks {
    pub undefined: bool,
    pub local: bool,
    pub hidden: bool,
    pub ifunc: bool,
}

impl EntryMarks {
    // Whether one of them holds.
    pub fn any(self) -> bool
        ensures { result ≡ any_entry_mark self }
    {
        self.undefined || self.local || self.hidden || self.ifunc
    }
}

fn is_hidden(visibility: u8) -> bool
    ensures { result ≡ is_hidden visibility }
{
    visibility == STV_INTERNAL || visibility == STV_HIDDEN
}

pub fn entry_marks(symbol: Symbol) -> EntryMarks
    ensures { result ≡ entry_marks symbol }
{
    EntryMarks {
        undefined: symbol.is_undefined(),
        local: symbol.is_local(),
        hidden: is_hidden(symbol.visibility()),
        ifunc: symbol.kind() == STT_GNU_IFUNC,
    }
}
