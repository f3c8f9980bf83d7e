// The marks of an import: what is against signing it, beside the answer of its lookup. No answer moves
// by them.
#![tactic(auto)]

ghost use Rattle.std.specs.Prelude.{◌≡◌};
ghost use Rattle.marks.specs.Marks.{marks_by, marks_for, marks_of, any_mark};

use definitions::{Searched, Which, definitions_of};
use endian::refusals::Refusal;
use lookup::Lookup;
use marks_entry::{EntryMarks, entry_marks};
use symbol::table::symbol_at;
use version_match::Need;

// Several: no version is stated, and the library holds more than one definition of the name.
// Unversioned: a version is stated, and the library holds a definition of the name without one.
// Unfound: nothing is found, while the library holds a definition of the name.
#[derive(Clone, Copy, Debug, PartialEq, Eq)]
pub struct Marks {
    pub several: bool,
    pub unversioned: bool,
    pub unfound: bool,
    pub found: EntryMarks,
}

impl Marks {
    // Whether the line is not to be signed.
    pub fn any(self) -> bool
        ensures { result ≡ any_mark self }
    {
        self.several || self.unversioned || self.unfound || self.found.any()
    }
}

fn marks_by(
    need: Need,
    definitions: u32,
    unversioned: u32,
    unfound: bool,
    found: EntryMarks,
) -> Marks
    ensures { result ≡ marks_by need definitions unversioned unfound found }
{
    match need {
        Need::Any => Marks {
            several: 1 < definitions,
            unversioned: false,
            unfound,
            found,
        },
        Need::Hash(_) => Marks {
            several: false,
            unversioned: 0 < unversioned,
            unfound,
            found,
        },
    }
}

// The marks of an answer, of a name with so many definitions, and so many without a version.
fn marks_for(
    searched: Searched,
    need: Need,
    definitions: u32,
    unversioned: u32,
    answer: Result<Lookup, Refusal>,
) -> Result<Marks, Refusal>
    ensures { result
        ≡ marks_for searched.entry.class searched.entry.order searched.entry.symbols.now
        need definitions unversioned answer }
{
    match answer?.symbol {
        Some(symbol) => {
            let entry = symbol_at(searched.class, searched.order, searched.symbols, symbol)?;
            Ok(marks_by(need, definitions, unversioned, false, entry_marks(entry)))
        }
        None => Ok(marks_by(
            need,
            definitions,
            unversioned,
            0 < definitions,
            EntryMarks::default(),
        )),
    }
}

// The marks of an import, by the name, the need and the answer of its lookup. Refused in this order: a
// part or a name that is too long; as the lookup was; a found number that no symbol has.
pub fn marks_of(
    searched: Searched,
    need: Need,
    answer: Result<Lookup, Refusal>,
) -> Result<Marks, Refusal>
    ensures { result
        ≡ marks_of searched.entry.class searched.entry.order searched.entry.symbols.now
        searched.entry.strings.now searched.entry.versyms.now searched.entry.name.now
        need answer }
{
    let definitions = definitions_of(searched, Which::All)?;
    let unversioned = definitions_of(searched, Which::Unversioned)?;
    marks_for(searched, need, definitions, unversioned, answer)
}
