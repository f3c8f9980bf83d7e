// One segment, and what its fields say.
#![tactic(auto)]

ghost use Rattle.std.specs.Prelude.{◌≡◌};
ghost use Rattle.segment_entry.specs.Entry.{permissions_of, kind_of};
ghost use Rattle.segment_entry.specs.FileRange.{file_range};

// The gABI's segment types.
pub const PT_LOAD: u32 = 1;

pub const PT_DYNAMIC: u32 = 2;

pub const PT_INTERP: u32 = 3;

pub const PT_NOTE: u32 = 4;

// A program header. Offsets, addresses and sizes have 64 bits in either class.
#[derive(Clone, Copy, Debug, PartialEq, Eq)]
pub struct Segment {
    pub kind: u32,
    pub flags: u32,
    pub offset: u64,
    pub vaddr: u64,
    pub paddr: u64,
    pub filesz: u64,
    pub memsz: u64,
    pub align: u64,
}

// Where a segment says that its bytes stand in the file.
#[derive(Clone, Copy, Debug, PartialEq, Eq)]
pub struct FileRange {
    pub offset: u64,
    pub size: u64,
}

// What a program may do with a segment in memory.
#[derive(Clone, Copy, Debug, PartialEq, Eq)]
pub struct Permissions {
    pub readable: bool,
    pub writable: bool,
    pub executable: bool,
}

// The types that this crate tells apart.
#[derive(Clone, Copy, Debug, PartialEq, Eq)]
pub enum SegmentKind {
    Load,
    Dynamic,
    Interpreter,
    Note,
    Other,
}

impl Segment {
    // Offset and size in the file, as they stand in the record: no file is looked at.
    pub fn file_range(self) -> FileRange
        ensures { result ≡ file_range self }
    {
        FileRange {
            offset: self.offset,
            size: self.filesz,
        }
    }

    // The bits PF_R, PF_W and PF_X of flags: 4, 2 and 1.
    pub fn permissions(self) -> Permissions
        ensures { result ≡ permissions_of self }
    {
        Permissions {
            readable: self.flags / 4 % 2 == 1,
            writable: self.flags / 2 % 2 == 1,
            executable: self.flags % 2 == 1,
        }
    }

    pub fn known_kind(self) -> SegmentKind
        ensures { result ≡ kind_of self }
    {
        match self.kind {
            PT_LOAD => SegmentKind::Load,
            PT_DYNAMIC => SegmentKind::Dynamic,
            PT_INTERP => SegmentKind::Interpreter,
            PT_NOTE => SegmentKind::Note,
            _ => SegmentKind::Other,
        }
    }
}
