// One symbol, and what its fields say.
#![tactic(auto)]

ghost use Rattle.std.specs.Prelude.{◌≡◌};
ghost use Rattle.symbol_entry.specs.Entry.{bind_of, type_of, visibility_of, is_undefined, is_common, is_absolute, is_local, is_weak};

// The gABI's special section numbers.
pub const SHN_UNDEF: u16 = 0;

pub const SHN_LORESERVE: u16 = 0xff00;

pub const SHN_ABS: u16 = 0xfff1;

pub const SHN_COMMON: u16 = 0xfff2;

pub const SHN_XINDEX: u16 = 0xffff;

// Its bindings.
pub const STB_LOCAL: u8 = 0;

pub const STB_WEAK: u8 = 2;

// Its types.
pub const STT_NOTYPE: u8 = 0;

pub const STT_OBJECT: u8 = 1;

pub const STT_FUNC: u8 = 2;

// Value and size have 64 bits in either class.
#[derive(Clone, Copy, Debug, PartialEq, Eq)]
pub struct Symbol {
    pub name: u32,
    pub value: u64,
    pub size: u64,
    pub info: u8,
    pub other: u8,
    pub shndx: u16,
}

impl Symbol {
    // Binding: the high half of info.
    pub fn bind(self) -> u8
        ensures { result ≡ bind_of self }
    {
        self.info / 16
    }

    // Type: the low half of info.
    pub fn kind(self) -> u8
        ensures { result ≡ type_of self }
    {
        self.info % 16
    }

    // Visibility: the low two bits of other.
    pub fn visibility(self) -> u8
        ensures { result ≡ visibility_of self }
    {
        self.other % 4
    }

    pub fn is_undefined(self) -> bool
        ensures { result ≡ is_undefined self }
    {
        self.shndx == SHN_UNDEF
    }

    pub fn is_common(self) -> bool
        ensures { result ≡ is_common self }
    {
        self.shndx == SHN_COMMON
    }

    pub fn is_absolute(self) -> bool
        ensures { result ≡ is_absolute self }
    {
        self.shndx == SHN_ABS
    }

    pub fn is_local(self) -> bool
        ensures { result ≡ is_local self }
    {
        self.bind() == STB_LOCAL
    }

    pub fn is_weak(self) -> bool
        ensures { result ≡ is_weak self }
    {
        self.bind() == STB_WEAK
    }
}
