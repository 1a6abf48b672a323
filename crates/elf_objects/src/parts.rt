ghost use Rattle.std.specs.Prelude.{◌≡◌};
ghost use Rattle.elf_objects.specs.Objects.{is_loaded_kind};

/// What a section is to a link.
#[derive(Clone, Copy, Debug, PartialEq, Eq)]
pub enum SectionKind {
    /// Instructions.
    Code,
    /// Data that is only read.
    ReadOnly,
    /// Data that may be written.
    Writable,
    /// Writable data that begins as zeros and has no bytes in the file.
    Zero,
    /// A section that takes no part in the program.
    Unloaded,
}

impl SectionKind {
    /// Whether a section of this kind takes part in the program.
    pub fn is_loaded(self) -> bool
        ensures { result ≡ is_loaded_kind self }
    {
        !matches!(self, SectionKind::Unloaded)
    }
}

/// A section, whose name and content are slices of the file (gABI, "Sections").
#[derive(Clone, Copy, Debug)]
pub struct Section<'a> {
    pub name: &'a [u8],
    pub kind: SectionKind,
    /// The size in memory, in bytes.
    pub size: u64,
    /// The alignment of its address, at least 1; of a section that is loaded a power of two up to 4096.
    pub align: u64,
    /// The section's bytes in the file; none of a section of type NULL or NOBITS.
    pub content: &'a [u8],
}

/// How far a symbol's name reaches (gABI, "Symbol Binding").
#[derive(Clone, Copy, Debug, PartialEq, Eq)]
pub enum Binding {
    Local,
    Global,
    Weak,
}

/// Where a symbol is defined (gABI, "Special Section Indexes").
#[derive(Clone, Copy, Debug, PartialEq, Eq)]
pub enum SymbolIndex {
    Undefined,
    Absolute,
    Common,
    /// In the section with this number.
    Section(u32),
}

/// A symbol, whose name is a slice of the file (gABI, "Symbol Table").
#[derive(Clone, Copy, Debug)]
pub struct Symbol<'a> {
    pub name: &'a [u8],
    pub binding: Binding,
    pub index: SymbolIndex,
    /// An offset in bytes from the start of the symbol's section, or the number of an absolute symbol.
    pub value: u64,
}

/// A relocation of a section (gABI, "Relocation"; psABI, "Relocations").
#[derive(Clone, Copy, Debug, PartialEq, Eq)]
pub struct Relocation {
    /// The place that it changes, in bytes from the start of its section.
    pub offset: u64,
    /// The relocation type's number in the psABI.
    pub kind: u32,
    /// The number of the symbol, 0 for none.
    pub symbol: u32,
    pub addend: i64,
}
