ghost use Rattle.std.specs.Prelude.{◌≡◌, ◌≤◌, ◌+◌, length};
ghost use Rattle.elf_objects.specs.Headers.{header_in};
ghost use Rattle.elf_objects.specs.Contents.{lies_past, bytes_of};

use crate::little_endian::{read_32, read_64};

/// The length of a section header in bytes.
pub const HEADER_LEN: usize = 64;

// The types of sections that matter here.
pub const NULL: u32 = 0;

pub const PROGBITS: u32 = 1;

pub const SYMTAB: u32 = 2;

pub const STRTAB: u32 = 3;

pub const RELA: u32 = 4;

pub const NOTE: u32 = 7;

pub const NOBITS: u32 = 8;

pub const REL: u32 = 9;

pub const GROUP: u32 = 17;

pub const SYMTAB_SHNDX: u32 = 18;

// The flags that are looked at.
pub const WRITE: u64 = 1;

pub const ALLOC: u64 = 2;

pub const EXECINSTR: u64 = 4;

pub const TLS: u64 = 0x400;

pub const COMPRESSED: u64 = 0x800;

/// The fields of a section header that are looked at (gABI, "Section Header Table").
#[derive(Clone, Copy, Debug)]
pub struct SectionHeader {
    /// The place of the name in the names of sections, in bytes.
    pub name: u32,
    /// The type's number.
    pub kind: u32,
    pub flags: u64,
    /// Where the section's bytes begin, in bytes from the start of the file.
    pub offset: u64,
    /// In bytes.
    pub size: u64,
    /// The number of a section that this one needs: of a table of symbols its names, of relocations their symbols.
    pub link: u32,
    /// Of a RELA section the number of the section that it changes.
    pub info: u32,
    pub align: u64,
    /// The size of an entry of a table, in bytes.
    pub entry_size: u64,
}

/// The section header at an offset.
#[tactic(auto, unfolding(crate::specs::Headers::header_in))]
pub fn read_header(bytes: &[u8], at: usize) -> SectionHeader
    requires { at + 64 ≤ length bytes.now }
    ensures { result ≡ header_in bytes.now at }
{
    SectionHeader {
        name: read_32(bytes, at),
        kind: read_32(bytes, at + 4),
        flags: read_64(bytes, at + 8),
        offset: read_64(bytes, at + 24),
        size: read_64(bytes, at + 32),
        link: read_32(bytes, at + 40),
        info: read_32(bytes, at + 44),
        align: read_64(bytes, at + 48),
        entry_size: read_64(bytes, at + 56),
    }
}

/// Whether some byte of a section lies past the file.
pub fn lies_past(bytes: &[u8], header: &SectionHeader) -> bool
    ensures { result ≡ lies_past bytes.now header.now }
{
    let len = bytes.len() as u64;
    header.size != 0 && (len < header.size || len - header.size < header.offset)
}

/// The bytes of a section, none where some lie past the file.
#[tactic(auto, unfolding(crate::specs::Contents::bytes_of))]
pub fn content<'a>(bytes: &'a [u8], header: &SectionHeader) -> &'a [u8]
    ensures bytes { result.now ≡ bytes_of bytes.now header.now }
    ensures within { length result.now ≤ length bytes.now }
{
    if header.size == 0 || lies_past(bytes, header) {
        return &[];
    }
    let start = header.offset as usize;
    &bytes[start..start + header.size as usize]
}
