ghost use Rattle.std.specs.Prelude.{◌≡◌, ◌≤◌, ◌+◌, length};
ghost use Rattle.elf_objects.specs.Symbols.{symbol_entry_in, binding_of, index_of};

use crate::little_endian::{read_16, read_32, read_64};
use crate::parts::{Binding, SymbolIndex};

/// The length of an entry of a symbol table in bytes.
pub const SYMBOL_LEN: usize = 24;

/// The fields of a symbol's entry that are looked at (gABI, "Symbol Table").
#[derive(Clone, Copy, Debug)]
pub struct SymbolEntry {
    /// The place of the name in the names of symbols, in bytes.
    pub name: u32,
    /// The binding in the upper four bits, and the type in the lower.
    pub info: u8,
    /// The number of the symbol's section, or a special one.
    pub index: u16,
    pub value: u64,
}

/// The entry at an offset.
#[tactic(auto, unfolding(crate::specs::Symbols::symbol_entry_in))]
pub fn read_symbol(entries: &[u8], at: usize) -> SymbolEntry
    requires { at + 24 ≤ length entries.now }
    ensures { result ≡ symbol_entry_in entries.now at }
{
    SymbolEntry {
        name: read_32(entries, at),
        info: entries[at + 4],
        index: read_16(entries, at + 6),
        value: read_64(entries, at + 8),
    }
}

/// The binding that a symbol's info has.
pub fn binding_of(info: u8) -> Binding
    ensures { result ≡ binding_of info }
{
    match info / 16 {
        1 => Binding::Global,
        2 => Binding::Weak,
        _ => Binding::Local,
    }
}

/// Where a symbol is defined, by its index.
pub fn index_of(index: u16) -> SymbolIndex
    ensures { result ≡ index_of index }
{
    match index {
        0 => SymbolIndex::Undefined,
        0xfff1 => SymbolIndex::Absolute,
        0xfff2 => SymbolIndex::Common,
        section => SymbolIndex::Section(u32::from(section)),
    }
}
