ghost use Rattle.std.specs.Prelude.{◌≡◌, ◌≤◌, ◌<◌, length, IfSome, codes};
ghost use Rattle.elf_objects.specs.Headers.{section_count};
ghost use Rattle.elf_objects.specs.Contents.{name_begins, section_names};
ghost use Rattle.elf_objects.specs.Sections.{loaded_kind, section_kind, symbol_table, is_loaded, is_symbol_table};
ghost use Rattle.elf_objects.specs.Symbols.{HasTables, symbol_names, bytes_of_some, bytes_of_link, symbol_entry_count, symbol_entry, symbol_count, symbol_at};
ghost use Rattle.elf_objects.specs.Relocations.{is_rela};
ghost use Rattle.elf_objects.specs.FileObject.{section_of};
ghost use Rattle.elf_objects.specs.Objects.{ShowsSection, ShowsSymbol};

use crate::file::File;
use crate::name_index::NameIndex;
use crate::parts::{Binding, Section, SectionKind, Symbol, SymbolIndex};
use crate::section_header::{
    ALLOC, EXECINSTR, NOBITS, NULL, PROGBITS, RELA, SYMTAB, SectionHeader, WRITE, content,
};
use crate::string_table::StringTable;
use crate::symbol_entry::{SYMBOL_LEN, SymbolEntry, binding_of, index_of, read_symbol};

/// The prefix of the names of sections with unwind information.
const UNWINDING: &[u8; 9] = b".eh_frame";

/// A file with its tables at hand: the names of sections, the symbols and their names. Where a table isn't there, or
/// lies past the file, it is empty, so that each rule can be asked of each file.
#[derive(Clone, Copy, Debug)]
pub struct Tables<'a> {
    pub file: File<'a>,
    /// The names of sections.
    pub names: StringTable<'a>,
    /// The number of the symbol table.
    pub symbols: Option<u32>,
    /// The entries of the symbol table.
    pub entries: &'a [u8],
    /// The names of symbols.
    pub entry_names: StringTable<'a>,
    pub ghost has_tables: { HasTables file.bytes.now names.bytes.now symbols entries.now entry_names.bytes.now },
}

impl<'a> Tables<'a> {
    /// Finds the tables of a file.
    pub fn new(file: File<'a>) -> Tables<'a>
        ensures { result.file.bytes.now ≡ file.entry.bytes.now }
    {
        let named = file.header(file.name_section());
        let symbols = symbol_table(&file);
        Tables {
            file,
            names: StringTable::new(content(file.bytes, &named)),
            symbols,
            entries: symbol_entries(&file, symbols),
            entry_names: StringTable::new(symbol_names(&file, symbols)),
        }
    }

    /// Whether the name of the section with a header begins with `.eh_frame`.
    pub fn is_unwinding(&self, header: &SectionHeader) -> bool
        ensures { let names = section_names self.now.file.bytes.now in
            result ≡ name_begins names header.now.name (codes ".eh_frame") }
    {
        self.names.begins(header.name, UNWINDING)
    }

    /// Whether a section is loaded.
    #[tactic(auto, unfolding(crate::specs::Sections::is_loaded, crate::specs::Sections::is_unwinding))]
    pub fn is_loaded(&self, section: u32) -> bool
        requires { section < section_count self.now.file.bytes.now }
        ensures { result ≡ is_loaded self.now.file.bytes.now section }
    {
        let header = self.file.header(section);
        header.flags & ALLOC != 0
            && (header.kind == PROGBITS || header.kind == NOBITS)
            && !self.is_unwinding(&header)
    }

    /// Whether a section is the symbol table.
    pub fn is_symbol_table(&self, section: u32) -> bool
        ensures { result ≡ is_symbol_table self.now.file.bytes.now section }
    {
        self.symbols == Some(section)
    }

    /// Whether a section is a RELA section for a loaded section.
    #[tactic(auto, unfolding(crate::specs::Relocations::is_rela))]
    pub fn is_rela(&self, section: u32) -> bool
        requires { section < section_count self.now.file.bytes.now }
        ensures { result ≡ is_rela self.now.file.bytes.now section }
    {
        let header = self.file.header(section);
        header.kind == RELA && header.info < self.file.count && self.is_loaded(header.info)
    }

    /// How many entries the symbol table has.
    pub fn entry_count(&self) -> u32
        ensures { result ≡ symbol_entry_count self.now.file.bytes.now }
    {
        (self.entries.len() / SYMBOL_LEN) as u32
    }

    /// The entry of a symbol.
    #[tactic(auto, unfolding(crate::specs::Symbols::symbol_entry))]
    pub fn entry(&self, at: u32) -> SymbolEntry
        requires { at < symbol_entry_count self.now.file.bytes.now }
        ensures { result ≡ symbol_entry self.now.file.bytes.now at }
    {
        read_symbol(self.entries, SYMBOL_LEN * at as usize)
    }

    /// What a section is.
    #[tactic(auto, unfolding(crate::specs::Sections::section_kind))]
    fn kind(&self, section: u32) -> SectionKind
        requires { section < section_count self.now.file.bytes.now }
        ensures { result ≡ section_kind self.now.file.bytes.now section }
    {
        if self.is_loaded(section) {
            loaded_kind(&self.file.header(section))
        } else {
            SectionKind::Unloaded
        }
    }

    /// A section, by the index of the names of sections.
    #[tactic(auto, unfolding(crate::specs::FileObject::section_of))]
    pub fn section(&self, names: &NameIndex<'a>, at: u32) -> Section<'a>
        requires names { names.now.bytes.now ≡ section_names self.now.file.bytes.now }
        requires at { at < section_count self.now.file.bytes.now }
        ensures { ShowsSection result (section_of self.now.file.bytes.now at) }
    {
        let header = self.file.header(at);
        Section {
            name: names.name(header.name),
            kind: self.kind(at),
            size: header.size,
            align: if header.align == 0 { 1 } else { header.align },
            content: if header.kind == NULL || header.kind == NOBITS {
                &[]
            } else {
                content(self.file.bytes, &header)
            },
        }
    }

    /// How many symbols there are.
    #[tactic(auto, unfolding(crate::specs::Symbols::symbol_count))]
    pub fn symbol_count(&self) -> u32
        ensures { result ≡ symbol_count self.now.file.bytes.now }
    {
        match self.symbols {
            Some(_) => self.entry_count(),
            None => 1,
        }
    }

    /// A symbol, by the index of the names of symbols.
    #[tactic(auto, unfolding(crate::specs::Symbols::symbol_at, crate::specs::Symbols::symbol_count))]
    pub fn symbol(&self, names: &NameIndex<'a>, at: u32) -> Symbol<'a>
        requires names { names.now.bytes.now ≡ symbol_names self.now.file.bytes.now }
        requires at { at < symbol_count self.now.file.bytes.now }
        ensures { ShowsSymbol result (symbol_at self.now.file.bytes.now at) }
    {
        if self.symbols.is_none() {
            return Symbol {
                name: &[],
                binding: Binding::Local,
                index: SymbolIndex::Undefined,
                value: 0,
            };
        }
        let entry = self.entry(at);
        Symbol {
            name: names.name(entry.name),
            binding: binding_of(entry.info),
            index: index_of(entry.index),
            value: entry.value,
        }
    }
}

/// What a loaded section is.
fn loaded_kind(header: &SectionHeader) -> SectionKind
    ensures { result ≡ loaded_kind header.now }
{
    if header.flags & EXECINSTR != 0 {
        SectionKind::Code
    } else if header.flags & WRITE == 0 {
        SectionKind::ReadOnly
    } else if header.kind == PROGBITS {
        SectionKind::Writable
    } else {
        SectionKind::Zero
    }
}

/// The number of the symbol table, the first section of its type.
fn symbol_table(file: &File<'_>) -> Option<u32>
    ensures first { result ≡ symbol_table file.now.bytes.now }
    ensures within { IfSome result (λ section. section < section_count file.now.bytes.now) }
{
    for section in 0..file.count {
        if file.header(section).kind == SYMTAB {
            return Some(section);
        }
    }
    None
}

/// The bytes of a symbol table.
fn symbol_entries<'a>(file: &File<'a>, symbols: Option<u32>) -> &'a [u8]
    requires { IfSome symbols (λ section. section < section_count file.now.bytes.now) }
    ensures bytes { result.now ≡ bytes_of_some file.now.bytes.now symbols }
    ensures within { length result.now ≤ length file.now.bytes.now }
{
    match symbols {
        Some(section) => content(file.bytes, &file.header(section)),
        None => &[],
    }
}

/// The bytes of the section, if there is one, to which a symbol table links.
fn symbol_names<'a>(file: &File<'a>, symbols: Option<u32>) -> &'a [u8]
    requires { IfSome symbols (λ section. section < section_count file.now.bytes.now) }
    ensures bytes { result.now ≡ bytes_of_link file.now.bytes.now symbols }
    ensures within { length result.now ≤ length file.now.bytes.now }
{
    let Some(section) = symbols else {
        return &[];
    };
    let link = file.header(section).link;
    if link < file.count {
        content(file.bytes, &file.header(link))
    } else {
        &[]
    }
}
