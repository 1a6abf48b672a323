ghost use Rattle.std.specs.Prelude.{◌≡◌, ◌≤◌, ◌<◌, ◌^◌, ℕ, List, [], length, slice_get, Some, None, IfOk, OnOk, IfErr, MatchResult};
ghost use Rattle.std.specs.Result.{result_err};
ghost use Rattle.faults.specs.Present.{first_in};
ghost use Rattle.elf_objects.specs.Objects.{ShowsSection, ShowsSymbol};
ghost use Rattle.elf_objects.specs.Headers.{section_count};
ghost use Rattle.elf_objects.specs.Sections.{symbol_table};
ghost use Rattle.elf_objects.specs.Symbols.{symbol_count, symbol_at};
ghost use Rattle.elf_objects.specs.Relocations.{relocations_for};
ghost use Rattle.elf_objects.specs.FileObject.{section_of, is_compressed, number_or_zero, object_in};
ghost use Rattle.elf_objects.specs.Faults.{faults_of};
ghost use Rattle.elf_objects.specs.FirstFaults.{early_refusal, sections_refusal};
ghost use Rattle.elf_objects.specs.Reading.{Refuses, in_object as fault_in_object};
ghost use Rattle.elf_objects.specs.Keeping.{KeepsSection, KeepsSymbol, KeepsRelocation};
ghost use Rattle.elf_objects.specs.Index.{IsIndexed, LeadsTo};

use crate::fault::{Fault, ObjectFault, Refusal};
use crate::file::File;
use crate::name_index::NameIndex;
use crate::name_rules::check_names;
use crate::parts::{Relocation, Section, Symbol};
use crate::relocation_entry::{RELA_LEN, read_relocation};
use crate::relocation_index::{Part, Row, add_part, empty_rows, part_at};
use crate::relocation_rules::check_relocations;
use crate::section_header::content;
use crate::section_rules::{check_supported, check_tables};
use crate::symbol_rules::check_symbols;
use crate::tables::Tables;
use std::alloc::{AllocError, Global};
use std::marker::Model;

/// The most relocations of an object. Only RELA sections that share bytes can have more than a twentieth of them.
const MAX_RELOCATIONS: u32 = 1 << 24;

/// A file without a fault, with the index of its relocations. Contracts see its bytes.
#[derive(Drop)]
pub struct CheckedFile<'a> {
    tables: Tables<'a>,
    section_names: NameIndex<'a>,
    symbol_names: NameIndex<'a>,
    rows: Vec<Row>,
}

impl<'a> Model for CheckedFile<'a> {
    ghost use Rattle.std.specs.Prelude.{ℕ, List};
    ghost use Rattle.elf_objects.specs.Index.{IsRead};

    ghost Value = { List ℕ };

    ghost view = { λ f. f.tables.file.bytes.now };

    ghost invariant = { λ f.
        let b = f.tables.file.bytes.now in
        IsRead b f.section_names.bytes.now f.symbol_names.bytes.now f.rows.items };
}

impl<'a> CheckedFile<'a> {
    /// Reads the file of the object with a number in the link.
    ///
    /// # Errors
    /// `Bad` with the first fault of the file, and `Memory`.
    pub fn read(alloc: Global, bytes: &'a [u8], index: u32) -> Result<CheckedFile<'a>, ObjectFault>
        requires { length bytes.now ≤ 2 ^ 24 }
        ensures { MatchResult result
            (λ file. (file ≡ bytes.now) × (faults_of bytes.now ≡ []))
            (λ fault. Refuses fault bytes.now index) }
    {
        let tables = check(bytes).map_err(|refusal| in_object(refusal, index))?;
        let rows = relocation_rows(alloc, &tables)?;
        check_rest(&tables).map_err(|refusal| in_object(refusal, index))?;
        Ok(CheckedFile {
            section_names: NameIndex::new(alloc, tables.names.bytes)?,
            symbol_names: NameIndex::new(alloc, tables.entry_names.bytes)?,
            tables,
            rows,
        })
    }

    /// Whether the file may have instructions of 2 bytes: its flags have RVC.
    pub fn compressed(&self) -> bool
        ensures { result ≡ is_compressed self.now }
    {
        self.tables.file.is_compressed()
    }

    /// How many sections there are.
    pub fn sections(&self) -> u32
        ensures { result ≡ section_count self.now }
    {
        self.tables.file.count
    }

    /// A section by its number.
    pub fn section(&self, at: u32) -> Section<'a>
        requires { at < section_count self.now }
        ensures shows { ShowsSection result (section_of self.now at) }
        ensures keeps { KeepsSection result }
    {
        self.tables.section(&self.section_names, at)
    }

    /// How many symbols there are.
    pub fn symbols(&self) -> u32
        ensures { result ≡ symbol_count self.now }
    {
        self.tables.symbol_count()
    }

    /// A symbol by its number.
    pub fn symbol(&self, at: u32) -> Symbol<'a>
        requires { at < symbol_count self.now }
        ensures shows { ShowsSymbol result (symbol_at self.now at) }
        ensures keeps { 0 < at → KeepsSymbol (object_in self.now) result }
    {
        self.tables.symbol(&self.symbol_names, at)
    }

    /// The number of the symbol table, and 0 where there is none.
    pub fn symbol_table(&self) -> u32
        ensures { result ≡ number_or_zero (symbol_table self.now) }
    {
        self.tables.symbols.unwrap_or(0)
    }

    /// How many relocations a section has.
    pub fn relocations(&self, section: u32) -> u32
        requires { section < section_count self.now }
        ensures { result ≡ length (relocations_for self.now section) }
    {
        self.rows[section as usize].total
    }

    /// A relocation of a section by its number in the section.
    pub fn relocation(&self, section: u32, at: u32) -> Relocation
        requires section { section < section_count self.now }
        requires at { at < length (relocations_for self.now section) }
        ensures entry { slice_get (relocations_for self.now section) at ≡ Some result }
        ensures keeps { KeepsRelocation (object_in self.now) section result }
    {
        let part = self.part(section, at);
        let header = self.tables.file.header(part.section);
        let entries = content(self.tables.file.bytes, &header);
        read_relocation(entries, RELA_LEN * (at - part.before) as usize)
    }

    /// The RELA section with a relocation of a section.
    fn part(&self, section: u32, at: u32) -> Part
        requires section { section < section_count self.now }
        requires at { at < length (relocations_for self.now section) }
        ensures { LeadsTo self.now section at result }
    {
        let row = &self.rows[section as usize];
        row.parts[part_at(&row.parts, at)]
    }
}

/// The fault of the object with a number.
fn in_object(refusal: Refusal, index: u32) -> ObjectFault
    ensures exact { result ≡ ObjectFault.Bad (fault_in_object index refusal) }
    ensures refuses { (file : List ℕ) →
        first_in (faults_of file) ≡ Some refusal → Refuses result file index }
{
    ObjectFault::Bad(Fault {
        code: refusal.code,
        object: index,
        section: refusal.section,
        offset: refusal.offset,
    })
}

/// The tables of a file that has no fault but of relocations.
///
/// # Errors
/// The first fault of the file, if it isn't one of relocations.
fn check(bytes: &[u8]) -> Result<Tables<'_>, Refusal>
    requires { length bytes.now ≤ 2 ^ 24 }
    ensures none { OnOk result (early_refusal bytes.now ≡ None) }
    ensures first { IfErr result (λ refusal. first_in (faults_of bytes.now) ≡ Some refusal) }
    ensures lends { IfOk result (λ tables. tables.file.bytes.now ≡ bytes.now) }
{
    check_early(bytes)
}

/// The tables of a file without a fault in its header, its sections, their names and its symbols.
#[tactic(auto, unfolding(crate::specs::FirstFaults::early_refusal))]
fn check_early(bytes: &[u8]) -> Result<Tables<'_>, Refusal>
    requires { length bytes.now ≤ 2 ^ 24 }
    ensures refusal { result_err result ≡ early_refusal bytes.now }
    ensures lends { IfOk result (λ tables. tables.file.bytes.now ≡ bytes.now) }
{
    let tables = Tables::new(File::open(bytes)?);
    check_sections(&tables)?;
    Ok(tables)
}

/// The first fault of a file that has none but of relocations.
#[tactic(auto, using(crate::proofs::Order::order))]
fn check_rest(tables: &Tables<'_>) -> Result<(), Refusal>
    requires { early_refusal tables.now.file.bytes.now ≡ None }
    ensures { result_err result ≡ first_in (faults_of tables.now.file.bytes.now) }
{
    check_relocations(tables)
}

/// The first fault of the sections, their names and their symbols.
#[tactic(auto, unfolding(crate::specs::FirstFaults::sections_refusal))]
fn check_sections(tables: &Tables<'_>) -> Result<(), Refusal>
    ensures { result_err result ≡ sections_refusal tables.now.file.bytes.now }
{
    check_tables(tables)?;
    check_supported(tables)?;
    check_names(tables)?;
    check_symbols(tables)
}

/// The index of the relocations, by the section headers alone. More than `MAX_RELOCATIONS` are refused as memory is.
fn relocation_rows(alloc: Global, tables: &Tables<'_>) -> Result<Vec<Row>, AllocError>
    ensures { let b = tables.now.file.bytes.now in
        IfOk result (λ rows. IsIndexed b rows.items (section_count b)) }
{
    let count = tables.file.count;
    let mut rows = empty_rows(alloc, count)?;
    let mut room = MAX_RELOCATIONS;
    for section in 0..count {
        if tables.is_rela(section) {
            let header = tables.file.header(section);
            let entries = (content(tables.file.bytes, &header).len() / RELA_LEN) as u32;
            room = room.checked_sub(entries).ok_or(AllocError)?;
            add_part(&mut rows, header.info, section, entries)?;
        }
    }
    Ok(rows)
}
