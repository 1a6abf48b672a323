//! The relocations of all sections by their offsets, so that those at an offset are found without a scan of the table, and
//! the words of code, so that each is decoded once.

ghost use Rattle.std.specs.Prelude.{◌≡◌, ℕ, ◌<◌, ◌≤◌, ◌+◌, length, slice_get, Some, IfOk, IfSome};
ghost use Rattle.std.specs.List.{filter};
ghost use Rattle.elf_objects.specs.declared.parts.Relocation.{Relocation as TheRelocation};
ghost use Rattle.elf_objects.specs.Objects.{relocations_of};
ghost use Rattle.symbols.specs.Laws.{HasSection};
ghost use Rattle.symbols.specs.Parts.{object_at};
ghost use Rattle.relocs.specs.Pairs.{relocation_is_at, has_call as has_the_call};
ghost use Rattle.relocs.specs.ByOffset.{is_at, AreNamed, IsRow, IsRowOf, IsCodeOf, IsCodeIn, HasParts, HasRows, HasTables, code_of, kept_word};
ghost use Rattle.relocs.specs.Sites.{HasSize, found_of};
ghost use Rattle.relocs.specs.Words.{word_in, decoded};

use crate::code_words::code_words;
use crate::found::Found;
use crate::rows::{at_offset, at_offset_in, calls_of, highs_of, row_of, starts_of};
use crate::sites::operation;
use elf_objects::{Object, Objects, Relocation, SectionKind};
use rv_decode::{RvOp, WordFault};
use std::alloc::{AllocError, Global};
use std::marker::Model;

/// The relocations of a section by offset, those of them that are a CALL and those that give an `auipc` its value, how many are
/// before each word, and of a code section the words and the size in bytes.
#[derive(Drop)]
pub(crate) struct Row {
    relocations: Vec<Relocation>,
    calls: Vec<Relocation>,
    highs: Vec<Relocation>,
    starts: Vec<usize>,
    words: Vec<Result<RvOp, WordFault>>,
    size: usize,
}

impl Model for Row {
    ghost use Rattle.relocs.specs.ByOffset.{Row as TheRow};

    ghost Value = { TheRow };

    ghost view = { λ r. record { relocations = r.relocations.items; calls = r.calls.items; highs = r.highs.items; starts = r.starts.items; words = r.words.items; size = r.size } };
}

impl Row {
    fn new(alloc: Global, object: &Object<'_>, section: u32) -> Result<Row, AllocError>
        requires { section < length object.now.sections }
        ensures { IfOk result (IsRowOf object.now section) }
    {
        let (words, size) = code(alloc, object, section)?;
        let relocations = row_of(alloc, object, section)?;
        let calls = calls_of(alloc, &relocations)?;
        let highs = highs_of(alloc, &relocations)?;
        let starts = starts_of(alloc, &relocations, words.len())?;
        Ok(Row {
            relocations,
            calls,
            highs,
            starts,
            words,
            size,
        })
    }

    #[inline(always)]
    fn at(&self, offset: u64) -> &[Relocation]
        requires { HasParts self.now }
        ensures { result.now ≡ filter (is_at offset) self.now.relocations }
    {
        let to = self.end(offset);
        at_offset_in(&self.relocations, offset, self.start(offset).min(to), to)
    }

    fn relocations(&self) -> &[Relocation]
        ensures { result.now ≡ self.now.relocations }
    {
        &self.relocations
    }

    /// A number of relocations before an offset, of which there may be more in its word.
    #[inline(always)]
    fn start(&self, offset: u64) -> usize
        requires { HasParts self.now }
        ensures { (k : ℕ) (r : TheRelocation) → k < result → slice_get self.now.relocations k ≡ Some r → r.offset < offset }
    {
        match self.starts.get((offset / 4) as usize) {
            Some(start) => *start,
            None => 0,
        }
    }

    /// A number of relocations with those at an offset or before it among them.
    #[inline(always)]
    fn end(&self, offset: u64) -> usize
        requires { HasParts self.now }
        ensures within { result ≤ length self.now.relocations }
        ensures after { (k : ℕ) (r : TheRelocation) → result ≤ k → slice_get self.now.relocations k ≡ Some r → offset + 1 ≤ r.offset }
    {
        match self.starts.get((offset / 4 + 1) as usize) {
            Some(end) => *end,
            None => self.relocations.len(),
        }
    }

    #[inline(always)]
    fn found(&self, offset: u64) -> Found
        requires { HasParts self.now }
        ensures { result ≡ found_of (filter (is_at offset) self.now.relocations) }
    {
        let row = self.at(offset);
        if row.len() < 2 {
            Found::of_few(row)
        } else {
            self.found_among(row, offset)
        }
    }

    /// The same of those that are at the offset, which may be many.
    fn found_among(&self, row: &[Relocation], offset: u64) -> Found
        requires parts { HasParts self.now }
        requires row { row.now ≡ filter (is_at offset) self.now.relocations }
        ensures { result ≡ found_of row.now }
    {
        Found::of(
            row,
            at_offset(&self.calls, offset),
            at_offset(&self.highs, offset),
        )
    }

    #[inline(always)]
    fn word(&self, offset: u64) -> Option<Result<RvOp, WordFault>>
        ensures { result ≡ kept_word self.now.words offset }
    {
        let at = (offset / 4) as usize;
        if offset % 4 == 0 && at < self.words.len() {
            Some(self.words[at])
        } else {
            None
        }
    }

    #[inline(always)]
    fn size(&self) -> usize
        ensures { result ≡ self.now.size }
    {
        self.size
    }
}

/// The words of a section and its size in bytes, where it is code.
fn code(
    alloc: Global,
    object: &Object<'_>,
    section: u32,
) -> Result<(Vec<Result<RvOp, WordFault>>, usize), AllocError>
    requires { section < length object.now.sections }
    ensures { IfOk result (λ found. IsCodeOf object.now section found.0.items found.1) }
{
    let part = object.section(section);
    match part.kind {
        SectionKind::Code => Ok((code_words(alloc, part.content)?, part.content.len())),
        SectionKind::ReadOnly | SectionKind::Writable | SectionKind::Zero | SectionKind::Unloaded =>
            Ok((Vec::new(alloc), 0)),
    }
}

/// Those of the sections of an object.
#[derive(Drop)]
pub(crate) struct Rows {
    rows: Vec<Row>,
}

impl Model for Rows {
    ghost use Rattle.std.specs.Prelude.{List};
    ghost use Rattle.relocs.specs.ByOffset.{Row as TheRow};

    ghost Value = { List TheRow };

    ghost view = { λ r. r.rows.items };
}

impl Rows {
    fn new(alloc: Global, object: &Object<'_>) -> Result<Rows, AllocError>
        ensures { IfOk result (HasRows object.now) }
    {
        let mut rows = Vec::with_capacity(alloc, object.sections() as usize)?;
        for section in 0..object.sections() {
            rows.push(Row::new(alloc, object, section)?)?;
        }
        Ok(Rows { rows })
    }

    #[inline(always)]
    fn row(&self, section: u32) -> &Row
        requires { section < length self.now }
        ensures { slice_get self.now section ≡ Some result.now }
    {
        &self.rows[section as usize]
    }
}

/// The relocations of all sections of a link by offset: an index of those at an offset. And the words of its code.
#[derive(Drop)]
pub struct Tables {
    tables: Vec<Rows>,
}

impl Model for Tables {
    ghost use Rattle.std.specs.Prelude.{List};
    ghost use Rattle.relocs.specs.ByOffset.{Row as TheRow};

    ghost Value = { List (List TheRow) };

    ghost view = { λ t. t.tables.items };
}

impl Tables {
    /// The index of the objects' relocations.
    pub fn new(alloc: Global, objects: &Objects<'_>) -> Result<Tables, AllocError>
        ensures { IfOk result (HasTables objects.now) }
    {
        let mut tables = Vec::with_capacity(alloc, objects.len() as usize)?;
        for object in 0..objects.len() {
            tables.push(Rows::new(alloc, objects.object(object))?)?;
        }
        Ok(Tables { tables })
    }

    /// The relocations at an offset of a section that change something, in table order.
    #[inline(always)]
    pub fn at(&self, objects: &Objects<'_>, object: u32, section: u32, offset: u64) -> &[Relocation]
        requires tables { HasTables objects.now self.now }
        requires section { HasSection objects.now object section }
        ensures at { result.now ≡ filter (relocation_is_at offset) (relocations_of (object_at objects.now object) section) }
        ensures named { AreNamed (object_at objects.now object) result.now }
    {
        self.rows(object).row(section).at(offset)
    }

    /// A summary of them.
    #[inline(always)]
    pub(crate) fn found(
        &self,
        objects: &Objects<'_>,
        object: u32,
        section: u32,
        offset: u64,
    ) -> Found
        requires tables { HasTables objects.now self.now }
        requires section { HasSection objects.now object section }
        ensures found { result ≡ found_of (filter (relocation_is_at offset) (relocations_of (object_at objects.now object) section)) }
        ensures named { IfSome result.high (λ r. r.symbol < length (object_at objects.now object).symbols) }
    {
        self.rows(object).row(section).found(offset)
    }

    /// Whether a CALL is among them.
    pub fn has_call(&self, objects: &Objects<'_>, object: u32, section: u32, offset: u64) -> bool
        requires tables { HasTables objects.now self.now }
        requires section { HasSection objects.now object section }
        ensures { result ≡ has_the_call (filter (relocation_is_at offset) (relocations_of (object_at objects.now object) section)) }
    {
        self.found(objects, object, section, offset).call
    }

    /// The relocations of a section that change something, by offset.
    pub fn row(&self, objects: &Objects<'_>, object: u32, section: u32) -> &[Relocation]
        requires tables { HasTables objects.now self.now }
        requires section { HasSection objects.now object section }
        ensures { IsRow (relocations_of (object_at objects.now object) section) result.now }
    {
        self.rows(object).row(section).relocations()
    }

    /// What the word at an offset of a code section is, where the offset can be a place.
    #[inline(always)]
    pub(crate) fn word(
        &self,
        objects: &Objects<'_>,
        object: u32,
        section: u32,
        offset: u64,
    ) -> Option<Result<RvOp, WordFault>>
        requires tables { HasTables objects.now self.now }
        requires code { IsCodeIn objects.now object section }
        ensures { result ≡ word_in (code_of (object_at objects.now object) section) offset }
    {
        self.rows(object).row(section).word(offset)
    }

    /// The operation at an offset of a code section, before relocation.
    #[inline(always)]
    pub fn op(&self, objects: &Objects<'_>, object: u32, section: u32, offset: u64) -> Option<RvOp>
        requires tables { HasTables objects.now self.now }
        requires code { IsCodeIn objects.now object section }
        ensures { result ≡ decoded (word_in (code_of (object_at objects.now object) section) offset) }
    {
        operation(self.word(objects, object, section, offset))
    }

    /// The number of bytes of a code section.
    #[inline(always)]
    pub fn size(&self, objects: &Objects<'_>, object: u32, section: u32) -> usize
        requires tables { HasTables objects.now self.now }
        requires code { IsCodeIn objects.now object section }
        ensures { HasSize (code_of (object_at objects.now object) section) result }
    {
        self.rows(object).row(section).size()
    }

    #[inline(always)]
    fn rows(&self, object: u32) -> &Rows
        requires { object < length self.now }
        ensures { slice_get self.now object ≡ Some result.now }
    {
        &self.tables[object as usize]
    }
}
