ghost use Rattle.std.specs.Prelude.{◌≡◌, ◌≤◌, ◌<◌, ◌^◌, length, slice_get, Some, MatchResult, IsSomeAnd};
ghost use Rattle.elf_objects.specs.Objects.{relocations_of, ShowsSection, ShowsSymbol};
ghost use Rattle.elf_objects.specs.Reading.{object_of, Refuses};
ghost use Rattle.elf_objects.specs.Keeping.{KeepsSection, KeepsSymbol, KeepsRelocation};

use crate::checked_file::CheckedFile;
use crate::fault::ObjectFault;
use crate::parts::{Relocation, Section, Symbol};
use std::alloc::Global;
use std::marker::Model;

/// A relocatable object, whose parts are slices of the bytes of its file.
#[derive(Drop)]
pub struct Object<'a> {
    file: CheckedFile<'a>,
}

impl<'a> Model for Object<'a> {
    ghost use Rattle.elf_objects.specs.Objects.{Object as TheObject};
    ghost use Rattle.elf_objects.specs.FileObject.{object_in};

    ghost Value = { TheObject };

    ghost view = { λ o. object_in o.file };
}

impl<'a> Object<'a> {
    /// Reads the object with a number in the link. The file has at most 2^24 bytes. It is read a few times, and nothing
    /// of it is copied: an object takes less than 100 bytes for each section, and a sixteenth of its names.
    ///
    /// # Errors
    /// `Bad` with the first fault of the file, of code 1 to 8, exactly where it has one; and `Memory`, also where
    /// sections of relocations that share bytes give one section 2^32 relocations or more.
    pub fn read(alloc: Global, bytes: &'a [u8], index: u32) -> Result<Object<'a>, ObjectFault>
        requires { length bytes.now ≤ 2 ^ 24 }
        ensures { MatchResult result
            (λ object. object_of bytes.now ≡ Some object)
            (λ fault. Refuses fault bytes.now index) }
    {
        Ok(Object {
            file: CheckedFile::read(alloc, bytes, index)?,
        })
    }

    /// Whether the object may have instructions of 2 bytes: its flags have RVC.
    pub fn compressed(&self) -> bool
        ensures { result ≡ self.now.compressed }
    {
        self.file.compressed()
    }

    /// How many sections there are.
    pub fn sections(&self) -> u32
        ensures { result ≡ length self.now.sections }
    {
        self.file.sections()
    }

    /// A section by its number. Its name and content are the file's bytes at their ranges.
    pub fn section(&self, at: u32) -> Section<'a>
        requires { at < length self.now.sections }
        ensures shows { IsSomeAnd (slice_get self.now.sections at) (ShowsSection result) }
        ensures keeps { KeepsSection result }
    {
        self.file.section(at)
    }

    /// How many symbols there are, the null symbol counted.
    pub fn symbols(&self) -> u32
        ensures { result ≡ length self.now.symbols }
    {
        self.file.symbols()
    }

    /// A symbol by its number. Its name is the file's bytes at their range. The null symbol may have any fields.
    pub fn symbol(&self, at: u32) -> Symbol<'a>
        requires { at < length self.now.symbols }
        ensures shows { IsSomeAnd (slice_get self.now.symbols at) (ShowsSymbol result) }
        ensures keeps { 0 < at → KeepsSymbol self.now result }
    {
        self.file.symbol(at)
    }

    /// The number of the section with the symbol table, and 0 where there is none.
    pub fn symbol_table(&self) -> u32
        ensures { result ≡ self.now.symbol_table }
    {
        self.file.symbol_table()
    }

    /// How many relocations a section has, none where it isn't loaded.
    pub fn relocations(&self, section: u32) -> u32
        requires { section < length self.now.sections }
        ensures { result ≡ length (relocations_of self.now section) }
    {
        self.file.relocations(section)
    }

    /// A relocation of a section by its number in the section.
    pub fn relocation(&self, section: u32, at: u32) -> Relocation
        requires section { section < length self.now.sections }
        requires at { at < length (relocations_of self.now section) }
        ensures entry { slice_get (relocations_of self.now section) at ≡ Some result }
        ensures keeps { KeepsRelocation self.now section result }
    {
        self.file.relocation(section, at)
    }
}
