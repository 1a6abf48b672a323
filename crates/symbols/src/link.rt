ghost use Rattle.std.specs.Prelude.{◌≡◌, ◌<◌, length, IfOk};
ghost use Rattle.elf_objects.specs.Objects.{ShowsSymbol};
ghost use Rattle.symbols.specs.Wanted.{given_of, entry_name_at};
ghost use Rattle.symbols.specs.Parts.{symbol_at, symbol_count};
ghost use Rattle.symbols.specs.Resolution.{section_place, defined_place, name_place as place_of_name, entry_place as place_of_entry, resolution as resolution_of};
ghost use Rattle.symbols.specs.Names.{IsMeaning, HoldsMeanings};

use crate::meanings::meanings;
use crate::names::{Meaning, Names};
use crate::parts::{kind_of_section, symbol_of};
use crate::place::Place;
use crate::wanted::Wanted;
use elf_objects::{Binding, Objects, SectionKind, SymbolIndex};
use std::alloc::{AllocError, Global};

/// What a link is given, with the table of what every name means.
#[derive(Drop)]
pub(crate) struct Link<'l, 'a> {
    pub(crate) objects: &'l Objects<'a>,
    pub(crate) wanted: &'l Wanted,
    pub(crate) names: Names<'l>,
    ghost meanings: { HoldsMeanings (given_of objects.now wanted.now) names },
}

impl<'l, 'a> Link<'l, 'a> {
    pub(crate) fn new(
        alloc: Global,
        objects: &'l Objects<'a>,
        wanted: &'l Wanted,
    ) -> Result<Link<'l, 'a>, AllocError>
        ensures objects { IfOk result (λ link. link.objects.now ≡ objects.now) }
        ensures wanted { IfOk result (λ link. link.wanted.now ≡ wanted.now) }
    {
        Ok(Link {
            objects,
            wanted,
            names: meanings(alloc, objects, wanted)?,
        })
    }

    /// What a name means.
    pub(crate) fn meaning(&self, name: &[u8]) -> Option<Meaning>
        ensures { IsMeaning (given_of self.now.objects.now self.now.wanted.now) name.now result }
    {
        self.names.get(name)
    }

    /// What a GLOBAL or WEAK symbol of this name stands for.
    #[tactic(auto, unfolding(crate::specs::Resolution::name_place))]
    pub(crate) fn name_place(&self, name: &[u8]) -> Place
        ensures { result ≡ place_of_name (given_of self.now.objects.now self.now.wanted.now) name.now }
    {
        match self.meaning(name) {
            Some(Meaning::Defined { object, number }) => {
                definition_place(self.objects, object, number)
            }
            Some(Meaning::Imported(at)) => Place::Import(at),
            None => Place::Absent,
        }
    }

    /// What the name of an entry stands for, by the entry's number.
    #[tactic(auto, unfolding(crate::specs::Resolution::entry_place))]
    pub(crate) fn entry_place(&self, entry: u32) -> Place
        requires { entry < length self.now.wanted.now.entries }
        ensures { result ≡ place_of_entry (given_of self.now.objects.now self.now.wanted.now) entry }
    {
        match self.meaning(self.wanted.entry_name(entry)) {
            Some(Meaning::Defined { object, number }) => {
                definition_place(self.objects, object, number)
            }
            _ => Place::Absent,
        }
    }

    /// What a symbol of an object stands for.
    #[tactic(auto, unfolding(crate::specs::Resolution::resolution))]
    pub(crate) fn resolution(&self, object: u32, number: u32) -> Place
        requires object { object < length self.now.objects.now }
        requires number { number < symbol_count self.now.objects.now object }
        ensures { result ≡ resolution_of (given_of self.now.objects.now self.now.wanted.now) object number }
    {
        if number == 0 {
            return Place::Number(0);
        }
        let symbol = symbol_of(self.objects, object, number);
        match symbol.binding {
            Binding::Local => place_by_index(self.objects, object, symbol.index, symbol.value),
            Binding::Global | Binding::Weak => self.name_place(symbol.name),
        }
    }
}

/// Where a symbol of an object is defined.
fn definition_place(objects: &Objects<'_>, object: u32, number: u32) -> Place
    requires object { object < length objects.now }
    requires number { number < symbol_count objects.now object }
    ensures { let symbol = symbol_at objects.now object number in result ≡ defined_place objects.now object symbol.index symbol.value }
{
    let symbol = symbol_of(objects, object, number);
    place_by_index(objects, object, symbol.index, symbol.value)
}

/// Where an object's symbol with this index and value is defined.
fn place_by_index(objects: &Objects<'_>, object: u32, index: SymbolIndex, value: u64) -> Place
    requires { object < length objects.now }
    ensures { result ≡ defined_place objects.now object index value }
{
    match index {
        SymbolIndex::Undefined => Place::Absent,
        SymbolIndex::Absolute => Place::Number(value),
        SymbolIndex::Common => Place::Unloaded,
        SymbolIndex::Section(section) => {
            let kind = kind_of_section(objects, object, section);
            place_in_section(kind, object, section, value)
        }
    }
}

/// A place in a section, by what the section is.
fn place_in_section(kind: SectionKind, object: u32, section: u32, offset: u64) -> Place
    ensures { result ≡ section_place kind object section offset }
{
    match kind {
        SectionKind::Code => Place::Code {
            object,
            section,
            offset,
        },
        SectionKind::ReadOnly | SectionKind::Writable | SectionKind::Zero => Place::Bytes {
            object,
            section,
            offset,
        },
        SectionKind::Unloaded => Place::Unloaded,
    }
}
