//! The faults of the relocations of data.

ghost use Rattle.std.specs.Prelude.{◌≡◌, ◌<◌, ◌^◌, ◌+◌, ◌-ℤ◌, pos, true, length, slice_get, Some, is_none, is_some, unsigned_abs};
ghost use Rattle.elf_objects.specs.Objects.{relocations_of};
ghost use Rattle.elf_objects.specs.Keeping.{KeepsRelocation};
ghost use Rattle.symbols.specs.Laws.{HasSection, is_data as the_data};
ghost use Rattle.symbols.specs.Parts.{object_at, kind_at};
ghost use Rattle.faults.specs.First.{first_below};
ghost use Rattle.symbols.specs.Faults.{has_effect as the_effect};
ghost use Rattle.symbols.specs.Resolution.{resolution};
ghost use Rattle.symbols.specs.Wanted.{Given};
ghost use Rattle.relocs.specs.Kinds.{names_address, is_data_kind as the_data_kind, may_change_data as may_change_the_data};
ghost use Rattle.relocs.specs.Data.{data_value as the_data_value, is_in_range as is_in_the_range, data_fault as the_fault, fault_in_table, section_data_fault, object_data_fault, first_data_fault};
ghost use Rattle.relocs.specs.Sources.{IsSourcesOf, IsRelocation};
ghost use Rattle.relocs.specs.Places.{code_place};
ghost use Rattle.relocs.specs.AddressMap.{number_in, needed_places};
ghost use Rattle.relocs.specs.Values.{address_fault};

use crate::fault::{NOT_A_PLACE, VALUE_OUT_OF_RANGE, WRONG_DATA_RELOCATION};
use crate::kinds::{Kind, kind_of};
use crate::sources::Sources;
use elf_objects::{Fault, Relocation, SectionKind};
use symbols::{Place, has_effect};

impl Sources<'_, '_, '_> {
    /// The first fault of the relocations of data, by object, section and relocation.
    #[tactic(auto, unfolding(crate::specs::Data::first_data_fault))]
    pub(crate) fn first_data_fault(&self) -> Option<Fault>
        ghost given: { Given }
        requires { IsSourcesOf given self.now }
        ensures { result ≡ first_data_fault given }
    {
        for object in 0..self.object_count() {
            if let Some(fault) = self.object_data_fault(object) {
                return Some(fault);
            }
        }
        None
    }

    /// The first in an object.
    fn object_data_fault(&self, object: u32) -> Option<Fault>
        ghost given: { Given }
        requires sources { IsSourcesOf given self.now }
        requires object { object < length given.objects }
        ensures { result ≡ object_data_fault given object }
    {
        for section in 0..self.section_count(object) {
            if let Some(fault) = self.section_data_fault(object, section) {
                return Some(fault);
            }
        }
        None
    }

    /// The first in a section, where it is data.
    fn section_data_fault(&self, object: u32, section: u32) -> Option<Fault>
        ghost given: { Given }
        requires sources { IsSourcesOf given self.now }
        requires section { HasSection given.objects object section }
        ensures { result ≡ section_data_fault given object section }
    {
        let kind = self.kind(object, section);
        if is_data(kind) {
            self.table_fault(object, section, kind)
        } else {
            None
        }
    }

    /// The first in the table of a section of data.
    fn table_fault(&self, object: u32, section: u32, kind: SectionKind) -> Option<Fault>
        ghost given: { Given }
        requires sources { IsSourcesOf given self.now }
        requires section { HasSection given.objects object section }
        requires kind { kind ≡ kind_at given.objects object section }
        requires data { the_data kind ≡ true }
        ensures { result ≡ first_below (length (relocations_of (object_at given.objects object) section)) (fault_in_table given kind object section (relocations_of (object_at given.objects object) section)) }
    {
        for at in 0..self.relocation_count(object, section) {
            if let Some(fault) = self.fault_in_table(object, section, kind, at) {
                return Some(fault);
            }
        }
        None
    }

    /// The fault of the relocation with a number in the table of a section of data.
    fn fault_in_table(&self, object: u32, section: u32, kind: SectionKind, at: u32) -> Option<Fault>
        ghost given: { Given }
        requires sources { IsSourcesOf given self.now }
        requires section { HasSection given.objects object section }
        requires at { at < length (relocations_of (object_at given.objects object) section) }
        requires kind { kind ≡ kind_at given.objects object section }
        requires data { the_data kind ≡ true }
        ensures { result ≡ fault_in_table given kind object section (relocations_of (object_at given.objects object) section) at }
    {
        let relocation = self.relocation(object, section, at);
        if !has_effect(relocation.kind) {
            return None;
        }
        let code = self.relocation_data_fault(object, section, kind, relocation)?;
        Some(Fault {
            code,
            object,
            section,
            offset: relocation.offset,
        })
    }

    /// The code of the fault of a relocation of data that changes something.
    #[tactic(auto, unfolding(crate::specs::Data::data_fault))]
    fn relocation_data_fault(
        &self,
        object: u32,
        section: u32,
        kind: SectionKind,
        relocation: Relocation,
    ) -> Option<u8>
        ghost given: { Given }
        requires sources { IsSourcesOf given self.now }
        requires entry { IsRelocation given object section relocation }
        requires named { relocation.symbol < length (object_at given.objects object).symbols }
        requires effect { the_effect relocation.kind ≡ true }
        ensures { result ≡ the_fault given kind object section relocation }
    {
        if !may_change_data(kind_of(relocation.kind), kind) {
            return Some(WRONG_DATA_RELOCATION);
        }
        if !self.is_address(object, section, relocation) {
            return Some(NOT_A_PLACE);
        }
        if is_in_range(
            kind_of(relocation.kind),
            self.data_value(object, section, relocation),
        ) {
            None
        } else {
            Some(VALUE_OUT_OF_RANGE)
        }
    }

    /// Whether what a relocation's symbol stands for, with its addend, is an address.
    fn is_address(&self, object: u32, section: u32, relocation: Relocation) -> bool
        ghost given: { Given }
        requires sources { IsSourcesOf given self.now }
        requires entry { IsRelocation given object section relocation }
        requires named { relocation.symbol < length (object_at given.objects object).symbols }
        requires names { names_address relocation ≡ true }
        ensures { result ≡ is_none (address_fault given (resolution given object relocation.symbol) relocation.addend) }
    {
        match self.place(object, relocation) {
            Place::Code {
                object,
                section,
                offset,
            } => self.is_code_address(object, section, offset, relocation.addend),
            Place::Import(_) => relocation.addend == 0,
            Place::Unloaded => false,
            Place::Bytes { .. } | Place::Number(_) | Place::Absent => true,
        }
    }

    /// Whether the place this far from an offset of code has a number.
    fn is_code_address(&self, object: u32, section: u32, offset: u64, by: i64) -> bool
        ghost given: { Given }
        requires sources { IsSourcesOf given self.now }
        ensures { result ≡ is_some (number_in (needed_places given) (code_place object section offset by)) }
    {
        let offset = offset.wrapping_add_signed(by);
        self.map
            .number(Place::Code {
                object,
                section,
                offset,
            })
            .is_some()
    }

    /// What a relocation of data gives: its value, or how far that is from its own address.
    #[tactic(auto, unfolding(crate::specs::Data::data_value))]
    pub(crate) fn data_value(&self, object: u32, section: u32, relocation: Relocation) -> i128
        ghost given: { Given }
        requires sources { IsSourcesOf given self.now }
        requires section { HasSection given.objects object section }
        requires named { relocation.symbol < length (object_at given.objects object).symbols }
        ensures value { result ≡ the_data_value given object section relocation }
        ensures bound { unsigned_abs result < 2 ^ 100 }
    {
        let value = self.value(self.place(object, relocation), relocation.addend);
        match kind_of(relocation.kind) {
            Kind::Distance => distance(value, self.base(object, section), relocation.offset),
            _ => value,
        }
    }

    /// The number of objects.
    pub(crate) fn object_count(&self) -> u32
        ghost given: { Given }
        requires sources { IsSourcesOf given self.now }
        ensures { result ≡ length given.objects }
    {
        self.objects.len()
    }

    /// The number of sections of an object.
    pub(crate) fn section_count(&self, object: u32) -> u32
        ghost given: { Given }
        requires sources { IsSourcesOf given self.now }
        requires object { object < length given.objects }
        ensures { result ≡ length (object_at given.objects object).sections }
    {
        self.objects.object(object).sections()
    }

    /// The number of relocations of a section.
    pub(crate) fn relocation_count(&self, object: u32, section: u32) -> u32
        ghost given: { Given }
        requires sources { IsSourcesOf given self.now }
        requires section { HasSection given.objects object section }
        ensures { result ≡ length (relocations_of (object_at given.objects object) section) }
    {
        self.objects.object(object).relocations(section)
    }

    /// A relocation of a section by its number.
    pub(crate) fn relocation(&self, object: u32, section: u32, at: u32) -> Relocation
        ghost given: { Given }
        requires sources { IsSourcesOf given self.now }
        requires section { HasSection given.objects object section }
        requires at { at < length (relocations_of (object_at given.objects object) section) }
        ensures entry { slice_get (relocations_of (object_at given.objects object) section) at ≡ Some result }
        ensures keeps { KeepsRelocation (object_at given.objects object) section result }
    {
        self.objects.object(object).relocation(section, at)
    }

    /// What a section is.
    fn kind(&self, object: u32, section: u32) -> SectionKind
        ghost given: { Given }
        requires sources { IsSourcesOf given self.now }
        requires section { HasSection given.objects object section }
        ensures { result ≡ kind_at given.objects object section }
    {
        self.objects.object(object).section(section).kind
    }
}

/// How far a value is from an address plus an offset.
fn distance(value: i128, base: u32, offset: u64) -> i128
    requires { unsigned_abs value < 2 ^ 80 }
    ensures value { result ≡ value -ℤ pos (base + offset) }
    ensures bound { unsigned_abs result < 2 ^ 100 }
{
    value - (i128::from(base) + i128::from(offset))
}

/// Whether a section is data.
fn is_data(kind: SectionKind) -> bool
    ensures { result ≡ the_data kind }
{
    matches!(
        kind,
        SectionKind::ReadOnly | SectionKind::Writable | SectionKind::Zero
    )
}

/// Whether a relocation of a kind may change a section as data: one of zeros has no bytes to change.
fn may_change_data(kind: Kind, section: SectionKind) -> bool
    ensures { result ≡ may_change_the_data kind section }
{
    match section {
        SectionKind::ReadOnly | SectionKind::Writable => is_data_kind(kind),
        _ => false,
    }
}

fn is_data_kind(kind: Kind) -> bool
    ensures { result ≡ the_data_kind kind }
{
    match kind {
        Kind::Set32 | Kind::Set64 | Kind::Add(_) | Kind::Subtract(_) | Kind::Distance => true,
        _ => false,
    }
}

/// Whether a value fits.
fn is_in_range(kind: Kind, value: i128) -> bool
    ensures { result ≡ is_in_the_range kind value }
{
    match kind {
        Kind::Set32 => -0x8000_0000 <= value && value <= 0xffff_ffff,
        Kind::Distance => -0x8000_0000 <= value && value <= 0x7fff_ffff,
        _ => true,
    }
}
