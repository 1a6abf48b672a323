ghost use Rattle.std.specs.Prelude.{◌≡◌, ◌<◌, length, IfOk};
ghost use Rattle.elf_objects.specs.Objects.{ShowsSymbol};
ghost use Rattle.faults.specs.Present.{each_below, first_in};
ghost use Rattle.symbols.specs.Wanted.{given_of};
ghost use Rattle.symbols.specs.Parts.{object_at, symbol_at, symbol_count};
ghost use Rattle.symbols.specs.Resolution.{definition_of};
ghost use Rattle.symbols.specs.Faults.{is_at, is_named as is_named_by_object, is_common as has_common, is_duplicate as is_duplicate_at, is_undefined as is_undefined_at, is_unknown as is_unknown_name, has_entry as has_entry_at, may_be_entry as is_entry_place, symbol_fault as fault_at_symbol, entry_fault as fault_at_entry, faults_of_symbol, faults_of_object, faults_of_entry, symbol_faults};
ghost use Rattle.symbols.specs.Names.{MarksNamed};

use crate::fault::{COMMON, DUPLICATE, ENTRY_MISSING, ENTRY_NOT_CODE, UNDEFINED};
use crate::link::Link;
use crate::meanings::{has_binding, has_definition};
use crate::named::named_symbols;
use crate::names::Meaning;
use crate::parts::{count_symbols, symbol_of, symbol_table_of};
use crate::place::Place;
use elf_objects::{Binding, Fault, SymbolIndex};
use std::alloc::{AllocError, Global};

impl Link<'_, '_> {
    /// The first fault of names: of the symbols, and where they have none, of the entries.
    #[tactic(auto, unfolding(crate::specs::Faults::symbol_faults))]
    pub(crate) fn fault(&self, alloc: Global) -> Result<Option<Fault>, AllocError>
        ensures { IfOk result (λ fault. fault ≡ first_in (symbol_faults (given_of self.now.objects.now self.now.wanted.now))) }
    {
        match self.fault_of_symbols(alloc)? {
            Some(fault) => Ok(Some(fault)),
            None => Ok(self.fault_of_entries()),
        }
    }

    fn fault_of_symbols(&self, alloc: Global) -> Result<Option<Fault>, AllocError>
        ensures { let given = given_of self.now.objects.now self.now.wanted.now in IfOk result (λ fault. fault ≡ first_in (each_below (length given.objects) (faults_of_object given))) }
    {
        for object in 0..self.objects.len() {
            let named = named_symbols(alloc, self.objects, object)?;
            if let Some(fault) = self.fault_of_object(object, &named) {
                return Ok(Some(fault));
            }
        }
        Ok(None)
    }

    /// The first fault of an object's symbols, by the marks of those that relocations name.
    fn fault_of_object(&self, object: u32, named: &[bool]) -> Option<Fault>
        requires object { object < length self.now.objects.now }
        requires named { MarksNamed self.now.objects.now object named.now }
        ensures { result ≡ first_in (faults_of_object (given_of self.now.objects.now self.now.wanted.now) object) }
    {
        for number in 0..count_symbols(self.objects, object) {
            let is_named = named[number as usize];
            if let Some(fault) = self.fault_of_symbol(object, number, is_named) {
                return Some(fault);
            }
        }
        None
    }

    fn fault_of_symbol(&self, object: u32, number: u32, is_named: bool) -> Option<Fault>
        requires object { object < length self.now.objects.now }
        requires number { number < symbol_count self.now.objects.now object }
        requires named { is_named ≡ is_named_by_object (object_at self.now.objects.now object) number }
        ensures { result ≡ first_in (faults_of_symbol (given_of self.now.objects.now self.now.wanted.now) object number) }
    {
        if self.is_common(object, number) {
            Some(self.symbol_fault(COMMON, object, number))
        } else if self.is_duplicate(object, number) {
            Some(self.symbol_fault(DUPLICATE, object, number))
        } else if self.is_undefined(object, number, is_named) {
            Some(self.symbol_fault(UNDEFINED, object, number))
        } else {
            None
        }
    }

    /// A fault at a symbol.
    fn symbol_fault(&self, code: u8, object: u32, number: u32) -> Fault
        requires { object < length self.now.objects.now }
        ensures { result ≡ fault_at_symbol (given_of self.now.objects.now self.now.wanted.now) code object number }
    {
        Fault {
            code,
            object,
            section: symbol_table_of(self.objects, object),
            offset: u64::from(number),
        }
    }

    fn is_common(&self, object: u32, number: u32) -> bool
        requires object { object < length self.now.objects.now }
        requires number { number < symbol_count self.now.objects.now object }
        ensures { result ≡ has_common (symbol_at self.now.objects.now object number).index }
    {
        matches!(
            symbol_of(self.objects, object, number).index,
            SymbolIndex::Common
        )
    }

    /// Whether a symbol is a GLOBAL definition that its name doesn't stand for.
    fn is_duplicate(&self, object: u32, number: u32) -> bool
        requires object { object < length self.now.objects.now }
        requires number { number < symbol_count self.now.objects.now object }
        ensures { result ≡ is_duplicate_at (given_of self.now.objects.now self.now.wanted.now) object number }
    {
        let symbol = symbol_of(self.objects, object, number);
        number != 0
            && has_binding(Binding::Global, symbol.binding)
            && has_definition(symbol.index)
            && !self.is_definition_of(symbol.name, object, number)
    }

    /// Whether a name's definition is this symbol.
    fn is_definition_of(&self, name: &[u8], object: u32, number: u32) -> bool
        ensures { result ≡ is_at object number (definition_of (given_of self.now.objects.now self.now.wanted.now) name.now) }
    {
        match self.meaning(name) {
            Some(
                Meaning::Defined {
                    object: other,
                    number: at,
                },
            ) => other == object && at == number,
            _ => false,
        }
    }

    /// Whether a symbol is GLOBAL, undefined and named by a relocation, and its name unknown.
    fn is_undefined(&self, object: u32, number: u32, is_named: bool) -> bool
        requires object { object < length self.now.objects.now }
        requires number { number < symbol_count self.now.objects.now object }
        requires named { is_named ≡ is_named_by_object (object_at self.now.objects.now object) number }
        ensures { result ≡ is_undefined_at (given_of self.now.objects.now self.now.wanted.now) object number }
    {
        let symbol = symbol_of(self.objects, object, number);
        number != 0
            && has_binding(Binding::Global, symbol.binding)
            && !has_definition(symbol.index)
            && is_named
            && self.is_unknown(symbol.name)
    }

    /// Whether nothing defines a name and it isn't imported.
    fn is_unknown(&self, name: &[u8]) -> bool
        ensures { result ≡ is_unknown_name (given_of self.now.objects.now self.now.wanted.now) name.now }
    {
        self.meaning(name).is_none()
    }

    fn fault_of_entries(&self) -> Option<Fault>
        ensures { let given = given_of self.now.objects.now self.now.wanted.now in result ≡ first_in (each_below (length given.wanted.entries) (faults_of_entry given)) }
    {
        for entry in 0..self.wanted.entries() {
            if let Some(fault) = self.fault_of_entry(entry) {
                return Some(fault);
            }
        }
        None
    }

    fn fault_of_entry(&self, entry: u32) -> Option<Fault>
        requires { entry < length self.now.wanted.now.entries }
        ensures { result ≡ first_in (faults_of_entry (given_of self.now.objects.now self.now.wanted.now) entry) }
    {
        if !self.has_entry(entry) {
            Some(entry_fault(ENTRY_MISSING, entry))
        } else if !self.may_be_entry(self.entry_place(entry)) {
            Some(entry_fault(ENTRY_NOT_CODE, entry))
        } else {
            None
        }
    }

    /// Whether an entry's name is defined.
    fn has_entry(&self, entry: u32) -> bool
        requires { entry < length self.now.wanted.now.entries }
        ensures { result ≡ has_entry_at (given_of self.now.objects.now self.now.wanted.now) entry }
    {
        matches!(
            self.meaning(self.wanted.entry_name(entry)),
            Some(Meaning::Defined { .. })
        )
    }

    /// Whether an entry may be at a place: an offset of instructions that is a multiple of 4.
    fn may_be_entry(&self, place: Place) -> bool
        ensures { result ≡ is_entry_place (given_of self.now.objects.now self.now.wanted.now) place }
    {
        match place {
            Place::Code { offset, .. } => offset % 4 == 0,
            _ => false,
        }
    }
}

/// A fault of an entry.
fn entry_fault(code: u8, entry: u32) -> Fault
    ensures { result ≡ fault_at_entry code entry }
{
    Fault {
        code,
        object: entry,
        section: 0,
        offset: 0,
    }
}
