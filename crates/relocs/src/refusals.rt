//! The code that a relocation of code is refused with.

ghost use Rattle.std.specs.Prelude.{◌≡◌, ◌<◌, length, IfSome, if◌then◌else◌, None, nat_lt};
ghost use Rattle.std.specs.List.{filter_map};
ghost use Rattle.symbols.specs.Parts.{object_at};
ghost use Rattle.symbols.specs.Wanted.{Given};
ghost use Rattle.relocs.specs.Operands.{plain_fault as the_plain_fault, auipc_fault as the_auipc_fault, label_of as the_label_of, offset_in as the_offset_in, high_of as the_high_of, label_fault as the_label_fault, relocation_fault as the_relocation_fault, lesser as the_lesser, least, codes_by};
ghost use Rattle.relocs.specs.Pairs.{relocations_at, relocation_is_at};
ghost use Rattle.relocs.specs.Sites.{IsCodeSection, IsNamed};
ghost use Rattle.relocs.specs.Sources.{IsSourcesOf};

use crate::fault::{MISSING_HIGH, WRONG_RELOCATION};
use crate::kinds::{Kind, kind_of};
use crate::sites::holds_auipc;
use crate::sources::Sources;
use elf_objects::Relocation;
use symbols::{Place, has_effect};

impl Sources<'_, '_, '_> {
    /// The least fault of the relocations at an offset, without those of an `auipc` that they name.
    fn least_plain_fault(&self, object: u32, section: u32, offset: u64) -> Option<u8>
        ghost given: { Given }
        requires sources { IsSourcesOf given self.now }
        requires section { IsCodeSection given object section }
        ensures { result ≡ least (filter_map (the_plain_fault given object section) (relocations_at given object section offset)) }
    {
        let mut least = None;
        let relocations = self.near(object, section, offset);
        for at in 0..relocations.len() {
            let relocation = relocations.get(at);
            least = lesser(
                least,
                self.plain_fault_at(object, section, relocation, offset),
            );
        }
        least
    }

    /// That of a relocation, where it is at the offset.
    fn plain_fault_at(
        &self,
        object: u32,
        section: u32,
        relocation: Relocation,
        offset: u64,
    ) -> Option<u8>
        ghost given: { Given }
        requires sources { IsSourcesOf given self.now }
        requires section { IsCodeSection given object section }
        requires named { relocation.symbol < length (object_at given.objects object).symbols }
        ensures { result ≡ (if relocation_is_at offset relocation then the_plain_fault given object section relocation else None) }
    {
        if has_effect(relocation.kind) && relocation.offset == offset {
            self.plain_fault(object, section, relocation)
        } else {
            None
        }
    }

    /// The least fault of an `auipc`'s relocations.
    #[tactic(auto, using(crate::proofs::Crowded::crowds), unfolding(crate::specs::Operands::auipc_fault))]
    fn auipc_fault(&self, object: u32, section: u32, offset: u64) -> Option<u8>
        ghost given: { Given }
        requires sources { IsSourcesOf given self.now }
        requires section { IsCodeSection given object section }
        ensures { result ≡ the_auipc_fault given object section offset }
    {
        if self.is_crowded(object, section, offset) {
            Some(WRONG_RELOCATION)
        } else {
            self.least_plain_fault(object, section, offset)
        }
    }

    /// Whether several relocations are at an offset, of whose codes that of several is the least.
    #[inline(always)]
    fn is_crowded(&self, object: u32, section: u32, offset: u64) -> bool
        ghost given: { Given }
        requires sources { IsSourcesOf given self.now }
        requires section { IsCodeSection given object section }
        ensures { result ≡ nat_lt 1 (length (relocations_at given object section offset)) }
    {
        1 < self.found_at(object, section, offset).count
    }

    /// The least fault of the relocations at an offset.
    #[tactic(auto, using(crate::proofs::Crowded::crowds))]
    pub(crate) fn relocations_fault(&self, object: u32, section: u32, offset: u64) -> Option<u8>
        ghost given: { Given }
        requires sources { IsSourcesOf given self.now }
        requires section { IsCodeSection given object section }
        ensures { result ≡ least (codes_by (the_relocation_fault given object section) (relocations_at given object section offset)) }
    {
        if self.is_crowded(object, section, offset) {
            Some(WRONG_RELOCATION)
        } else {
            self.least_fault(object, section, offset)
        }
    }

    /// The relocation of the `auipc` that a PCREL_LO12 names, where it names one.
    pub(crate) fn high_of(
        &self,
        object: u32,
        section: u32,
        relocation: Relocation,
    ) -> Option<Relocation>
        ghost given: { Given }
        requires sources { IsSourcesOf given self.now }
        requires section { IsCodeSection given object section }
        requires named { relocation.symbol < length (object_at given.objects object).symbols }
        ensures high { result ≡ the_high_of given object section relocation }
        ensures named { IfSome result (IsNamed given object) }
    {
        let offset = self.label_of(object, section, relocation)?;
        if holds_auipc(self.op_at(object, section, offset)) {
            self.found_at(object, section, offset).high
        } else {
            None
        }
    }

    /// The offset in its own section that a PCREL_LO12 names.
    fn label_of(&self, object: u32, section: u32, relocation: Relocation) -> Option<u64>
        ghost given: { Given }
        requires sources { IsSourcesOf given self.now }
        requires section { IsCodeSection given object section }
        requires named { relocation.symbol < length (object_at given.objects object).symbols }
        ensures { result ≡ the_label_of given object section relocation }
    {
        if relocation.addend == 0 {
            offset_in(object, section, self.place(object, relocation))
        } else {
            None
        }
    }

    /// The fault of a relocation that names an `auipc`.
    fn label_fault(
        &self,
        kind: Kind,
        object: u32,
        section: u32,
        relocation: Relocation,
    ) -> Option<u8>
        ghost given: { Given }
        requires sources { IsSourcesOf given self.now }
        requires section { IsCodeSection given object section }
        requires named { relocation.symbol < length (object_at given.objects object).symbols }
        ensures { result ≡ the_label_fault kind given object section relocation }
    {
        match kind {
            Kind::PcLow | Kind::PcLowStore => match self.high_of(object, section, relocation) {
                Some(high) => self.auipc_fault(object, section, high.offset),
                None => Some(MISSING_HIGH),
            },
            _ => None,
        }
    }

    /// The fault of a relocation that changes something.
    #[tactic(auto, unfolding(crate::specs::Operands::relocation_fault))]
    fn relocation_fault(&self, object: u32, section: u32, relocation: Relocation) -> Option<u8>
        ghost given: { Given }
        requires sources { IsSourcesOf given self.now }
        requires section { IsCodeSection given object section }
        requires named { relocation.symbol < length (object_at given.objects object).symbols }
        ensures { result ≡ the_relocation_fault given object section relocation }
    {
        match self.plain_fault(object, section, relocation) {
            Some(code) => Some(code),
            None => self.label_fault(kind_of(relocation.kind), object, section, relocation),
        }
    }

    /// The least of the faults that each relocation at an offset has.
    fn least_fault(&self, object: u32, section: u32, offset: u64) -> Option<u8>
        ghost given: { Given }
        requires sources { IsSourcesOf given self.now }
        requires section { IsCodeSection given object section }
        ensures { result ≡ least (filter_map (the_relocation_fault given object section) (relocations_at given object section offset)) }
    {
        let mut least = None;
        let relocations = self.near(object, section, offset);
        for at in 0..relocations.len() {
            let relocation = relocations.get(at);
            least = lesser(
                least,
                self.relocation_fault_at(object, section, relocation, offset),
            );
        }
        least
    }

    /// That of a relocation, where it is at the offset.
    fn relocation_fault_at(
        &self,
        object: u32,
        section: u32,
        relocation: Relocation,
        offset: u64,
    ) -> Option<u8>
        ghost given: { Given }
        requires sources { IsSourcesOf given self.now }
        requires section { IsCodeSection given object section }
        requires named { relocation.symbol < length (object_at given.objects object).symbols }
        ensures { result ≡ (if relocation_is_at offset relocation then the_relocation_fault given object section relocation else None) }
    {
        if has_effect(relocation.kind) && relocation.offset == offset {
            self.relocation_fault(object, section, relocation)
        } else {
            None
        }
    }
}

/// The offset that a place is in a section of code.
fn offset_in(object: u32, section: u32, place: Place) -> Option<u64>
    ensures { result ≡ the_offset_in object section place }
{
    match place {
        Place::Code {
            object: o,
            section: s,
            offset,
        } => {
            if object == o && section == s {
                Some(offset)
            } else {
                None
            }
        }
        _ => None,
    }
}

/// The lesser of two codes that may be missing.
pub(crate) fn lesser(a: Option<u8>, b: Option<u8>) -> Option<u8>
    ensures { result ≡ the_lesser a b }
{
    match (a, b) {
        (Some(a), Some(b)) => Some(a.min(b)),
        (Some(a), None) => Some(a),
        (None, b) => b,
    }
}
