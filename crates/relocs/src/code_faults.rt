//! The faults of the relocations of code.

ghost use Rattle.std.specs.Prelude.{◌≡◌, ◌<◌, ◌^◌, not, length, unsigned_abs};
ghost use Rattle.symbols.specs.Laws.{IsWithin};
ghost use Rattle.symbols.specs.Parts.{object_at};
ghost use Rattle.symbols.specs.Wanted.{Given};
ghost use Rattle.relocs.specs.Kinds.{may_change as may_change_it, has_low_immediate as has_the_low_immediate};
ghost use Rattle.relocs.specs.Operands.{is_allowed as is_it_allowed, changes as it_changes, meets as it_meets, code_value as the_code_value, fits as it_fits, value_fault as the_value_fault, meaning_fault as the_meaning_fault, plain_fault as the_plain_fault};
ghost use Rattle.relocs.specs.Places.{Code};
ghost use Rattle.relocs.specs.Sites.{IsCodeSection};
ghost use Rattle.relocs.specs.Sources.{IsSourcesOf};
ghost use Rattle.relocs.specs.Values.{place_fault as the_place_fault, target_fault as the_target_fault, address_fault as the_address_fault, fault_unless_zero as fault_unless_it_is_zero};
ghost use Rattle.faults.specs.First.{where_true};

use crate::fault::{BAD_TARGET, INTO_PAIR, NOT_A_PLACE, VALUE_OUT_OF_RANGE, WRONG_RELOCATION};
use crate::kinds::{Kind, kind_of};
use crate::sources::Sources;
use elf_objects::Relocation;
use rv_decode::{AluImm, RvOp};
use symbols::Place;

impl Sources<'_, '_, '_> {
    /// The code of the fault of an offset of code that is no place: the second word of a pair has one of its own.
    pub(crate) fn place_fault(&self, object: u32, section: u32, offset: u64, code: u8) -> Option<u8>
        ghost given: { Given }
        requires sources { IsSourcesOf given self.now }
        requires section { IsCodeSection given object section }
        ensures { result ≡ the_place_fault given code (Code object section offset) }
    {
        if self.is_place(object, section, offset) {
            None
        } else if self.is_second(object, section, offset) {
            Some(INTO_PAIR)
        } else {
            Some(code)
        }
    }

    /// Why what a symbol stands for, with an addend, is no target.
    fn target_fault(&self, place: Place, addend: i64) -> Option<u8>
        ghost given: { Given }
        requires sources { IsSourcesOf given self.now }
        requires within { IsWithin given place }
        ensures { result ≡ the_target_fault given place addend }
    {
        match place {
            Place::Code {
                object,
                section,
                offset,
            } => self.place_fault(
                object,
                section,
                offset.wrapping_add_signed(addend),
                BAD_TARGET,
            ),
            Place::Import(_) => fault_unless_zero(addend, BAD_TARGET),
            Place::Absent => None,
            Place::Bytes { .. } | Place::Unloaded | Place::Number(_) => Some(BAD_TARGET),
        }
    }

    /// Why what a symbol stands for, with an addend, is no address.
    fn address_fault(&self, place: Place, addend: i64) -> Option<u8>
        ghost given: { Given }
        requires sources { IsSourcesOf given self.now }
        requires within { IsWithin given place }
        ensures { result ≡ the_address_fault given place addend }
    {
        match place {
            Place::Code {
                object,
                section,
                offset,
            } => self.place_fault(
                object,
                section,
                offset.wrapping_add_signed(addend),
                NOT_A_PLACE,
            ),
            Place::Import(_) => fault_unless_zero(addend, NOT_A_PLACE),
            Place::Unloaded => Some(NOT_A_PLACE),
            Place::Bytes { .. } | Place::Number(_) | Place::Absent => None,
        }
    }

    /// Whether a relocation of a code section may be where it is.
    fn is_allowed(&self, object: u32, section: u32, relocation: Relocation) -> bool
        ghost given: { Given }
        requires sources { IsSourcesOf given self.now }
        requires section { IsCodeSection given object section }
        ensures { result ≡ is_it_allowed given object section relocation }
    {
        changes(
            kind_of(relocation.kind),
            self.op_at(object, section, relocation.offset),
        ) && self.meets(kind_of(relocation.kind), object, section, relocation)
    }

    /// Whether there is what a kind needs besides its operation.
    fn meets(&self, kind: Kind, object: u32, section: u32, relocation: Relocation) -> bool
        ghost given: { Given }
        requires sources { IsSourcesOf given self.now }
        requires section { IsCodeSection given object section }
        ensures { result ≡ it_meets kind given object section relocation }
    {
        match kind {
            Kind::Call => self.can_call(object, section, relocation.offset),
            Kind::GotHigh => relocation.addend == 0,
            _ => true,
        }
    }

    /// The value of a relocation of code.
    pub(crate) fn code_value(&self, kind: Kind, object: u32, relocation: Relocation) -> i128
        ghost given: { Given }
        requires sources { IsSourcesOf given self.now }
        requires object { object < length given.objects }
        requires named { relocation.symbol < length (object_at given.objects object).symbols }
        ensures value { result ≡ the_code_value kind given object relocation }
        ensures bound { unsigned_abs result < 2 ^ 80 }
    {
        let place = self.place(object, relocation);
        match kind {
            Kind::GotHigh => i128::from(self.placed.slot(place).unwrap_or(0)),
            _ => self.value(place, relocation.addend),
        }
    }

    /// Why a relocation that gives a value has none, or one that does not fit.
    fn value_fault(&self, kind: Kind, object: u32, relocation: Relocation) -> Option<u8>
        ghost given: { Given }
        requires sources { IsSourcesOf given self.now }
        requires object { object < length given.objects }
        requires named { relocation.symbol < length (object_at given.objects object).symbols }
        ensures { result ≡ the_value_fault kind given object relocation }
    {
        match self.address_fault(self.place(object, relocation), relocation.addend) {
            Some(code) => Some(code),
            None => fault_unless(
                fits(kind, self.code_value(kind, object, relocation)),
                VALUE_OUT_OF_RANGE,
            ),
        }
    }

    /// The fault of a relocation that may be where it is, but for those that name an `auipc`.
    fn meaning_fault(&self, kind: Kind, object: u32, relocation: Relocation) -> Option<u8>
        ghost given: { Given }
        requires sources { IsSourcesOf given self.now }
        requires object { object < length given.objects }
        requires named { relocation.symbol < length (object_at given.objects object).symbols }
        ensures { result ≡ the_meaning_fault kind given object relocation }
    {
        match kind {
            Kind::Branch | Kind::Jal | Kind::Call => {
                self.target_fault(self.place(object, relocation), relocation.addend)
            }
            Kind::PcLow | Kind::PcLowStore => None,
            _ => self.value_fault(kind, object, relocation),
        }
    }

    /// The fault of a relocation, but for those that name an `auipc`.
    pub(crate) fn plain_fault(
        &self,
        object: u32,
        section: u32,
        relocation: Relocation,
    ) -> Option<u8>
        ghost given: { Given }
        requires sources { IsSourcesOf given self.now }
        requires section { IsCodeSection given object section }
        requires named { relocation.symbol < length (object_at given.objects object).symbols }
        ensures { result ≡ the_plain_fault given object section relocation }
    {
        if self.is_allowed(object, section, relocation) {
            self.meaning_fault(kind_of(relocation.kind), object, relocation)
        } else {
            Some(WRONG_RELOCATION)
        }
    }
}

/// A fault where a condition does not hold.
fn fault_unless(holds: bool, code: u8) -> Option<u8>
    ensures { result ≡ where_true (not holds) code }
{
    if holds { None } else { Some(code) }
}

/// A fault where an addend isn't 0.
fn fault_unless_zero(addend: i64, code: u8) -> Option<u8>
    ensures { result ≡ fault_unless_it_is_zero code addend }
{
    if addend == 0 { None } else { Some(code) }
}

/// Whether a value fits a kind.
fn fits(kind: Kind, value: i128) -> bool
    ensures { result ≡ it_fits kind value }
{
    match kind {
        Kind::GotHigh => true,
        _ => -0x8000_0000 <= value && value <= 0x7fff_f7ff,
    }
}

/// Whether a relocation of a kind may change what is at its offset.
fn changes(kind: Kind, op: Option<RvOp>) -> bool
    ensures { result ≡ it_changes kind op }
{
    match op {
        Some(op) => may_change(kind, op),
        None => false,
    }
}

/// Whether a relocation of a kind may change an operation.
fn may_change(kind: Kind, op: RvOp) -> bool
    ensures { result ≡ may_change_it kind op }
{
    match kind {
        Kind::Branch => matches!(op, RvOp::Branch { .. }),
        Kind::Jal => matches!(op, RvOp::Jal { .. }),
        Kind::Call | Kind::GotHigh | Kind::PcHigh => matches!(op, RvOp::Auipc { .. }),
        Kind::High => matches!(op, RvOp::Lui { .. }),
        Kind::PcLow | Kind::Low => has_low_immediate(op),
        Kind::PcLowStore | Kind::LowStore => matches!(op, RvOp::Store { .. }),
        _ => false,
    }
}

/// Whether an operation is `addi`, `addiw`, a load or `jalr`.
fn has_low_immediate(op: RvOp) -> bool
    ensures { result ≡ has_the_low_immediate op }
{
    match op {
        RvOp::OpImm { op, .. } => matches!(op, AluImm::Addi | AluImm::Addiw),
        RvOp::Load { .. } | RvOp::Jalr { .. } => true,
        _ => false,
    }
}
