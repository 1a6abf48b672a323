//! What relocations of code mean.

ghost use Rattle.std.specs.Prelude.{◌≡◌, ◌<◌, ◌&&◌, ◌||◌, [], pos, not, length, slice_get, unwrap_or, is_some, Some, None, IsSomeAnd, if◌then◌else◌};
ghost use Rattle.faults.specs.First.{where_true};
ghost use Rattle.elf_objects.specs.Objects.{relocations_of};
ghost use Rattle.symbols.specs.Parts.{object_at};
ghost use Rattle.symbols.specs.Wanted.{Given};
ghost use Rattle.relocs.specs.CodeFaults.{operation_codes, refusal_code as the_refusal_code, own_target, fault_of_target, meaning_of};
ghost use Rattle.relocs.specs.Kinds.{is_auipc, kind_of as the_kind};
ghost use Rattle.relocs.specs.Operands.{least, operand_of, operand_by as the_operand_by, low_by_high, high_of as the_high_of, target_place as the_target_place};
ghost use Rattle.relocs.specs.Pairs.{relocations_at, is_none_of, is_second as is_the_second};
ghost use Rattle.relocs.specs.Places.{Code};
ghost use Rattle.relocs.specs.Sites.{IsCodeSection, IsNamed, FitsOperand, OperandFits, found_of};
ghost use Rattle.relocs.specs.Sources.{AreSources, IsSourcesOf, IsRelocation};
ghost use Rattle.relocs.specs.Words.{raw_at};

use crate::code_map::CodeMap;
use crate::fault::{AUIPC_UNRELOCATED, BAD_TARGET};
use crate::found::Found;
use crate::halves::{low, upper, whole};
use crate::kinds::{Kind, kind_of};
use crate::operand::Operand;
use crate::refusals::lesser;
use crate::sources::Sources;
use elf_objects::{Fault, Objects, Relocation};
use layout::Placed;
use rv_decode::RvOp;
use symbols::{Place, Resolved, has_effect};

/// What a relocation of a code section means, by its number in the section's table. Takes no memory.
///
/// # Errors
/// The least fault at the relocation's offset, exactly where there is one; those of words that are no operations and those of
/// entries don't count.
pub fn meaning(
    objects: &Objects<'_>,
    resolved: &Resolved,
    placed: &Placed,
    map: &CodeMap,
    object: u32,
    section: u32,
    at: u32,
) -> Result<Operand, Fault>
    ghost given: { Given }
    requires sources { AreSources given objects.now resolved.now placed.now map.now }
    requires section { IsCodeSection given object section }
    requires at { at < length (relocations_of (object_at given.objects object) section) }
    ensures { IsSomeAnd (slice_get (relocations_of (object_at given.objects object) section) at) (λ r. result ≡ meaning_of given object section r) }
{
    let sources = Sources {
        objects: &*objects,
        resolved: &*resolved,
        placed: &*placed,
        map: &*map,
        tables: None,
    };
    let relocation = sources.relocation(object, section, at);
    match sources.refusal_code(object, section, relocation.offset) {
        Some(code) => Err(Fault {
            code,
            object,
            section,
            offset: relocation.offset,
        }),
        None => Ok(sources.operand(object, section, relocation)),
    }
}

impl Sources<'_, '_, '_> {
    /// The least code of the faults of the operation and of the relocations at an offset of a code section, where there is one.
    /// Faulty words and entries are left out.
    #[tactic(auto, using(crate::proofs::Least::leasts), unfolding(crate::specs::CodeFaults::refusal_code))]
    pub fn refusal_code(&self, object: u32, section: u32, offset: u64) -> Option<u8>
        ghost given: { Given }
        requires sources { IsSourcesOf given self.now }
        requires section { IsCodeSection given object section }
        ensures { result ≡ the_refusal_code given object section offset }
    {
        lesser(
            self.use_fault(object, section, offset),
            self.relocations_fault(object, section, offset),
        )
    }

    /// The least fault of what is at an offset, but for those of its relocations. The second word of a pair has none.
    fn use_fault(&self, object: u32, section: u32, offset: u64) -> Option<u8>
        ghost given: { Given }
        requires sources { IsSourcesOf given self.now }
        requires section { IsCodeSection given object section }
        ensures { result ≡ least (if is_the_second given (Code object section offset) then [] else operation_codes given object section offset (raw_at given (Code object section offset)) (relocations_at given object section offset)) }
    {
        if self.is_second(object, section, offset) {
            return None;
        }
        let op = self.op_at(object, section, offset)?;
        self.operation_fault(object, section, offset, op)
    }

    /// The least fault of an operation, but for those of its relocations.
    #[tactic(auto, using(crate::proofs::Least::leasts))]
    fn operation_fault(&self, object: u32, section: u32, offset: u64, op: RvOp) -> Option<u8>
        ghost given: { Given }
        requires sources { IsSourcesOf given self.now }
        requires section { IsCodeSection given object section }
        ensures { result ≡ least (operation_codes given object section offset (Some op) (relocations_at given object section offset)) }
    {
        let found = self.found_at(object, section, offset);
        lesser(
            unrelocated(op, found),
            self.bare_fault(object, section, offset, op, found),
        )
    }

    /// The fault of a branch or a `jal` without relocations.
    fn bare_fault(
        &self,
        object: u32,
        section: u32,
        offset: u64,
        op: RvOp,
        found: Found,
    ) -> Option<u8>
        ghost given: { Given }
        requires sources { IsSourcesOf given self.now }
        requires section { IsCodeSection given object section }
        requires found { found ≡ found_of (relocations_at given object section offset) }
        ensures { result ≡ (if is_none_of (relocations_at given object section offset) then fault_of_target given (own_target object section offset op) else None) }
    {
        if found.count == 0 {
            self.own_target_fault(object, section, offset, op)
        } else {
            None
        }
    }

    /// The fault of the target in the word of a branch or a `jal`.
    fn own_target_fault(&self, object: u32, section: u32, offset: u64, op: RvOp) -> Option<u8>
        ghost given: { Given }
        requires sources { IsSourcesOf given self.now }
        requires section { IsCodeSection given object section }
        ensures { result ≡ fault_of_target given (own_target object section offset op) }
    {
        match op {
            RvOp::Jal { offset: by, .. } => {
                self.place_fault(
                    object,
                    section,
                    offset.wrapping_add_signed(i64::from(by)),
                    BAD_TARGET,
                )
            }
            RvOp::Branch { offset: by, .. } => {
                self.place_fault(
                    object,
                    section,
                    offset.wrapping_add_signed(i64::from(by)),
                    BAD_TARGET,
                )
            }
            _ => None,
        }
    }
}

/// The fault of an `auipc` without a relocation that gives its value or its target.
fn unrelocated(op: RvOp, found: Found) -> Option<u8>
    ensures { result ≡ where_true (is_auipc op && not (found.call || is_some found.high)) AUIPC_UNRELOCATED }
{
    if matches!(op, RvOp::Auipc { .. }) && !(found.call || found.high.is_some()) {
        Some(AUIPC_UNRELOCATED)
    } else {
        None
    }
}

impl Sources<'_, '_, '_> {
    /// What a relocation of a code section gives to the operation at its offset, where nothing there has a fault. A value is one
    /// that the operation can hold.
    #[tactic(auto, unfolding(crate::specs::Operands::operand_of))]
    pub fn operand(&self, object: u32, section: u32, relocation: Relocation) -> Operand
        ghost given: { Given }
        requires sources { IsSourcesOf given self.now }
        requires section { IsCodeSection given object section }
        requires entry { IsRelocation given object section relocation }
        requires named { IsNamed given object relocation }
        requires unrefused { the_refusal_code given object section relocation.offset ≡ None }
        ensures operand { result ≡ operand_of given object section relocation }
        ensures fits { OperandFits (the_kind relocation.kind) result }
    {
        if has_effect(relocation.kind) {
            self.operand_by(kind_of(relocation.kind), object, section, relocation)
        } else {
            Operand::Nothing
        }
    }

    /// The same by the relocation's kind.
    fn operand_by(&self, kind: Kind, object: u32, section: u32, relocation: Relocation) -> Operand
        ghost given: { Given }
        requires sources { IsSourcesOf given self.now }
        requires section { IsCodeSection given object section }
        requires named { IsNamed given object relocation }
        requires fits { FitsOperand kind given object relocation }
        ensures { result ≡ the_operand_by kind given object section relocation }
    {
        match kind {
            Kind::Branch | Kind::Jal | Kind::Call => Operand::Target(target_place(
                self.place(object, relocation),
                relocation.addend,
            )),
            Kind::GotHigh => Operand::Value(whole_slot(
                self.placed.slot(self.place(object, relocation)),
            )),
            Kind::PcHigh => Operand::Value(whole(self.code_value(
                Kind::PcHigh,
                object,
                relocation,
            ))),
            Kind::High => Operand::Value(upper(self.code_value(Kind::High, object, relocation))),
            Kind::Low | Kind::LowStore => {
                Operand::Value(low(self.code_value(Kind::Low, object, relocation)))
            }
            Kind::PcLow | Kind::PcLowStore => self.low_operand(object, section, relocation),
            _ => Operand::Nothing,
        }
    }

    /// The lower part of the value of the `auipc` that a relocation names.
    fn low_operand(&self, object: u32, section: u32, relocation: Relocation) -> Operand
        ghost given: { Given }
        requires sources { IsSourcesOf given self.now }
        requires section { IsCodeSection given object section }
        requires named { IsNamed given object relocation }
        ensures { result ≡ low_by_high given object (the_high_of given object section relocation) }
    {
        match self.high_of(object, section, relocation) {
            Some(high) => { Operand::Value(low(self.code_value(kind_of(high.kind), object, high))) }
            None => Operand::Nothing,
        }
    }
}

/// The address of a slot, and 0 where there is none.
fn whole_slot(slot: Option<u32>) -> i64
    ensures { result ≡ pos (unwrap_or slot 0) }
{
    i64::from(slot.unwrap_or(0))
}

/// The target that a symbol's place and an addend are.
fn target_place(place: Place, addend: i64) -> Place
    ensures { result ≡ the_target_place place addend }
{
    match place {
        Place::Code {
            object,
            section,
            offset,
        } => Place::Code {
            object,
            section,
            offset: offset.wrapping_add_signed(addend),
        },
        other => other,
    }
}
