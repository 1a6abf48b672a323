//! The operation at each place of code without faults.

ghost use Rattle.std.specs.Prelude.{◌≡◌, ◌<◌, ◌+◌, ◌^◌, true, length, List, Some, IfSome, IsSomeAnd, slice_get};
ghost use Rattle.std.specs.Option.{option_map};
ghost use Rattle.symbols.specs.Wanted.{Given};
ghost use Rattle.relocs.specs.Places.{CodePlace, Code, Stub, Nowhere};
ghost use Rattle.relocs.specs.Pairs.{joins as the_joins, is_pair_at, is_place};
ghost use Rattle.relocs.specs.Sites.{IsCodeSection};
ghost use Rattle.relocs.specs.Words.{raw_at};
ghost use Rattle.relocs.specs.AddressMap.{needed_places};
ghost use Rattle.rv_decode.specs.Operations.{IsReg, IsOp};
ghost use Rattle.lift_blocks.specs.Fits.{PlainFits, IsLink, FitsInstructions};
ghost use Rattle.lift_blocks.specs.Kept.{site_of};
ghost use Rattle.lift_blocks.specs.Operations.{Pair, Plain, operand_at, code_op, operation_at, value_or, upper_or, if_link, target_place, target_or, target_from, placed_op, pair_op, import_op, stub_op, stub_operation as the_stub_operation};
ghost use Rattle.lift_blocks.specs.Listed.{target_of};
ghost use Rattle.lift_blocks.specs.PlacedOps.{HasBits, HasUpper, HasTarget, IsTarget, CanTake, with_operand, is_plain, can_be_target, placed_operation_of, IsFaultless, IsMachineOf};

use crate::first_fault::is_alone;
use crate::placed_op::PlacedOp;
use crate::reader::is_none;
use crate::site::Site;
use relocs::{CodeMap, Operand, Sources, holds_auipc};
use rv_decode::{Reg, RvOp};
use symbols::{ImportKind, Place, Wanted};

/// The parts that the operations of the source machine depend on. The sources have an index of relocations.
#[derive(Clone, Copy, Drop)]
pub(crate) struct SourceMachine<'l, 't, 'a> {
    pub sources: Sources<'l, 't, 'a>,
    pub map: &'l CodeMap,
    pub wanted: &'l Wanted,
}

impl SourceMachine<'_, '_, '_> {
    /// The operation at a place, where the code has no fault.
    #[tactic(auto, unfolding(crate::specs::Operations::operation_in))]
    pub(crate) fn operation(&self, place: Site) -> PlacedOp
        ghost given: { Given }
        requires machine { IsMachineOf given self.now }
        requires place { is_place given (site_of place) ≡ true }
        ensures value { operation_at given (site_of place) ≡ Some (placed_operation_of result) }
        ensures fits { FitsInstructions (placed_operation_of result) }
        ensures target { IfSome (target_of (placed_operation_of result)) (λ t. is_place given t ≡ true) }
    {
        match place {
            Site::Code {
                object,
                section,
                offset,
            } => self.code_operation(object, section, offset),
            Site::Stub { number, at } => self.stub_operation(number, at),
        }
    }

    /// The operation at a place, where it is a word that needs nothing else and has no relocation, as most are.
    #[inline(always)]
    pub(crate) fn plain(&self, place: Site) -> Option<RvOp>
        ghost given: { Given }
        requires machine { IsMachineOf given self.now }
        requires place { is_place given (site_of place) ≡ true }
        ensures value { IfSome result (λ op. operation_at given (site_of place) ≡ Some (Plain op)) }
        ensures fits { IfSome result PlainFits }
    {
        match place {
            Site::Code {
                object,
                section,
                offset,
            } => self.plain_word(object, section, offset),
            Site::Stub { .. } => None,
        }
    }

    /// The same of an offset of code.
    #[tactic(auto, using(crate::proofs::PlainOps::plain_words))]
    #[inline(always)]
    fn plain_word(&self, object: u32, section: u32, offset: u64) -> Option<RvOp>
        ghost given: { Given }
        requires machine { IsMachineOf given self.now }
        requires section { IsCodeSection given object section }
        ensures value { IfSome result (λ op. operation_at given (Code object section offset) ≡ Some (Plain op)) }
        ensures fits { IfSome result PlainFits }
    {
        let op = self.sources.op_at(object, section, offset);
        if is_alone(op) && is_none(self.sources.relocations(object, section, offset)) {
            op
        } else {
            None
        }
    }

    /// The operation at an offset of code: of a pair, or of one word.
    fn code_operation(&self, object: u32, section: u32, offset: u64) -> PlacedOp
        ghost given: { Given }
        requires machine { IsMachineOf given self.now }
        requires place { IsFaultless given object section offset }
        ensures value { code_op (needed_places given) given object section offset ≡ Some (placed_operation_of result) }
        ensures fits { FitsInstructions (placed_operation_of result) }
    {
        let op = self.sources.op_at(object, section, offset);
        let operand = self.operand(object, section, offset);
        if self.begins_pair(op, object, section, offset) {
            self.pair(operand, object, section, offset)
        } else {
            self.word(op, operand, object, section, offset)
        }
    }

    /// Whether a pair begins at an offset, by the operation there.
    #[tactic(auto, using(crate::proofs::Linking::no_pair_at))]
    fn begins_pair(&self, op: Option<RvOp>, object: u32, section: u32, offset: u64) -> bool
        ghost given: { Given }
        requires machine { IsMachineOf given self.now }
        requires section { IsCodeSection given object section }
        requires op { op ≡ raw_at given (Code object section offset) }
        ensures { result ≡ is_pair_at given object section offset }
    {
        holds_auipc(op) && self.sources.is_pair_at(object, section, offset)
    }

    /// What the relocation at an offset gives.
    fn operand(&self, object: u32, section: u32, offset: u64) -> Operand
        ghost given: { Given }
        requires machine { IsMachineOf given self.now }
        requires place { IsFaultless given object section offset }
        ensures { result ≡ operand_at given object section offset }
    {
        match self.sources.relocations(object, section, offset).first() {
            Some(relocation) => self.sources.operand(object, section, *relocation),
            None => Operand::Nothing,
        }
    }

    /// The operation of the pair at an offset.
    #[tactic(auto, using(crate::proofs::PairRows::pairs))]
    fn pair(&self, operand: Operand, object: u32, section: u32, offset: u64) -> PlacedOp
        ghost given: { Given }
        requires machine { IsMachineOf given self.now }
        requires place { IsFaultless given object section offset }
        requires operand { operand ≡ operand_at given object section offset }
        requires pair { is_pair_at given object section offset ≡ true }
        ensures value { pair_op (needed_places given) (Code object section (offset + 8)) (target_or given operand Nowhere) (raw_at given (Code object section offset)) (raw_at given (Code object section (offset + 4))) ≡ Some (placed_operation_of result) }
        ensures fits { FitsInstructions (placed_operation_of result) }
    {
        let (temp, rd) = pair_registers(
            self.sources.op_at(object, section, offset),
            self.sources.op_at(object, section, offset + 4),
        );
        PlacedOp::Pair {
            temp,
            rd,
            link: self.link(rd, object, section, offset + 8),
            target: self.pair_target(operand),
        }
    }

    /// The operation of the word at an offset.
    #[tactic(auto, using(crate::proofs::CodeRoom::words))]
    fn word(
        &self,
        op: Option<RvOp>,
        operand: Operand,
        object: u32,
        section: u32,
        offset: u64,
    ) -> PlacedOp
        ghost given: { Given }
        requires machine { IsMachineOf given self.now }
        requires place { IsFaultless given object section offset }
        requires op { op ≡ raw_at given (Code object section offset) }
        requires operand { operand ≡ operand_at given object section offset }
        ensures value { option_map (placed_op (needed_places given) (Code object section (offset + 4)) (target_from given object section offset operand) operand) (raw_at given (Code object section offset)) ≡ Some (placed_operation_of result) }
        ensures fits { FitsInstructions (placed_operation_of result) }
    {
        match op {
            Some(op) => self.placed(op, operand, object, section, offset),
            None => unreachable!(),
        }
    }

    /// The operation of a word, by the operand of its relocation.
    fn placed(&self, op: RvOp, operand: Operand, object: u32, section: u32, offset: u64) -> PlacedOp
        ghost given: { Given }
        requires machine { IsMachineOf given self.now }
        requires ranges { IsOp op }
        requires takes { CanTake op operand }
        requires room { offset + 4 < 2 ^ 64 }
        ensures value { placed_op (needed_places given) (Code object section (offset + 4)) (target_from given object section offset operand) operand op ≡ placed_operation_of result }
        ensures fits { FitsInstructions (placed_operation_of result) }
    {
        match op {
            RvOp::Jal { rd, offset: by } => PlacedOp::Jal {
                rd,
                link: self.link(rd, object, section, offset + 4),
                target: self.target(operand, object, section, offset, by),
            },
            RvOp::Jalr { rd, rs1, imm } => PlacedOp::Jalr {
                rd,
                rs1,
                imm: low_or(operand, imm),
                link: self.link(rd, object, section, offset + 4),
            },
            RvOp::Branch {
                cond,
                rs1,
                rs2,
                offset: by,
            } => PlacedOp::Branch {
                cond,
                rs1,
                rs2,
                target: self.target(operand, object, section, offset, by),
            },
            op => PlacedOp::Plain(relocated(op, operand)),
        }
    }

    /// The number that a link register takes for the place at an offset.
    #[tactic(auto, using(crate::proofs::Links::link_rules))]
    fn link(&self, rd: Reg, object: u32, section: u32, offset: u64) -> u32
        ghost given: { Given }
        requires machine { IsMachineOf given self.now }
        ensures value { result ≡ if_link (needed_places given) rd (Code object section offset) }
        ensures fits { IsLink rd result }
    {
        match rd {
            Reg::Zero => 0,
            Reg::R(_) => self
                .map
                .number(Place::Code {
                    object,
                    section,
                    offset,
                })
                .unwrap_or(0),
        }
    }

    /// The target of a branch or a `jal`: of its relocation, or of its own offset.
    fn target(&self, operand: Operand, object: u32, section: u32, offset: u64, by: i32) -> Site
        ghost given: { Given }
        requires machine { IsMachineOf given self.now }
        requires target { HasTarget operand }
        ensures { site_of result ≡ target_from given object section offset operand by }
    {
        match operand {
            Operand::Target(place) => self.target_site(place),
            Operand::Nothing | Operand::Value(_) => Site::Code {
                object,
                section,
                offset: offset.wrapping_add_signed(i64::from(by)),
            },
        }
    }

    /// The target of a pair.
    fn pair_target(&self, operand: Operand) -> Site
        ghost given: { Given }
        requires machine { IsMachineOf given self.now }
        requires target { IsTarget operand }
        ensures { site_of result ≡ target_or given operand Nowhere }
    {
        match operand {
            Operand::Target(place) => self.target_site(place),
            Operand::Nothing | Operand::Value(_) => unreachable!(),
        }
    }

    /// The place of a target: an import's is its stub, and that of an absent name is the trap stub.
    fn target_site(&self, place: Place) -> Site
        ghost given: { Given }
        requires machine { IsMachineOf given self.now }
        requires target { can_be_target place ≡ true }
        ensures { site_of result ≡ target_place given place }
    {
        match place {
            Place::Code {
                object,
                section,
                offset,
            } => Site::Code {
                object,
                section,
                offset,
            },
            Place::Import(number) => Site::Stub { number, at: 0 },
            Place::Absent => Site::Stub {
                number: self.wanted.imports(),
                at: 0,
            },
            Place::Bytes { .. } | Place::Unloaded | Place::Number(_) => unreachable!(),
        }
    }

    /// The operation at a place of a stub.
    #[tactic(auto, using(crate::proofs::StubPlaces::stub_rules))]
    fn stub_operation(&self, number: u32, at: u32) -> PlacedOp
        ghost given: { Given }
        requires machine { IsMachineOf given self.now }
        requires place { is_place given (Stub number at) ≡ true }
        ensures value { the_stub_operation given number at ≡ Some (placed_operation_of result) }
        ensures fits { FitsInstructions (placed_operation_of result) }
    {
        if number < self.wanted.imports() {
            self.import_operation(number, at)
        } else {
            PlacedOp::Plain(RvOp::Trap)
        }
    }

    /// The operations of an import's stub: its call, and `jalr x0, 0(ra)` back to the caller.
    fn import_operation(&self, number: u32, at: u32) -> PlacedOp
        ghost given: { Given }
        requires machine { IsMachineOf given self.now }
        requires number { number < length given.wanted.imports }
        requires at { at < 2 }
        ensures value { stub_op (slice_get given.wanted.imports number) at ≡ Some (placed_operation_of result) }
        ensures fits { FitsInstructions (placed_operation_of result) }
    {
        if at == 0 {
            self.import_call(number)
        } else {
            PlacedOp::Jalr {
                rd: Reg::Zero,
                rs1: Reg::R(0),
                imm: 0,
                link: 0,
            }
        }
    }

    /// The call that an import stands for.
    fn import_call(&self, number: u32) -> PlacedOp
        ghost given: { Given }
        requires machine { IsMachineOf given self.now }
        requires number { number < length given.wanted.imports }
        ensures value { IsSomeAnd (slice_get given.wanted.imports number) (λ one. import_op one.kind ≡ placed_operation_of result) }
        ensures fits { FitsInstructions (placed_operation_of result) }
    {
        match self.wanted.import_kind(number) {
            ImportKind::Host(call) => PlacedOp::Host(call),
            ImportKind::Sbrk => PlacedOp::Sbrk,
        }
    }
}

/// The registers of a pair: that of the `auipc`, and the link register of the `jalr`.
fn pair_registers(first: Option<RvOp>, second: Option<RvOp>) -> (Reg, Reg)
    requires joins { the_joins first second ≡ true }
    requires first { IfSome first IsOp }
    requires second { IfSome second IsOp }
    ensures pair { (needed : List CodePlace) (next target : CodePlace) → pair_op needed next target first second ≡ Some (Pair result.0 result.1 (if_link needed result.1 next) target) }
    ensures registers { IsReg result.0 × IsReg result.1 }
{
    match (first, second) {
        (Some(RvOp::Auipc { rd: temp, .. }), Some(RvOp::Jalr { rd, .. })) => (temp, rd),
        _ => unreachable!(),
    }
}

/// An operation with the value of its relocation, if it has one.
#[tactic(auto, using(crate::proofs::PlainRows::rows))]
fn relocated(op: RvOp, operand: Operand) -> RvOp
    requires ranges { IsOp op }
    requires takes { CanTake op operand }
    ensures value { result ≡ with_operand operand op }
    ensures fits { is_plain op ≡ true → PlainFits result }
{
    match op {
        RvOp::Lui { rd, value } => RvOp::Lui {
            rd,
            value: whole_or(operand, value),
        },
        RvOp::Auipc { rd, value } => RvOp::Auipc {
            rd,
            value: upper_or_own(operand, value),
        },
        RvOp::Load {
            width,
            rd,
            rs1,
            imm,
        } => RvOp::Load {
            width,
            rd,
            rs1,
            imm: low_or(operand, imm),
        },
        RvOp::Store {
            width,
            rs1,
            rs2,
            imm,
        } => RvOp::Store {
            width,
            rs1,
            rs2,
            imm: low_or(operand, imm),
        },
        RvOp::OpImm { op, rd, rs1, imm } => RvOp::OpImm {
            op,
            rd,
            rs1,
            imm: low_or(operand, imm),
        },
        op => op,
    }
}

/// The value of a relocation, or the operation's own.
fn whole_or(operand: Operand, own: i64) -> i64
    ensures { result ≡ value_or operand own }
{
    match operand {
        Operand::Value(value) => value,
        Operand::Nothing | Operand::Target(_) => own,
    }
}

/// A value of 12 bits that a relocation gives, or the operation's own.
fn low_or(operand: Operand, own: i32) -> i32
    requires { HasBits 12 operand }
    ensures { result ≡ value_or operand own }
{
    match operand {
        Operand::Value(value) => value as i32,
        Operand::Nothing | Operand::Target(_) => own,
    }
}

/// The upper part of a relocation's value, or the operation's own value.
fn upper_or_own(operand: Operand, own: i64) -> i64
    requires { HasUpper operand }
    ensures { result ≡ upper_or operand own }
{
    match operand {
        Operand::Value(value) => 0x1000 * (value + 0x800).div_euclid(0x1000),
        Operand::Nothing | Operand::Target(_) => own,
    }
}
