//! The instructions of branches and jumps, and where they lead.

ghost use Rattle.std.specs.Prelude.{◌≡◌, ℕ, ◌%◌, ◌^◌, ◌<◌, List, [], ◌∷◌, length, IfSome};
ghost use Rattle.numbers.specs.Words.{word_of};
ghost use Rattle.arithmetic.specs.Operations.{holds};
ghost use Rattle.runs.specs.Numbers.{named};
ghost use Rattle.lift_blocks.specs.Arithmetic.{of_cond};
ghost use Rattle.lift_blocks.specs.Fits.{FitsInstructions};
ghost use Rattle.lift_blocks.specs.Kept.{operation_of};
ghost use Rattle.lift_blocks.specs.Listed.{ends_block as does_end, target_of};
ghost use Rattle.lower.specs.Instructions.{ecalli, fallthrough as is_fallthrough, jump as is_jump, jump_ind, load_imm_jump, load_imm_jump_ind};
ghost use Rattle.lower.specs.Lowering.{offset_target, branch as is_branch, jump_by_register, jump_to, jump_with, lower_op, pair as is_pair};
ghost use Rattle.lower.specs.Plain.{listed};

use crate::forms::{Three, one, rr, rrx, rx, trap, two};
use crate::operations::{load_imm, lower_operation, of_registers, word};
use crate::tables::{branch_opcode, branch_zero_opcode, zero_branch_opcode};
use lift_blocks::{Lifted, SourceOp};
use pvm_ops::Instr;
use rv_decode::{Cond, Reg, RvOp};

const FALLTHROUGH: u8 = 1;

const ECALLI: u8 = 10;

const JUMP: u8 = 40;

const JUMP_IND: u8 = 50;

const LOAD_IMM_JUMP: u8 = 80;

const SBRK: u8 = 101;

const LOAD_IMM_JUMP_IND: u8 = 180;

/// The register a0, in which an import takes a size and leaves an address.
const SIZE: u8 = 7;

/// The instructions of an operation, with 0 for an offset.
pub(crate) fn instructions(lifted: &Lifted, op: &SourceOp) -> Three
    requires { FitsInstructions (operation_of op.now) }
    ensures { listed result ≡ lower_op lifted.now.needed (operation_of op.now) }
{
    match *op {
        SourceOp::Plain(plain) => lower_operation(&plain),
        SourceOp::Branch { cond, rs1, rs2, .. } => one(branch(cond, rs1, rs2)),
        SourceOp::Jal { rd, link, .. } => one(jump_with(rd, link)),
        SourceOp::Jalr { rd, rs1, imm, link } => one(register_jump(lifted, rd, rs1, imm, link)),
        SourceOp::Pair { temp, rd, link, .. } => pair(temp, rd, link),
        SourceOp::Host(number) => one(ecalli(number)),
        SourceOp::Sbrk => one(rr(SBRK, SIZE, SIZE)),
    }
}

/// The instruction of an operation on registers other than x0 that is no jump and no branch.
pub(crate) fn single(op: &SourceOp) -> Option<Instr>
    ensures { (needed : List ℕ) → IfSome result (λ instr. lower_op needed (operation_of op.now) ≡ instr ∷ []) }
{
    match *op {
        SourceOp::Plain(plain) => of_registers(plain),
        _ => None,
    }
}

/// The operation to which the offset of an operation's last instruction leads.
pub(crate) fn target(lifted: &Lifted, op: &SourceOp) -> Option<u32>
    requires { IfSome (target_of (operation_of op.now)) (λ t. t < length lifted.now.ops) }
    ensures value { result ≡ offset_target lifted.now.needed (operation_of op.now) }
    ensures within { IfSome result (λ t. t < length lifted.now.ops) }
{
    match *op {
        SourceOp::Branch {
            cond,
            rs1: Reg::Zero,
            rs2: Reg::Zero,
            target,
        } => if holds_of_equal(cond) {
            Some(target)
        } else {
            None
        },
        SourceOp::Branch { target, .. } => Some(target),
        SourceOp::Jal { target, .. } => Some(target),
        SourceOp::Pair { target, .. } => Some(target),
        SourceOp::Jalr {
            rs1: Reg::Zero,
            imm,
            ..
        } => named(lifted, imm),
        _ => None,
    }
}

/// Whether a block ends with an operation.
pub(crate) fn ends_block(op: &SourceOp) -> bool
    ensures { result ≡ does_end (operation_of op.now) }
{
    match *op {
        SourceOp::Plain(plain) => matches!(plain, RvOp::Trap),
        SourceOp::Host(_) | SourceOp::Sbrk => false,
        _ => true,
    }
}

/// The instruction at the end of a block that goes on to the next.
pub(crate) fn fallthrough() -> Instr
    ensures { result ≡ is_fallthrough }
{
    Instr {
        op: FALLTHROUGH,
        a: 0,
        b: 0,
        d: 0,
        x: 0,
        y: 0,
    }
}

fn ecalli(number: u32) -> Instr
    ensures { result ≡ ecalli number }
{
    Instr {
        op: ECALLI,
        a: 0,
        b: 0,
        d: 0,
        x: u64::from(number),
        y: 0,
    }
}

fn jump() -> Instr
    ensures { result ≡ is_jump }
{
    Instr {
        op: JUMP,
        a: 0,
        b: 0,
        d: 0,
        x: 0,
        y: 0,
    }
}

fn jump_ind(a: u8, x: u64) -> Instr
    ensures { result ≡ jump_ind a x }
{
    rx(JUMP_IND, a, x)
}

fn load_imm_jump(a: u8, link: u32) -> Instr
    ensures { result ≡ load_imm_jump a link }
{
    rx(LOAD_IMM_JUMP, a, u64::from(link))
}

fn load_imm_jump_ind(a: u8, b: u8, link: u32, y: u64) -> Instr
    ensures { result ≡ load_imm_jump_ind a b link y }
{
    Instr {
        op: LOAD_IMM_JUMP_IND,
        a,
        b,
        d: 0,
        x: u64::from(link),
        y,
    }
}

/// A branch. One of x0 and x0 is a jump where its condition holds.
fn branch(cond: Cond, rs1: Reg, rs2: Reg) -> Instr
    ensures { result ≡ is_branch cond rs1 rs2 }
{
    match (rs1, rs2) {
        (Reg::Zero, Reg::Zero) => if holds_of_equal(cond) {
            jump()
        } else {
            fallthrough()
        },
        (Reg::R(a), Reg::Zero) => rx(branch_zero_opcode(cond), a, 0),
        (Reg::Zero, Reg::R(b)) => rx(zero_branch_opcode(cond), b, 0),
        (Reg::R(a), Reg::R(b)) => rrx(branch_opcode(cond), a, b, 0),
    }
}

/// Whether a condition holds of equal words.
fn holds_of_equal(cond: Cond) -> bool
    ensures { result ≡ holds (of_cond cond) 0 0 }
{
    match cond {
        Cond::Eq | Cond::Ge | Cond::Geu => true,
        Cond::Ne | Cond::Lt | Cond::Ltu => false,
    }
}

/// A jump that leaves its link in a register.
fn jump_with(rd: Reg, link: u32) -> Instr
    ensures { result ≡ jump_with rd link }
{
    match rd {
        Reg::Zero => jump(),
        Reg::R(d) => load_imm_jump(d, link),
    }
}

/// A jump by a register and an immediate. On x0 it leads to the place of the address map that the immediate names.
fn register_jump(lifted: &Lifted, rd: Reg, rs1: Reg, imm: i32, link: u32) -> Instr
    ensures { lower_op lifted.now.needed (operation_of (SourceOp.Jalr rd rs1 imm link)) ≡ result ∷ [] }
{
    match (rd, rs1) {
        (_, Reg::Zero) => match named(lifted, imm) {
            Some(_) => jump_with(rd, link),
            None => trap(),
        },
        (Reg::Zero, Reg::R(a)) => jump_ind(a, word(imm)),
        (Reg::R(d), Reg::R(a)) => load_imm_jump_ind(d, a, link, word(imm)),
    }
}

/// The instructions of an `auipc` and a `jalr` to a known place. They leave 0 in the register of the `auipc`.
fn pair(temp: Reg, rd: Reg, link: u32) -> Three
    ensures { listed result ≡ is_pair temp rd link }
{
    match (temp, rd) {
        (Reg::Zero, _) => one(jump_with(rd, link)),
        (Reg::R(t), Reg::Zero) => one(load_imm_jump(t, 0)),
        (Reg::R(t), Reg::R(d)) => if t == d {
            one(load_imm_jump(d, link))
        } else {
            two(load_imm(t, 0), load_imm_jump(d, link))
        },
    }
}

/// The operation at the place of the address map that a constant address names.
fn named(lifted: &Lifted, imm: i32) -> Option<u32>
    ensures value { result ≡ named lifted.now.needed (word_of imm % 2 ^ 32) }
    ensures within { IfSome result (λ t. t < length lifted.now.ops) }
{
    named_by(lifted, (word(imm) % 0x1_0000_0000) as u32)
}

/// The operation at the place of the address map that a number names: 2 names the first, 4 the second, and so on.
fn named_by(lifted: &Lifted, number: u32) -> Option<u32>
    ensures value { result ≡ named lifted.now.needed number }
    ensures within { IfSome result (λ t. t < length lifted.now.ops) }
{
    if number % 2 != 0 || number == 0 {
        return None;
    }
    let at = number / 2 - 1;
    if at < needed_len(lifted) {
        Some(lifted.needed(at))
    } else {
        None
    }
}

/// How many places the address map has.
pub(crate) fn needed_len(lifted: &Lifted) -> u32
    ensures { result ≡ length lifted.now.needed }
{
    lifted.map().len()
}
