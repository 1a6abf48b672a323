//! The instructions of an operation that is no jump and no branch.

ghost use Rattle.std.specs.Prelude.{◌≡◌, [], ◌∷◌, IfSome};
ghost use Rattle.std.specs.List.{AllByRecursion};
ghost use Rattle.numbers.specs.Words.{word_of};
ghost use Rattle.jump_table.specs.Laws.{IsPlainInstr};
ghost use Rattle.lower.specs.Instructions.{add_imm_32, load_imm, move_reg, neg_add_imm_64, rrr, rrx, set_lt_u_imm};
ghost use Rattle.lower.specs.Laws.{HasEffect};
ghost use Rattle.lower.specs.Plain.{IsLowerable, alu_imm_opcode, alu_opcode, listed, load_ind_opcode, lower_plain, store_ind_opcode, three_of, with_first_zero, with_second_zero};

use crate::forms::{Three, all_three, none, one, rr, rrr, rrx, rx, rxy, trap, two, xy};
use crate::tables::{
    alu_binary, alu_imm_binary, alu_imm_opcode, alu_opcode, load_ind_opcode, load_opcode,
    store_imm_ind_opcode, store_imm_opcode, store_ind_opcode, store_opcode,
};
use pvm_ops::Instr;
use rv_decode::{Alu, AluImm, LoadWidth, Reg, RvOp, StoreWidth};

const LOAD_IMM: u8 = 51;

const MOVE_REG: u8 = 100;

const ADD_IMM_32: u8 = 131;

const SET_LT_U_IMM: u8 = 136;

const SET_LT_S_IMM: u8 = 137;

const NEG_ADD_IMM_32: u8 = 141;

const SET_GT_U_IMM: u8 = 142;

const SET_GT_S_IMM: u8 = 143;

const NEG_ADD_IMM_64: u8 = 154;

/// The instructions that do what an operation does, none to three of them. Takes no memory.
///
/// The operation is no jump and no branch. Its registers are x0 or numbers from 0 to 12, and a load's rd isn't x0. The
/// value of a lui or auipc has 32 bits, and the amount of a shift is below the number of bits that it shifts. Other
/// immediates have up to 32 bits, as relocations leave them.
pub fn lower_operation(op: &RvOp) -> Three
    requires { IsLowerable op.now }
    ensures table { result ≡ three_of (lower_plain op.now) }
    ensures all { listed result ≡ lower_plain op.now }
    ensures plain { AllByRecursion IsPlainInstr (listed result) }
    ensures effect { HasEffect op.now (listed result) }
{
    instructions(op)
}

/// The instruction of an operation on registers other than x0, as most operations are.
pub(crate) fn of_registers(op: RvOp) -> Option<Instr>
    ensures { IfSome result (λ instr. lower_plain op ≡ instr ∷ []) }
{
    match op {
        RvOp::Load {
            width,
            rd: Reg::R(d),
            rs1: Reg::R(a),
            imm,
        } => Some(load_by(width, d, a, imm)),
        RvOp::Store {
            width,
            rs1: Reg::R(a),
            rs2: Reg::R(b),
            imm,
        } => Some(store_by(width, a, b, imm)),
        RvOp::OpImm {
            op,
            rd: Reg::R(d),
            rs1: Reg::R(a),
            imm,
        } => Some(immediate_by(op, d, a, imm)),
        RvOp::Op {
            op,
            rd: Reg::R(d),
            rs1: Reg::R(a),
            rs2: Reg::R(b),
        } => Some(registers_by(op, d, a, b)),
        _ => None,
    }
}

/// The row of an operation.
fn instructions(op: &RvOp) -> Three
    requires { IsLowerable op.now }
    ensures { result ≡ three_of (lower_plain op.now) }
{
    match *op {
        RvOp::Lui { rd, value } => upper(rd, value),
        RvOp::Auipc { rd, value } => upper(rd, value),
        RvOp::Load {
            width,
            rd,
            rs1,
            imm,
        } => load(width, rd, rs1, imm),
        RvOp::Store {
            width,
            rs1,
            rs2,
            imm,
        } => store(width, rs1, rs2, imm),
        RvOp::OpImm { op, rd, rs1, imm } => with_immediate(op, rd, rs1, imm),
        RvOp::Op { op, rd, rs1, rs2 } => with_registers(op, rd, rs1, rs2),
        RvOp::Trap => one(trap()),
        _ => none(),
    }
}

/// A constant.
fn upper(rd: Reg, value: i64) -> Three
    ensures { result ≡ three_of (lower_plain (RvOp.Lui rd value)) }
{
    match rd {
        Reg::Zero => none(),
        Reg::R(d) => one(load_imm(d, value.cast_unsigned())),
    }
}

/// A load, whose rd isn't x0.
fn load(width: LoadWidth, rd: Reg, rs1: Reg, imm: i32) -> Three
    ensures { result ≡ three_of (lower_plain (RvOp.Load width rd rs1 imm)) }
{
    let x = word(imm);
    match (rd, rs1) {
        (Reg::Zero, _) => none(),
        (Reg::R(d), Reg::Zero) => one(rx(load_opcode(width), d, x)),
        (Reg::R(d), Reg::R(a)) => one(load_by(width, d, a, imm)),
    }
}

/// A store.
fn store(width: StoreWidth, rs1: Reg, rs2: Reg, imm: i32) -> Three
    ensures { result ≡ three_of (lower_plain (RvOp.Store width rs1 rs2 imm)) }
{
    let x = word(imm);
    match (rs1, rs2) {
        (Reg::Zero, Reg::Zero) => one(xy(store_imm_opcode(width), x, 0)),
        (Reg::Zero, Reg::R(b)) => one(rx(store_opcode(width), b, x)),
        (Reg::R(a), Reg::Zero) => one(rxy(store_imm_ind_opcode(width), a, x, 0)),
        (Reg::R(a), Reg::R(b)) => one(store_by(width, a, b, imm)),
    }
}

/// An operation on a register and an immediate. On x0 it is a constant.
fn with_immediate(op: AluImm, rd: Reg, rs1: Reg, imm: i32) -> Three
    ensures { result ≡ three_of (lower_plain (RvOp.OpImm op rd rs1 imm)) }
{
    let x = word(imm);
    match (rd, rs1) {
        (Reg::Zero, _) => none(),
        (Reg::R(d), Reg::Zero) => one(load_imm(d, alu_imm_binary(op).apply(0, x))),
        (Reg::R(d), Reg::R(a)) => one(immediate_by(op, d, a, imm)),
    }
}

/// An operation on two registers.
fn with_registers(op: Alu, rd: Reg, rs1: Reg, rs2: Reg) -> Three
    ensures { result ≡ three_of (lower_plain (RvOp.Op op rd rs1 rs2)) }
{
    match (rd, rs1, rs2) {
        (Reg::Zero, _, _) => none(),
        (Reg::R(d), Reg::Zero, Reg::Zero) => one(load_imm(d, alu_binary(op).apply(0, 0))),
        (Reg::R(d), Reg::Zero, Reg::R(b)) => with_first_zero(op, d, b),
        (Reg::R(d), Reg::R(a), Reg::Zero) => with_second_zero(op, d, a),
        (Reg::R(d), Reg::R(a), Reg::R(b)) => one(registers_by(op, d, a, b)),
    }
}

/// A load at a register.
fn load_by(width: LoadWidth, d: u8, a: u8, imm: i32) -> Instr
    ensures { result ≡ rrx (load_ind_opcode width) d a (word_of imm) }
{
    rrx(load_ind_opcode(width), d, a, word(imm))
}

/// A store at a register.
fn store_by(width: StoreWidth, a: u8, b: u8, imm: i32) -> Instr
    ensures { result ≡ rrx (store_ind_opcode width) b a (word_of imm) }
{
    rrx(store_ind_opcode(width), b, a, word(imm))
}

/// An operation on a register other than x0 and an immediate.
fn immediate_by(op: AluImm, d: u8, a: u8, imm: i32) -> Instr
    ensures { result ≡ rrx (alu_imm_opcode op) d a (word_of imm) }
{
    rrx(alu_imm_opcode(op), d, a, word(imm))
}

/// An operation on two registers other than x0.
fn registers_by(op: Alu, d: u8, a: u8, b: u8) -> Instr
    ensures { result ≡ rrr (alu_opcode op) d a b }
{
    rrr(alu_opcode(op), d, a, b)
}

/// An operation on a register and x0.
fn with_second_zero(op: Alu, d: u8, a: u8) -> Three
    ensures { result ≡ three_of (with_second_zero op d a) }
{
    match op {
        Alu::Add | Alu::Or | Alu::Xor | Alu::Sub => one(move_reg(d, a)),
        Alu::Sll | Alu::Srl | Alu::Sra => one(move_reg(d, a)),
        Alu::And | Alu::Mul | Alu::Mulh | Alu::Mulhu => one(load_imm(d, 0)),
        Alu::Mulhsu | Alu::Mulw | Alu::Sltu => one(load_imm(d, 0)),
        Alu::Slt => one(rrx(SET_LT_S_IMM, d, a, 0)),
        Alu::Div | Alu::Divu | Alu::Divw | Alu::Divuw => one(load_imm(d, u64::MAX)),
        Alu::Rem | Alu::Remu => one(move_reg(d, a)),
        Alu::Remw | Alu::Remuw => one(add_imm_32(d, a, 0)),
        Alu::Addw | Alu::Subw => one(add_imm_32(d, a, 0)),
        Alu::Sllw | Alu::Srlw | Alu::Sraw => one(add_imm_32(d, a, 0)),
    }
}

/// An operation on x0 and a register.
fn with_first_zero(op: Alu, d: u8, b: u8) -> Three
    ensures { result ≡ three_of (with_first_zero op d b) }
{
    match op {
        Alu::Add | Alu::Or | Alu::Xor => one(move_reg(d, b)),
        Alu::Sub => one(neg_add_imm_64(d, b, 0)),
        Alu::Sll | Alu::Srl | Alu::Sra => one(load_imm(d, 0)),
        Alu::And | Alu::Mul | Alu::Mulh | Alu::Mulhu => one(load_imm(d, 0)),
        Alu::Mulhsu | Alu::Mulw => one(load_imm(d, 0)),
        Alu::Slt => one(rrx(SET_GT_S_IMM, d, b, 0)),
        Alu::Sltu => one(rrx(SET_GT_U_IMM, d, b, 0)),
        Alu::Div | Alu::Divu => two(set_lt_u_imm(d, b, 1), neg_add_imm_64(d, d, 0)),
        Alu::Divw | Alu::Divuw => all_three(
            add_imm_32(d, b, 0),
            set_lt_u_imm(d, d, 1),
            neg_add_imm_64(d, d, 0),
        ),
        Alu::Rem | Alu::Remu | Alu::Remw | Alu::Remuw => one(load_imm(d, 0)),
        Alu::Addw => one(add_imm_32(d, b, 0)),
        Alu::Subw => one(rrx(NEG_ADD_IMM_32, d, b, 0)),
        Alu::Sllw | Alu::Srlw | Alu::Sraw => one(load_imm(d, 0)),
    }
}

/// An immediate as the word that it is extended to.
pub(crate) fn word(imm: i32) -> u64
    ensures { result ≡ word_of imm }
{
    i64::from(imm).cast_unsigned()
}

pub(crate) fn load_imm(a: u8, x: u64) -> Instr
    ensures { result ≡ load_imm a x }
{
    rx(LOAD_IMM, a, x)
}

fn move_reg(d: u8, a: u8) -> Instr
    ensures { result ≡ move_reg d a }
{
    rr(MOVE_REG, d, a)
}

fn add_imm_32(a: u8, b: u8, x: u64) -> Instr
    ensures { result ≡ add_imm_32 a b x }
{
    rrx(ADD_IMM_32, a, b, x)
}

fn set_lt_u_imm(a: u8, b: u8, x: u64) -> Instr
    ensures { result ≡ set_lt_u_imm a b x }
{
    rrx(SET_LT_U_IMM, a, b, x)
}

fn neg_add_imm_64(a: u8, b: u8, x: u64) -> Instr
    ensures { result ≡ neg_add_imm_64 a b x }
{
    rrx(NEG_ADD_IMM_64, a, b, x)
}
