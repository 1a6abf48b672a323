ghost use Rattle.std.specs.Prelude.{◌≡◌, Ok, IfOk};
ghost use Rattle.rv_decode.specs.Operations.{operation, of_lui, of_auipc, of_jal, of_jalr, of_branch, load_into, of_load, of_store, with_immediate, of_op_imm, of_op_imm_32, with_registers, of_op, of_op_32, of_misc_mem, of_system, IsOp};

use crate::fields::{
    b_immediate, funct3, i_immediate, immediate, j_immediate, opcode, rd, rs1, rs2, s_immediate,
    u_immediate,
};
use crate::ops::{Alu, AluImm, LoadWidth, Reg, RvOp, WordFault};
use crate::tables::{alu, alu_32, alu_imm, alu_imm_32, cond, load_width, store_width};

const LUI: u32 = 0x37;

const AUIPC: u32 = 0x17;

const JAL: u32 = 0x6f;

const JALR: u32 = 0x67;

const BRANCH: u32 = 0x63;

const LOAD: u32 = 0x03;

const STORE: u32 = 0x23;

const OP_IMM: u32 = 0x13;

const OP_IMM_32: u32 = 0x1b;

const OP: u32 = 0x33;

const OP_32: u32 = 0x3b;

const MISC_MEM: u32 = 0x0f;

const SYSTEM: u32 = 0x73;

const EBREAK: u32 = 0x0010_0073;

const UNIMP: u32 = 0xc000_1073;

const ECALL: u32 = 0x0000_0073;

/// The operation of a word of RV64EM (RISC-V unprivileged manual, "RV32/64G Instruction Set Listings"), with its
/// registers by their numbers in the PVM, or the first of the faults that it has. Takes no memory.
#[tactic(auto, using(crate::proofs::OperationRanges::operation_is_op))]
pub fn decode(word: u32) -> Result<RvOp, WordFault>
    ensures table { result ≡ operation word }
    ensures ranges { IfOk result IsOp }
{
    row(word)
}

/// The row of a word's opcode.
#[tactic(auto, unfolding(crate::specs::Operations::operation))]
fn row(word: u32) -> Result<RvOp, WordFault>
    ensures { result ≡ operation word }
{
    match opcode(word) {
        LUI => lui(word),
        AUIPC => auipc(word),
        JAL => jal(word),
        JALR => jalr(word),
        BRANCH => branch(word),
        LOAD => load(word),
        STORE => store(word),
        OP_IMM => op_imm(word),
        OP_IMM_32 => op_imm_32(word),
        OP => op(word),
        OP_32 => op_32(word),
        MISC_MEM => misc_mem(word),
        SYSTEM => system(word),
        _ => Err(WordFault::BadWord),
    }
}

/// The upper immediate into a register.
#[tactic(auto, unfolding(crate::specs::Operations::of_lui))]
fn lui(word: u32) -> Result<RvOp, WordFault>
    ensures { result ≡ of_lui word }
{
    let rd = rd(word)?;
    let value = u_immediate(word);
    Ok(RvOp::Lui { rd, value })
}

/// The upper immediate and the word's address into a register.
#[tactic(auto, unfolding(crate::specs::Operations::of_auipc))]
fn auipc(word: u32) -> Result<RvOp, WordFault>
    ensures { result ≡ of_auipc word }
{
    let rd = rd(word)?;
    let value = u_immediate(word);
    Ok(RvOp::Auipc { rd, value })
}

/// The jump by an offset.
#[tactic(auto, unfolding(crate::specs::Operations::of_jal))]
fn jal(word: u32) -> Result<RvOp, WordFault>
    ensures { result ≡ of_jal word }
{
    let rd = rd(word)?;
    let offset = j_immediate(word);
    Ok(RvOp::Jal { rd, offset })
}

/// The jump to a register's value.
#[tactic(auto, unfolding(crate::specs::Operations::of_jalr))]
fn jalr(word: u32) -> Result<RvOp, WordFault>
    ensures { result ≡ of_jalr word }
{
    if funct3(word) != 0 {
        return Err(WordFault::BadWord);
    }
    let rd = rd(word)?;
    let rs1 = rs1(word)?;
    let imm = i_immediate(word);
    Ok(RvOp::Jalr { rd, rs1, imm })
}

/// The jumps where two registers compare so.
#[tactic(auto, unfolding(crate::specs::Operations::of_branch))]
fn branch(word: u32) -> Result<RvOp, WordFault>
    ensures { result ≡ of_branch word }
{
    let cond = cond(word)?;
    let rs1 = rs1(word)?;
    let rs2 = rs2(word)?;
    let offset = b_immediate(word);
    Ok(RvOp::Branch {
        cond,
        rs1,
        rs2,
        offset,
    })
}

/// The loads, but those into x0.
#[tactic(auto, unfolding(crate::specs::Operations::of_load))]
fn load(word: u32) -> Result<RvOp, WordFault>
    ensures { result ≡ of_load word }
{
    let width = load_width(word)?;
    let rd = rd(word)?;
    let rs1 = rs1(word)?;
    load_into(width, rd, rs1, i_immediate(word))
}

/// A load into a register.
fn load_into(width: LoadWidth, rd: Reg, rs1: Reg, imm: i32) -> Result<RvOp, WordFault>
    ensures { result ≡ load_into width rd rs1 imm }
{
    match rd {
        Reg::Zero => Err(WordFault::LoadToZero),
        Reg::R(_) => Ok(RvOp::Load {
            width,
            rd,
            rs1,
            imm,
        }),
    }
}

/// The stores.
#[tactic(auto, unfolding(crate::specs::Operations::of_store))]
fn store(word: u32) -> Result<RvOp, WordFault>
    ensures { result ≡ of_store word }
{
    let width = store_width(word)?;
    let rs1 = rs1(word)?;
    let rs2 = rs2(word)?;
    let imm = s_immediate(word);
    Ok(RvOp::Store {
        width,
        rs1,
        rs2,
        imm,
    })
}

/// The operations on a register and an immediate.
#[tactic(auto, unfolding(crate::specs::Operations::of_op_imm))]
fn op_imm(word: u32) -> Result<RvOp, WordFault>
    ensures { result ≡ of_op_imm word }
{
    let op = alu_imm(word)?;
    with_immediate(op, word)
}

/// The same on the low 32 bits.
#[tactic(auto, unfolding(crate::specs::Operations::of_op_imm_32))]
fn op_imm_32(word: u32) -> Result<RvOp, WordFault>
    ensures { result ≡ of_op_imm_32 word }
{
    let op = alu_imm_32(word)?;
    with_immediate(op, word)
}

/// An operation on a register and an immediate, with the registers of a word.
fn with_immediate(op: AluImm, word: u32) -> Result<RvOp, WordFault>
    ensures { result ≡ with_immediate (Ok op) word }
{
    let rd = rd(word)?;
    let rs1 = rs1(word)?;
    let imm = immediate(op, word);
    Ok(RvOp::OpImm { op, rd, rs1, imm })
}

/// The operations on two registers.
#[tactic(auto, unfolding(crate::specs::Operations::of_op))]
fn op(word: u32) -> Result<RvOp, WordFault>
    ensures { result ≡ of_op word }
{
    let op = alu(word)?;
    with_registers(op, word)
}

/// The same on the low 32 bits.
#[tactic(auto, unfolding(crate::specs::Operations::of_op_32))]
fn op_32(word: u32) -> Result<RvOp, WordFault>
    ensures { result ≡ of_op_32 word }
{
    let op = alu_32(word)?;
    with_registers(op, word)
}

/// An operation on two registers, with the registers of a word.
fn with_registers(op: Alu, word: u32) -> Result<RvOp, WordFault>
    ensures { result ≡ with_registers (Ok op) word }
{
    let rd = rd(word)?;
    let rs1 = rs1(word)?;
    let rs2 = rs2(word)?;
    Ok(RvOp::Op { op, rd, rs1, rs2 })
}

/// The fence, whatever it orders.
#[tactic(auto, unfolding(crate::specs::Operations::of_misc_mem))]
fn misc_mem(word: u32) -> Result<RvOp, WordFault>
    ensures { result ≡ of_misc_mem word }
{
    match funct3(word) {
        0 => Ok(RvOp::Fence),
        _ => Err(WordFault::BadWord),
    }
}

/// The traps, and the call of an environment that there is not here.
#[tactic(auto, unfolding(crate::specs::Operations::of_system))]
fn system(word: u32) -> Result<RvOp, WordFault>
    ensures { result ≡ of_system word }
{
    match word {
        EBREAK | UNIMP => Ok(RvOp::Trap),
        ECALL => Err(WordFault::Ecall),
        _ => Err(WordFault::BadWord),
    }
}
