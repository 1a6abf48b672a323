//! Runs of constants: consecutive operations that leave a known number in one register.

ghost use Rattle.std.specs.Prelude.{◌≡◌, ◌∷◌, ◌<◌, ◌≤◌, length, nat_eq, slice_range, Some, slice_get, IfSome};
ghost use Rattle.numbers.specs.Words.{sign_extend, word_of};
ghost use Rattle.arithmetic.specs.Operations.{binary};
ghost use Rattle.lift_blocks.specs.Arithmetic.{of_alu, of_alu_imm};
ghost use Rattle.lift_blocks.specs.Kept.{operation_of};
ghost use Rattle.lower.specs.Constants.{begins_run, computed, computed_plain, constant, goes_on, is_known, is_number, known_value, number_of, reads_known, runs, value_of, written};
ghost use Rattle.lower.specs.Instructions.{load_imm_64};

use crate::forms::rx;
use crate::operations::{load_imm, word};
use crate::tables::{alu_binary, alu_imm_binary};
use lift_blocks::{Lifted, SourceOp};
use pvm_ops::Instr;
use rv_decode::{Alu, AluImm, Reg, RvOp};

const LOAD_IMM_64: u8 = 20;

/// A run of constants on one register.
#[derive(Clone, Copy)]
pub(crate) struct Run {
    /// The number of the operation after it.
    pub(crate) end: u32,
    /// What it leaves in its register.
    pub(crate) value: u64,
}

/// The longest run on a register that begins with an operation, among those in front of another.
pub(crate) fn run_on(lifted: &Lifted, register: u8, from: u32, to: u32) -> Run
    requires some { from < to }
    requires within { to ≤ length lifted.now.ops }
    requires begins { IfSome (slice_get lifted.now.ops from) (λ op. begins_run op ≡ Some register) }
    ensures after { from < result.end }
    ensures within { result.end ≤ to }
    ensures value { result.value ≡ value_of 0 (slice_range lifted.now.ops from result.end) }
    ensures first { runs (slice_range lifted.now.ops from to) ≡ slice_range lifted.now.ops from result.end ∷ runs (slice_range lifted.now.ops result.end to) }
{
    let mut value = computed(0, &lifted.operation(from));
    let mut end = from + 1;
    while end < to && goes_on(register, &lifted.operation(end)) {
        value = computed(value, &lifted.operation(end));
        end += 1;
    }
    Run { end, value }
}

/// The register of the run that may begin with an operation, if it reads no register but x0 and writes another.
pub(crate) fn begins_run(op: &SourceOp) -> Option<u8>
    ensures { result ≡ begins_run (operation_of op.now) }
{
    match *op {
        SourceOp::Plain(plain) => if reads_known(None, plain) {
            written(plain)
        } else {
            None
        },
        _ => None,
    }
}

/// The instruction that puts a number into a register, with 32 bits of it where it is their sign extension.
pub(crate) fn constant(register: u8, value: u64) -> Instr
    ensures { result ≡ constant register value }
{
    if is_short(value) {
        load_imm(register, value)
    } else {
        load_imm_64(register, value)
    }
}

/// Whether a run on a register may go on with an operation, which writes the register and reads no other but x0.
fn goes_on(register: u8, op: &SourceOp) -> bool
    ensures { result ≡ goes_on register (operation_of op.now) }
{
    match *op {
        SourceOp::Plain(plain) => reads_known(Some(register), plain)
            && is_number(register, written(plain)),
        _ => false,
    }
}

fn is_number(register: u8, other: Option<u8>) -> bool
    ensures { result ≡ is_number register other }
{
    match other {
        Some(other) => other == register,
        None => false,
    }
}

/// The register other than x0 that is written by an operation on registers and immediates alone.
fn written(op: RvOp) -> Option<u8>
    ensures { result ≡ written op }
{
    match op {
        RvOp::Lui { rd, .. } | RvOp::Auipc { rd, .. } => number(rd),
        RvOp::OpImm { rd, .. } | RvOp::Op { rd, .. } => number(rd),
        _ => None,
    }
}

fn number(register: Reg) -> Option<u8>
    ensures { result ≡ number_of register }
{
    match register {
        Reg::Zero => None,
        Reg::R(number) => Some(number),
    }
}

/// Whether an operation on registers and immediates reads none but x0 and the one that is known.
fn reads_known(known: Option<u8>, op: RvOp) -> bool
    ensures { result ≡ reads_known known op }
{
    match op {
        RvOp::OpImm { rs1, .. } => is_known(known, rs1),
        RvOp::Op { rs1, rs2, .. } => is_known(known, rs1) && is_known(known, rs2),
        _ => true,
    }
}

fn is_known(known: Option<u8>, register: Reg) -> bool
    ensures { result ≡ is_known known register }
{
    match (register, known) {
        (Reg::Zero, _) => true,
        (Reg::R(_), None) => false,
        (Reg::R(number), Some(known)) => number == known,
    }
}

/// What an operation of a run leaves in the run's register, by what that held before.
fn computed(value: u64, op: &SourceOp) -> u64
    ensures { result ≡ computed value (operation_of op.now) }
{
    match *op {
        SourceOp::Plain(plain) => computed_of(value, plain),
        _ => value,
    }
}

fn computed_of(before: u64, op: RvOp) -> u64
    ensures { result ≡ computed_plain before op }
{
    match op {
        RvOp::Lui { value, .. } => value.cast_unsigned(),
        RvOp::Auipc { value, .. } => value.cast_unsigned(),
        RvOp::OpImm { op, rs1, imm, .. } => with_immediate(before, op, rs1, imm),
        RvOp::Op { op, rs1, rs2, .. } => with_registers(before, op, rs1, rs2),
        _ => before,
    }
}

fn with_immediate(before: u64, op: AluImm, rs1: Reg, imm: i32) -> u64
    ensures { result ≡ binary (of_alu_imm op) (known_value before rs1) (word_of imm) }
{
    alu_imm_binary(op).apply(known_value(before, rs1), word(imm))
}

fn with_registers(before: u64, op: Alu, rs1: Reg, rs2: Reg) -> u64
    ensures { result ≡ binary (of_alu op) (known_value before rs1) (known_value before rs2) }
{
    alu_binary(op).apply(known_value(before, rs1), known_value(before, rs2))
}

/// What a register holds, where each but x0 holds this value.
fn known_value(value: u64, register: Reg) -> u64
    ensures { result ≡ known_value value register }
{
    match register {
        Reg::Zero => 0,
        Reg::R(_) => value,
    }
}

/// Whether a number is the sign extension of its low 32 bits.
fn is_short(value: u64) -> bool
    ensures { result ≡ nat_eq (sign_extend 32 value) value }
{
    value < 0x8000_0000 || value >= 0xffff_ffff_8000_0000
}

fn load_imm_64(a: u8, x: u64) -> Instr
    ensures { result ≡ load_imm_64 a x }
{
    rx(LOAD_IMM_64, a, x)
}
