//! Which operation a word of an opcode is, by its function fields.

ghost use Rattle.std.specs.Prelude.{◌≡◌};
ghost use Rattle.rv_decode.specs.Operations.{cond_of, load_width_of, store_width_of, right_shift_of, alu_imm_of, alu_imm_32_of, base_of, alternate_of, multiply_of, alu_of, base_32_of, alternate_32_of, multiply_32_of, alu_32_of};

use crate::fields::{funct3, funct6, funct7};
use crate::ops::{Alu, AluImm, Cond, LoadWidth, StoreWidth, WordFault};

/// The condition of a branch.
#[tactic(auto, unfolding(crate::specs::Operations::cond_of))]
pub(crate) fn cond(word: u32) -> Result<Cond, WordFault>
    ensures { result ≡ cond_of word }
{
    match funct3(word) {
        0 => Ok(Cond::Eq),
        1 => Ok(Cond::Ne),
        4 => Ok(Cond::Lt),
        5 => Ok(Cond::Ge),
        6 => Ok(Cond::Ltu),
        7 => Ok(Cond::Geu),
        _ => Err(WordFault::BadWord),
    }
}

/// How much a load reads.
#[tactic(auto, unfolding(crate::specs::Operations::load_width_of))]
pub(crate) fn load_width(word: u32) -> Result<LoadWidth, WordFault>
    ensures { result ≡ load_width_of word }
{
    match funct3(word) {
        0 => Ok(LoadWidth::Lb),
        1 => Ok(LoadWidth::Lh),
        2 => Ok(LoadWidth::Lw),
        3 => Ok(LoadWidth::Ld),
        4 => Ok(LoadWidth::Lbu),
        5 => Ok(LoadWidth::Lhu),
        6 => Ok(LoadWidth::Lwu),
        _ => Err(WordFault::BadWord),
    }
}

/// How much a store writes.
#[tactic(auto, unfolding(crate::specs::Operations::store_width_of))]
pub(crate) fn store_width(word: u32) -> Result<StoreWidth, WordFault>
    ensures { result ≡ store_width_of word }
{
    match funct3(word) {
        0 => Ok(StoreWidth::Sb),
        1 => Ok(StoreWidth::Sh),
        2 => Ok(StoreWidth::Sw),
        3 => Ok(StoreWidth::Sd),
        _ => Err(WordFault::BadWord),
    }
}

/// The operation on a register of 64 bits and an immediate.
#[tactic(auto, unfolding(crate::specs::Operations::alu_imm_of))]
pub(crate) fn alu_imm(word: u32) -> Result<AluImm, WordFault>
    ensures { result ≡ alu_imm_of word }
{
    match funct3(word) {
        0 => Ok(AluImm::Addi),
        1 if funct6(word) == 0 => Ok(AluImm::Slli),
        2 => Ok(AluImm::Slti),
        3 => Ok(AluImm::Sltiu),
        4 => Ok(AluImm::Xori),
        5 => right_shift(word),
        6 => Ok(AluImm::Ori),
        7 => Ok(AluImm::Andi),
        _ => Err(WordFault::BadWord),
    }
}

/// The shift of 64 bits to the right.
#[tactic(auto, unfolding(crate::specs::Operations::right_shift_of))]
fn right_shift(word: u32) -> Result<AluImm, WordFault>
    ensures { result ≡ right_shift_of word }
{
    match funct6(word) {
        0 => Ok(AluImm::Srli),
        0x10 => Ok(AluImm::Srai),
        _ => Err(WordFault::BadWord),
    }
}

/// The operation on the low 32 bits of a register and an immediate.
#[tactic(auto, unfolding(crate::specs::Operations::alu_imm_32_of))]
pub(crate) fn alu_imm_32(word: u32) -> Result<AluImm, WordFault>
    ensures { result ≡ alu_imm_32_of word }
{
    match (funct3(word), funct7(word)) {
        (0, _) => Ok(AluImm::Addiw),
        (1, 0) => Ok(AluImm::Slliw),
        (5, 0) => Ok(AluImm::Srliw),
        (5, 0x20) => Ok(AluImm::Sraiw),
        _ => Err(WordFault::BadWord),
    }
}

/// The operation on two registers of 64 bits.
#[tactic(auto, unfolding(crate::specs::Operations::alu_of))]
pub(crate) fn alu(word: u32) -> Result<Alu, WordFault>
    ensures { result ≡ alu_of word }
{
    match funct7(word) {
        0 => base(word),
        0x20 => alternate(word),
        1 => multiply(word),
        _ => Err(WordFault::BadWord),
    }
}

/// Those of RV64I with no bit of funct7 set.
#[tactic(auto, unfolding(crate::specs::Operations::base_of))]
fn base(word: u32) -> Result<Alu, WordFault>
    ensures { result ≡ base_of word }
{
    match funct3(word) {
        0 => Ok(Alu::Add),
        1 => Ok(Alu::Sll),
        2 => Ok(Alu::Slt),
        3 => Ok(Alu::Sltu),
        4 => Ok(Alu::Xor),
        5 => Ok(Alu::Srl),
        6 => Ok(Alu::Or),
        7 => Ok(Alu::And),
        _ => Err(WordFault::BadWord),
    }
}

/// Those of RV64I with the other funct7.
#[tactic(auto, unfolding(crate::specs::Operations::alternate_of))]
fn alternate(word: u32) -> Result<Alu, WordFault>
    ensures { result ≡ alternate_of word }
{
    match funct3(word) {
        0 => Ok(Alu::Sub),
        5 => Ok(Alu::Sra),
        _ => Err(WordFault::BadWord),
    }
}

/// Those of the extension M.
#[tactic(auto, unfolding(crate::specs::Operations::multiply_of))]
fn multiply(word: u32) -> Result<Alu, WordFault>
    ensures { result ≡ multiply_of word }
{
    match funct3(word) {
        0 => Ok(Alu::Mul),
        1 => Ok(Alu::Mulh),
        2 => Ok(Alu::Mulhsu),
        3 => Ok(Alu::Mulhu),
        4 => Ok(Alu::Div),
        5 => Ok(Alu::Divu),
        6 => Ok(Alu::Rem),
        7 => Ok(Alu::Remu),
        _ => Err(WordFault::BadWord),
    }
}

/// The operation on the low 32 bits of two registers.
#[tactic(auto, unfolding(crate::specs::Operations::alu_32_of))]
pub(crate) fn alu_32(word: u32) -> Result<Alu, WordFault>
    ensures { result ≡ alu_32_of word }
{
    match funct7(word) {
        0 => base_32(word),
        0x20 => alternate_32(word),
        1 => multiply_32(word),
        _ => Err(WordFault::BadWord),
    }
}

/// Those of RV64I with no bit of funct7 set.
#[tactic(auto, unfolding(crate::specs::Operations::base_32_of))]
fn base_32(word: u32) -> Result<Alu, WordFault>
    ensures { result ≡ base_32_of word }
{
    match funct3(word) {
        0 => Ok(Alu::Addw),
        1 => Ok(Alu::Sllw),
        5 => Ok(Alu::Srlw),
        _ => Err(WordFault::BadWord),
    }
}

/// Those of RV64I with the other funct7.
#[tactic(auto, unfolding(crate::specs::Operations::alternate_32_of))]
fn alternate_32(word: u32) -> Result<Alu, WordFault>
    ensures { result ≡ alternate_32_of word }
{
    match funct3(word) {
        0 => Ok(Alu::Subw),
        5 => Ok(Alu::Sraw),
        _ => Err(WordFault::BadWord),
    }
}

/// Those of the extension M.
#[tactic(auto, unfolding(crate::specs::Operations::multiply_32_of))]
fn multiply_32(word: u32) -> Result<Alu, WordFault>
    ensures { result ≡ multiply_32_of word }
{
    match funct3(word) {
        0 => Ok(Alu::Mulw),
        4 => Ok(Alu::Divw),
        5 => Ok(Alu::Divuw),
        6 => Ok(Alu::Remw),
        7 => Ok(Alu::Remuw),
        _ => Err(WordFault::BadWord),
    }
}
