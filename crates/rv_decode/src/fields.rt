//! The fields of a word, its registers and its immediates, as the manual's formats place them.

ghost use Rattle.std.specs.Prelude.{◌≡◌, ℕ, ◌<◌, ◌^◌};
ghost use Rattle.numbers.specs.Words.{field, signed_of};
ghost use Rattle.rv_decode.specs.Operations.{opcode, rd_of, funct3, rs1_of, rs2_of, funct7, funct6, register_of, i_immediate, s_immediate, b_immediate, u_immediate, j_immediate, immediate_of};

use crate::ops::{AluImm, Reg, WordFault};

/// What the word is about, as the manual's opcode map has it.
pub(crate) fn opcode(word: u32) -> u32
    ensures { result ≡ opcode word }
{
    word % 128
}

/// What a word of its opcode does.
pub(crate) fn funct3(word: u32) -> u32
    ensures { result ≡ funct3 word }
{
    (word >> 12) % 8
}

/// The same for operations on two registers, and for shifts of 32 bits by an amount.
pub(crate) fn funct7(word: u32) -> u32
    ensures { result ≡ funct7 word }
{
    (word >> 25) % 128
}

/// The same for shifts of 64 bits by an amount, which takes six bits.
pub(crate) fn funct6(word: u32) -> u32
    ensures { result ≡ funct6 word }
{
    (word >> 26) % 64
}

/// The register that a word writes.
pub(crate) fn rd(word: u32) -> Result<Reg, WordFault>
    ensures { result ≡ register_of (rd_of word) }
{
    register((word >> 7) % 32)
}

/// The first register that a word reads.
pub(crate) fn rs1(word: u32) -> Result<Reg, WordFault>
    ensures { result ≡ register_of (rs1_of word) }
{
    register((word >> 15) % 32)
}

/// The second register that a word reads.
pub(crate) fn rs2(word: u32) -> Result<Reg, WordFault>
    ensures { result ≡ register_of (rs2_of word) }
{
    register((word >> 20) % 32)
}

/// A register by its number in a word.
#[tactic(auto, unfolding(crate::specs::Operations::register_of))]
fn register(number: u32) -> Result<Reg, WordFault>
    ensures { result ≡ register_of number }
{
    match number {
        0 => Ok(Reg::Zero),
        1 | 2 => Ok(Reg::R((number - 1) as u8)),
        5..=15 => Ok(Reg::R((number - 3) as u8)),
        _ => Err(WordFault::BadRegister),
    }
}

/// The immediate of format I.
#[tactic(auto, unfolding(crate::specs::Operations::i_immediate))]
pub(crate) fn i_immediate(word: u32) -> i32
    ensures { result ≡ i_immediate word }
{
    signed_12(word >> 20)
}

/// The immediate of format S.
#[tactic(auto, unfolding(crate::specs::Operations::s_immediate))]
pub(crate) fn s_immediate(word: u32) -> i32
    ensures { result ≡ s_immediate word }
{
    signed_12((word >> 7) % 32 + ((word >> 25) % 128) * 32)
}

/// The immediate of format B, which is even.
#[tactic(auto, unfolding(crate::specs::Operations::b_immediate))]
pub(crate) fn b_immediate(word: u32) -> i32
    ensures { result ≡ b_immediate word }
{
    let bits = ((word >> 8) % 16) * 2
        + ((word >> 25) % 64) * 32
        + ((word >> 7) % 2) * 2048
        + (word >> 31) * 4096;
    if bits < 4096 {
        bits as i32
    } else {
        bits as i32 - 8192
    }
}

/// The immediate of format U, a multiple of 4096.
#[tactic(auto, unfolding(crate::specs::Operations::u_immediate))]
pub(crate) fn u_immediate(word: u32) -> i64
    ensures { result ≡ u_immediate word }
{
    let bits = (word >> 12) * 4096;
    if bits < 0x8000_0000 {
        bits as i64
    } else {
        bits as i64 - 0x1_0000_0000
    }
}

/// The immediate of format J, which is even.
#[tactic(auto, unfolding(crate::specs::Operations::j_immediate))]
pub(crate) fn j_immediate(word: u32) -> i32
    ensures { result ≡ j_immediate word }
{
    let bits = ((word >> 21) % 1024) * 2
        + ((word >> 20) % 2) * 2048
        + ((word >> 12) % 256) * 4096
        + (word >> 31) * 0x10_0000;
    if bits < 0x10_0000 {
        bits as i32
    } else {
        bits as i32 - 0x20_0000
    }
}

/// The immediate of an operation on a register and an immediate: format I, or the amount of a shift.
#[tactic(auto, unfolding(crate::specs::Operations::immediate_of))]
pub(crate) fn immediate(op: AluImm, word: u32) -> i32
    ensures { result ≡ immediate_of op word }
{
    match op {
        AluImm::Slli | AluImm::Srli | AluImm::Srai => ((word >> 20) % 64) as i32,
        AluImm::Slliw | AluImm::Srliw | AluImm::Sraiw => ((word >> 20) % 32) as i32,
        _ => i_immediate(word),
    }
}

/// The signed number of 12 bits.
fn signed_12(bits: u32) -> i32
    requires { bits < 2 ^ 12 }
    ensures { result ≡ signed_of 12 bits }
{
    if bits < 2048 {
        bits as i32
    } else {
        bits as i32 - 4096
    }
}
