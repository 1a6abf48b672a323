//! The words of RV64EM, the instructions of 32 bits of the RISC-V unprivileged manual's RV64E with the extension M.
//!
//! A register is named by the number that it has in the PVM. The meaning of a word is `operation` of
//! `specs/Operations.antt`, and `IsOp` there says which operations words have.
#![tactic(auto)]

mod fields;
mod ops;
mod tables;
mod words;

pub use ops::{Alu, AluImm, Cond, LoadWidth, Reg, RvOp, StoreWidth, WordFault};
pub use words::decode;
