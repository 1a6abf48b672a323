//! The text of a program: its sizes, each instruction of its code with its bytes, and its jump table.
//!
//! `specs/Disassembly.antt` has the text. Opcodes, forms and names are those of the JAM Gray Paper 0.7.0, appendix A.
#![tactic(auto)]

mod digits;
mod lines;
mod text;

pub use digits::{push_byte, push_hex};
pub use lines::disassemble;

#[cfg(test)]
mod tests;
