//! Instructions of the Polkadot Virtual Machine: the opcode table, the forms of operands, fetching the instruction at a
//! position of a code, and the bytes of an instruction.
//!
//! The instruction set is that of the JAM Gray Paper 0.7.0, appendix A. `specs/Opcodes.antt` has the table,
//! `specs/Fetch.antt` how an instruction is fetched and `specs/Spelling.antt` how it is written.
#![tactic(auto)]

mod blocks;
mod bytes;
mod code;
mod decode;
mod encode;
mod forms;
mod instr;
mod laws;
mod opcodes;
mod windows;
mod words;

pub use blocks::Blocks;
pub use bytes::Bytes8;
pub use code::Code;
pub use decode::{fetch, fetch_as, read_head, unknown_is_trap};
pub use encode::{encode_into, length};
pub use forms::Form;
pub use instr::{Fetched, Head, Instr};
pub use laws::{marks_come_back, mask_is_padded, mask_length, reads_back, stops_come_back};
pub use opcodes::{form, known, name};
