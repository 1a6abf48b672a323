//! Where the blocks of a code start: at position 0 and after each instruction that ends a block, if an instruction of a
//! known opcode is there.
//!
//! `specs/Starts.antt` has the definitions.
#![tactic(auto)]

mod checking;
mod starts;
#[cfg(test)]
mod tests;

pub use checking::{CheckFault, Checked, check};
pub use starts::is_start;
