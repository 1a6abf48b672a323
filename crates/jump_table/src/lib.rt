//! From blocks of instructions to code: positions of instructions, marks, offsets and the jump table.
//!
//! `assemble` writes the code of blocks. Each instruction is at its position in the code, and a block's last instruction
//! leads to the start of the block's target.
#![tactic(auto)]

ghost use Rattle.jump_table.specs.Laws.{CodeIsPlaced, LengthsAreOne, TargetsAreLed};

mod assembled;
mod fault;
mod positions;
mod settling;
mod shapes;
mod slack;
#[cfg(test)]
mod tests;
mod writer;
mod writing;

pub use assembled::{Assembled, assemble};
pub use fault::AssembleFault;

/// The code of a list of blocks has each instruction at its position, where the lengths of offsets are wide enough, and a
/// block with a target leads to its start. The shortest lengths are determined.
pub fn code_is_placed()
    ensures placed { CodeIsPlaced }
    ensures one { LengthsAreOne }
    ensures led { TargetsAreLed }
{}
