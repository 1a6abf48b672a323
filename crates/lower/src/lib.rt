//! Lowering: the instructions of operations, and of each block of them.
//!
//! `lower` gives the blocks of a program, and its laws say that the instructions of a block do what its operations do.
//! A maximal run of constants on one register is one instruction, and each other operation is lowered alone.
#![tactic(auto)]

ghost use Rattle.lower.specs.Laws.{WordsAreLowerable, OperationsAreLowered, AllAreLowered, CallsAreLowered, RunsAreMaximal, EndingsArePlaceable, BlocksAreImplemented, BlocksArePlaceable, LoweredIsCut, BlocksAreAll, EntriesBegin, BlocksAreThere, SameInstrs, SamePlaces, LoweredIsPlaceable};

mod block;
mod constants;
mod forms;
mod operations;
mod program;
mod tables;
mod transfers;

pub use forms::Three;
use lift_blocks::calls_begin_blocks;
pub use operations::lower_operation;
pub use program::lower;

/// A word's operation can be lowered alone, unless it is a jump or a branch, and the instructions of such an
/// operation do what it does. So do those of jumps and branches, which can be placed with their offsets, and of calls of the
/// host. The runs that are joined are maximal.
pub fn operations_are_implemented()
    ensures words { WordsAreLowerable }
    ensures effects { OperationsAreLowered }
    ensures jumps { AllAreLowered }
    ensures calls { CallsAreLowered }
    ensures runs { RunsAreMaximal }
    ensures endings { EndingsArePlaceable }
    ensures implemented { BlocksAreImplemented }
    ensures placeable { BlocksArePlaceable }
{}

/// What the link rests on: each block is implemented by its instructions, together they are all operations, entries begin
/// blocks, and the list of blocks has the same instructions in the same places and can be placed.
pub fn blocks_are_implemented()
    ensures cut { LoweredIsCut }
    ensures all { BlocksAreAll }
    ensures entries { EntriesBegin }
    ensures blocks_there { BlocksAreThere }
    ensures instrs { SameInstrs }
    ensures places { SamePlaces }
    ensures placeable { LoweredIsPlaceable }
{
    calls_begin_blocks();
}
