//! From objects to operations: the source machine, and the operations of a program in code order with their blocks.
//!
//! `specs/` has the operation at each place, what operations do, and the operations in code order. That these run as the
//! same by their places do is a law.
#![tactic(auto)]

ghost use Rattle.lift_blocks.specs.Laws.{SourceLockstep, BoundsStay, CallsBeginBlocks, LiftedIsOne};

mod entries;
mod fault;
mod first_fault;
mod lifted;
mod lifting;
mod listing;
mod mapping;
mod marks;
mod named_places;
mod needed;
mod numbering;
mod operations;
mod placed_op;
mod reader;
mod renumbering;
mod search;
mod site;
mod source_op;
mod stubs;
mod surveying;

pub use fault::LiftFault;
pub use lifted::Lifted;
pub use lifting::lift;
pub use source_op::SourceOp;

/// The operations of a program in code order run as the same by their places do.
pub fn source_lockstep()
    ensures { SourceLockstep }
{}

/// No operation changes how far the heap may grow, or how many pages the memory may have.
pub fn bounds_stay()
    ensures { BoundsStay }
{}

/// A host call begins a block, and has an operation after it in its block.
pub fn calls_begin_blocks()
    ensures { CallsBeginBlocks }
{}

/// A link's input has one list of operations.
#[tactic(auto, using(crate::proofs::OneLifted::lifted_is_one))]
pub fn lifted_is_one()
    ensures { LiftedIsOne }
{}
