//! The link as a whole: the files of objects are linked into a program, or refused with their first fault.
//!
//! `specs/Linked.antt` defines the linked program, and `specs/Agrees.antt` that it means what the objects mean, by the two
//! machines' runs of `specs/Runs.antt`. `specs/Faults.antt` has the faults in their order.
#![tactic(auto)]

ghost use Rattle.link_core.specs.Laws.{LinkedAgrees, LinkedIsChecked, LinkedIsOne};

mod bundle;
mod data_part;
mod input;
mod link_fault;
mod linker;
mod map_text;
mod phases;
mod program;

pub use bundle::Bundle;
use inner_machines::calls_answer_well;
use jump_table::code_is_placed;
use lift_blocks::{bounds_stay, lifted_is_one, source_lockstep};
pub use link_fault::LinkFault;
pub use linker::{CODE_BYTES_TOO_LARGE, Linked, first_fault_is_one, link};
use lower::blocks_are_implemented;
use machine_state::start_is_good;
use pvm_machine::effects_keep_targets;

/// A program linked as `IsLinked` says agrees with its objects.
pub fn linked_agrees()
    ensures { LinkedAgrees }
{
    source_lockstep();
    bounds_stay();
    blocks_are_implemented();
    code_is_placed();
    effects_keep_targets();
    start_is_good();
    calls_answer_well();
}

/// A link's input has one linked program.
pub fn linked_is_one()
    ensures { LinkedIsOne }
{
    lifted_is_one();
    code_is_placed();
}

/// A linked program with an entry has no fault that a check finds.
pub fn linked_is_checked()
    ensures { LinkedIsChecked }
{
    code_is_placed();
    blocks_are_implemented();
}
