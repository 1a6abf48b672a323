//! The PVM: what instructions do, one step of the machine, and its run under gas.
//!
//! The machine is that of the JAM Gray Paper 0.7.0, appendix A. `specs/Operations.antt` has the operation of each opcode
//! and `specs/Effect.antt` what it does; `specs/Stepped.antt` has what one step leaves and answers.
#![tactic(auto)]

mod accesses;
mod answers;
mod cores;
mod instructions;
mod laws;
mod machine;
mod operation;
mod start_memory;

pub use answers::{Exit, StartFault, Step};
pub use cores::{Core, run_core};
pub use laws::{effects_keep_targets, operations_have_forms, steps_are_turns, steps_stay_within};
pub use machine::Machine;
