//! Programs and containers as bytes (JAM Gray Paper 0.7.0: natural numbers of appendix C, the program of appendix A, the
//! standard program of appendix A.7).
//!
//! `specs/Grammar.antt` has what programs and containers hold, and the one spelling of each. `specs/Reading.antt` takes
//! them off their bytes from left to right, with the first fault. `specs/Laws.antt` says that the two are one grammar.
#![tactic(auto)]

mod container;
mod ends;
mod fault;
mod fields;
mod laws;
mod naturals_out;
mod program;
mod writing;

pub use container::Container;
pub use ends::{MOST_COUNTS, spells_program};
pub use fault::BlobFault;
pub use laws::{containers_are_read, programs_are_read};
pub use program::Program;
pub use writing::{Parts, write_container, write_program};

#[cfg(test)]
mod tests;
