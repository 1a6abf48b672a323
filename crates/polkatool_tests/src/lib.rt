//! Tests of the phases of a link by their public calls, and tests that cross crates: each of these calls the laws of a
//! crate below, and shows at values what follows from them.
//!
//! A law is a function without code whose contract is a statement about definitions. That it is proved says that it
//! holds; these tests say that it can be called, and that the code that is proved by the same definitions does at some
//! values what the law says.
//!
//! The tests of links call what wants the results of earlier phases: no crate below the last of these could make them.
#![tactic(auto)]

#[cfg(test)]
mod code_tests;
#[cfg(test)]
mod constant_tests;
#[cfg(test)]
mod container_tests;
#[cfg(test)]
mod fault_tests;
#[cfg(test)]
mod fixtures;
#[cfg(test)]
mod layout_tests;
#[cfg(test)]
mod lift_tests;
#[cfg(test)]
mod link_tests;
#[cfg(test)]
mod lower_tests;
#[cfg(test)]
mod machine_tests;
#[cfg(test)]
mod number_tests;
#[cfg(test)]
mod object_file;
#[cfg(test)]
mod phases;
#[cfg(test)]
mod relocation_tests;
#[cfg(test)]
mod run_tests;
#[cfg(test)]
mod state_tests;
