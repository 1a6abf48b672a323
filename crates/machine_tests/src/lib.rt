//! Tests of `page_memory` and `pvm_machine` by their public calls.
#![tactic(auto)]

#[cfg(test)]
mod access_tests;
#[cfg(test)]
mod core_tests;
#[cfg(test)]
mod heap_tests;
#[cfg(test)]
mod opcode_tests;
#[cfg(test)]
mod page_tests;
#[cfg(test)]
mod programs;
#[cfg(test)]
mod run_tests;
