//! Tests of `elf_objects` and `symbols` by their public calls.
#![tactic(auto)]

#[cfg(test)]
mod read_tests;
#[cfg(test)]
mod symbol_tests;
