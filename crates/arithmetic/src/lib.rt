//! The operations on words of 64 bits that RISC-V and the PVM share: sums, products, quotients, shifts, counts of bits
//! and comparisons (RISC-V unprivileged manual, RV64I and the extension M; JAM Gray Paper 0.7.0, appendix A,
//! "Instruction Tables").
//!
//! A word is a number below 2^64. What each operation gives is `binary`, `unary` and `holds` of
//! `specs/Operations.antt`, over the words of `specs/Words.antt`.
#![tactic(auto)]

ghost use Rattle.arithmetic.specs.Laws.{ResultsAreWords};

mod operations;
mod words;

pub use operations::{Binary, Condition, Unary};

/// What an operation on two words gives is a word.
pub fn results_are_words()
    ensures { ResultsAreWords }
{}

#[cfg(test)]
mod tests;
