//! Tests of `pvm_ops` and `rv_decode` by their public calls.
#![tactic(auto)]

#[cfg(test)]
mod pvm_tests;
#[cfg(test)]
mod rv_tests;
