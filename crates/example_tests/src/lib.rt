//! The services of `examples/`, linked and run: what their runs print.
#![tactic(auto)]

#[cfg(test)]
mod objects;
#[cfg(test)]
mod run_tests;
