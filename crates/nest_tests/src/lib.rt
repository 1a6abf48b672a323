//! Tests of `inner_machines` by its public calls.
#![tactic(auto)]

#[cfg(test)]
mod case_tests;
#[cfg(test)]
mod law_tests;
#[cfg(test)]
mod limit_tests;
#[cfg(test)]
mod outer;
#[cfg(test)]
mod step_tests;
