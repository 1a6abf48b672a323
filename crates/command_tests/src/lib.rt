//! Tests of the top call, `polkatool_cmd`: what whole calls leave in a folder and on two sinks, byte for byte.
#![tactic(auto)]

#[cfg(test)]
mod blob_tests;
#[cfg(test)]
mod exec_tests;
#[cfg(test)]
mod fixtures;
#[cfg(test)]
mod generate_tests;
#[cfg(test)]
mod link_tests;
#[cfg(test)]
mod memory_tests;
#[cfg(test)]
mod replies_tests;
#[cfg(test)]
mod run_tests;
#[cfg(test)]
mod word_tests;
