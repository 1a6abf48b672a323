//! Tests of transcripts and replies.
#![tactic(auto)]

#[cfg(test)]
mod fixtures;
#[cfg(test)]
mod reply_tests;
#[cfg(test)]
mod run_tests;
