//! Tests of `outside` by its public calls: what no clause says of files and streams.
#![tactic(auto)]

#[cfg(test)]
mod tests;
