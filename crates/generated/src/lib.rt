//! Objects of random straight code: the input of the command `gen`.
//!
//! `specs/Words.antt` says which words a text has, `specs/Objects.antt` which bytes their object; `specs/Laws.antt` says which
//! operations the words are, and `specs/Spelled.antt` which object the bytes spell.
#![tactic(auto)]

mod laws;
mod object;
#[cfg(test)]
mod tests;
mod word;

pub use laws::{objects_are_spelled, words_are_operations};
pub use object::generated;
