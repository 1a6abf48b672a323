//! Numbers as machines keep them: little-endian bytes, fields of a word, and signed numbers in two's complement.
//!
//! The definitions are in `specs/Bytes.antt` and `specs/Words.antt`, and the laws that the crates above cite in
//! `proofs/`. There is no code here: each crate reads and writes its own numbers against these definitions.
#![tactic(auto)]

ghost use Rattle.numbers.specs.Laws.{BytesComeBack, SignIsKept};

/// The low bytes of a number spell it, modulo their width.
pub fn bytes_come_back()
    ensures { BytesComeBack }
{}

/// Extending the low bits of a number by their sign looks at these bits alone.
pub fn sign_is_kept()
    ensures { SignIsKept }
{}
