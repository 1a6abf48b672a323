//! The words of code.

ghost use Rattle.std.specs.Prelude.{◌≡◌, ◌≤◌, length, IfOk};
ghost use Rattle.relocs.specs.ByOffset.{HasWords};
ghost use Rattle.relocs.specs.Words.{word_or_trap as the_word_or_trap};

use crate::patch::little_endian;
use rv_decode::{RvOp, WordFault, decode};
use std::alloc::{AllocError, Global};

/// The words of the bytes of a code section: one at each multiple of four that is at most their number.
pub(crate) fn code_words(
    alloc: Global,
    bytes: &[u8],
) -> Result<Vec<Result<RvOp, WordFault>>, AllocError>
    ensures { IfOk result (λ words. HasWords bytes.now words.items) }
{
    let count = bytes.len() / 4 + 1;
    let mut words = Vec::with_capacity(alloc, count)?;
    for at in 0..count {
        words.push(word_or_trap(bytes, 4 * at))?;
    }
    Ok(words)
}

/// What the word at an offset of bytes of code is: an operation, or faulty. A trap is after the last byte.
#[tactic(auto, unfolding(crate::specs::Words::word_or_trap))]
#[inline(always)]
pub(crate) fn word_or_trap(bytes: &[u8], at: usize) -> Result<RvOp, WordFault>
    requires { at ≤ length bytes.now }
    ensures { result ≡ the_word_or_trap bytes.now at }
{
    if at == bytes.len() {
        return Ok(RvOp::Trap);
    }
    if bytes.len() - at < 4 {
        return Err(WordFault::BadWord);
    }
    decode(little_endian(&bytes[at..at + 4]) as u32)
}
