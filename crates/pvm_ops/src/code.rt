ghost use Rattle.std.specs.Prelude.{◌≡◌, ℕ, ◌+◌, ◌-◌, ◌*◌, ◌/◌, ◌%◌, ◌<◌, ◌≤◌, ◌^◌, true, false, length, slice_index, MatchOption};
ghost use Rattle.std.specs.Int.{bit_at};
ghost use Rattle.numbers.specs.Bytes.{number_of};
ghost use Rattle.pvm_ops.specs.Fetch.{bytes_from};
ghost use Rattle.pvm_ops.specs.Listing.{is_marked, skip, HasMarks};

use crate::windows::{inner_window, inner_word, shifted_word, window, word};
use std::marker::Model;

/// The most bytes that an instruction takes with its operands, as far as the code is walked: an opcode and 24 more.
const REACH: u64 = 25;

/// The bytes of a code with its mask, both borrowed: a bit for each byte, the lowest bit of a byte first, set where an
/// instruction starts.
///
/// Positions are offsets in bytes from the start of the code. The code goes on with zeros for ever, and the mask with
/// ones.
#[derive(Debug, Drop)]
pub struct Code<'a> {
    bytes: &'a [u8],
    mask: &'a [u8],
    /// The position of the last four bytes of the mask, and their bits from there on with ones after the code. With them
    /// the end of the code is no special case.
    last: u64,
    last_marks: u64,
}

impl<'a> Model for Code<'a> {
    ghost use Rattle.std.specs.Prelude.{◌≡◌, ◌+◌, ◌-◌, ◌*◌, ◌/◌, ◌<◌, ◌^◌, length};
    ghost use Rattle.pvm_ops.specs.Listing.{Listing, HasMarks};

    ghost Value = { Listing };

    ghost view = { λ c. record { bytes = c.bytes.now; mask = c.mask.now } };

    ghost invariant = { λ c. (length c.mask.now ≡ (length c.bytes.now + 7) / 8) × (length c.bytes.now < 2 ^ 63) × (c.last ≡ 8 * (length c.mask.now - 4)) × HasMarks (record { bytes = c.bytes.now; mask = c.mask.now }) c.last c.last_marks 64 };
}

impl<'a> Code<'a> {
    /// The code of these bytes with this mask, which has a byte for every eight of them, the last one for those left.
    pub fn new(bytes: &'a [u8], mask: &'a [u8]) -> Code<'a>
        requires { length mask.now ≡ (length bytes.now + 7) / 8 }
        ensures { result ≡ record { bytes = bytes.now; mask = mask.now } }
    {
        let last = 8 * (mask.len() as u64).saturating_sub(4);
        let last_marks = marks_to_end(bytes, mask, last);
        Code {
            bytes,
            mask,
            last,
            last_marks,
        }
    }

    /// How many bytes the code has.
    pub fn len(&self) -> u64
        ensures value { result ≡ length self.now.bytes }
        ensures bound { result < 2 ^ 63 }
    {
        self.bytes.len() as u64
    }

    /// Whether an instruction starts at a position, which is so at none past the code.
    pub fn marked(&self, at: u64) -> bool
        ensures { result ≡ is_marked self.now at }
    {
        at < self.bytes.len() as u64 && self.mask[(at / 8) as usize] >> (at % 8) & 1 == 1
    }

    /// The bytes without the mask.
    pub fn bytes(&self) -> &'a [u8]
        ensures { result.now ≡ self.now.bytes }
    {
        self.bytes
    }

    /// How many bytes of operands follow the opcode at a position, at most 24, and the little-endian number of the eight
    /// bytes from there on. Nothing where the position is not marked.
    #[inline(always)]
    pub(crate) fn head(&self, at: u64) -> Option<(u8, u64)>
        ensures { MatchOption result (is_marked self.now at ≡ false) (λ o. (is_marked self.now at ≡ true) × (at < length self.now.bytes) × (o.0 ≡ skip self.now at) × (o.0 ≤ 24) × (o.1 ≡ number_of (bytes_from self.now.bytes at 8))) }
    {
        let skip = self.skip(at)?;
        Some((skip, self.word(at as usize)))
    }

    /// How many bytes of operands follow the opcode at a position, at most 24. Nothing where the position is not marked.
    #[inline(always)]
    fn skip(&self, at: u64) -> Option<u8>
        ensures { MatchOption result (is_marked self.now at ≡ false) (λ e. (is_marked self.now at ≡ true) × (at < length self.now.bytes) × (e ≡ skip self.now at) × (e ≤ 24)) }
    {
        if at >= self.len() {
            return None;
        }
        let marks = self.marks(at);
        if marks % 2 == 0 {
            return None;
        }
        Some(first_mark(marks / 2))
    }

    /// The marks from a position of the code on, as the bits of a number: at least 25, with ones after the code.
    #[inline(always)]
    fn marks(&self, at: u64) -> u64
        requires { at < length self.now.bytes }
        ensures { HasMarks self.now at result 25 }
    {
        if at < self.last {
            u64::from(inner_window(self.mask, (at / 8) as usize)) >> (at % 8)
        } else {
            self.last_marks >> (at - self.last)
        }
    }

    /// The little-endian number of the eight bytes from a position on. Zeros follow the code.
    #[inline(always)]
    fn word(&self, at: usize) -> u64
        requires { at < length self.now.bytes }
        ensures { result ≡ number_of (bytes_from self.now.bytes at 8) }
    {
        let len = self.bytes.len();
        if len - at >= 8 {
            return inner_word(self.bytes, at);
        }
        if len >= 8 {
            return shifted_word(self.bytes, len - 8, at);
        }
        word(self.bytes, at)
    }

    /// The nearest mark before a position of the code. Only the 25 positions before it are looked at, since no
    /// instruction from further back ends at it.
    pub fn mark_before(&self, at: u64) -> Option<u64>
        requires { at < length self.now.bytes }
        ensures { MatchOption result ((p : ℕ) → p < at → at ≤ p + 25 → is_marked self.now p ≡ false) (λ from. (from < at) × (at ≤ from + 25) × (is_marked self.now from ≡ true) × ((p : ℕ) → from < p → p < at → is_marked self.now p ≡ false)) }
    {
        if at == 0 {
            return None;
        }
        let last = at - 1;
        // Four bytes of the mask that end with the last position's, or the first four.
        let start = (last / 8).saturating_sub(3);
        let marks = window(self.mask, start as usize);
        let back = u64::from(unset_from(marks, (last - 8 * start) as u32));
        if back < REACH {
            Some(last - back)
        } else {
            None
        }
    }
}

/// The bits of a mask from a position on, which is that of its last four bytes, with ones after the code.
fn marks_to_end(bytes: &[u8], mask: &[u8], last: u64) -> u64
    requires mask { length mask.now ≡ (length bytes.now + 7) / 8 }
    requires last { last ≡ 8 * (length mask.now - 4) }
    ensures { HasMarks (record { bytes = bytes.now; mask = mask.now }) last result 64 }
{
    let left = bytes.len() as u64 - last;
    u64::from(window(mask, (last / 8) as usize)) | u64::MAX << left
}

/// The place of the lowest bit that is set, or 24 where none is set below it.
#[inline(always)]
fn first_mark(marks: u64) -> u8
    ensures bound { result ≤ 24 }
    ensures below { (j : ℕ) → j < result → bit_at marks j ≡ 0 }
    ensures here { result < 24 → bit_at marks result ≡ 1 }
{
    (marks | 1 << 24).trailing_zeros() as u8
}

/// How many bits from a place downwards are not set, before the first that is, and 32 where none is.
fn unset_from(marks: u32, top: u32) -> u32
    requires { top < 32 }
    ensures unset { (j : ℕ) → j < result → j ≤ top → bit_at marks (top - j) ≡ 0 }
    ensures set { result < 32 → (result ≤ top) × (bit_at marks (top - result) ≡ 1) }
{
    (marks << (31 - top)).leading_zeros()
}
