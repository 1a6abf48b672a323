ghost use Rattle.std.specs.Prelude.{◌≡◌, ◌+◌, ◌*◌, ◌/◌, ◌^◌, ◌<◌, ◌≤◌, length, slice_index, IfOk};
ghost use Rattle.blob_codec.specs.Grammar.{IsProgram, program_bytes};
ghost use Rattle.blob_codec.specs.Reading as reading;

use crate::fault::BlobFault;
use crate::fields::{little_endian, read_byte, read_bytes, read_natural};
use pvm_ops::Code;
use std::marker::Model;

/// A program, borrowed from its bytes: a jump table, the width of its entries, and code with its mask (JAM Gray Paper
/// 0.7.0, appendix A.2).
#[derive(Debug, Drop)]
pub struct Program<'a> {
    table_len: u64,
    width: u8,
    entries: &'a [u8],
    code: &'a [u8],
    mask: &'a [u8],
}

impl<'a> Model for Program<'a> {
    ghost use Rattle.blob_codec.specs.Grammar.{Program as Content};

    ghost Value = { Content };

    ghost use Rattle.blob_codec.specs.Borrowed.{content_of, IsProgramBorrowed};

    ghost view = { content_of };

    ghost invariant = { IsProgramBorrowed };
}

/// What a program begins with.
#[derive(Clone, Copy, Debug)]
pub struct Counts {
    /// How many entries the jump table has.
    pub table_len: u64,
    /// How many bytes an entry takes.
    pub width: u8,
    /// How many bytes the code has.
    pub code_len: u64,
}

impl<'a> Program<'a> {
    /// The program that all of the bytes spell. It takes no memory and borrows the bytes.
    ///
    /// # Errors
    /// The first fault from left to right: in the count of the table, its width, the length of the code, the table, the
    /// code, the mask, the bits past the code, and what is left.
    #[tactic(auto, unfolding(crate::specs::Reading::program_of))]
    pub fn read(bytes: &'a [u8]) -> Result<Program<'a>, BlobFault>
        ensures exact { result ≡ reading.program_of bytes.now }
        ensures spelled { IfOk result (λ p. IsProgram p × (bytes.now ≡ program_bytes p)) }
    {
        let (counts, rest) = read_counts(bytes)?;
        let (entries, rest) = read_entries(rest, counts)?;
        let (code, rest) = read_bytes(rest, counts.code_len)?;
        let (mask, rest) = read_mask(rest, counts.code_len)?;
        if !rest.is_empty() {
            return Err(BlobFault::LeftOver);
        }
        Ok(Program {
            table_len: counts.table_len,
            width: counts.width,
            entries,
            code,
            mask,
        })
    }

    /// The code with its mask.
    pub fn code(&self) -> Code<'a>
        ensures { result ≡ self.now.code }
    {
        Code::new(self.code, self.mask)
    }

    /// How many bytes an entry of the jump table takes, at most 8.
    pub fn width(&self) -> u8
        ensures value { result ≡ self.now.width }
        ensures bound { result ≤ 8 }
    {
        self.width
    }

    /// How many entries the jump table has.
    #[tactic(auto, using(crate::proofs::Entries::entries))]
    pub fn table_len(&self) -> u64
        ensures { result ≡ length self.now.table }
    {
        self.table_len
    }

    /// The entry of the jump table with a number, from 0: a position in the code.
    #[tactic(auto, using(crate::proofs::Entries::entries))]
    pub fn table_entry(&self, at: u64) -> u64
        requires { at < length self.now.table }
        ensures { result ≡ slice_index self.now.table at }
    {
        let width = usize::from(self.width);
        let from = at as usize * width;
        little_endian(&self.entries[from..from + width])
    }

    /// The same program, borrowed again.
    pub fn borrowed_again(&self) -> Program<'a>
        ensures { result ≡ self.now }
    {
        Program {
            table_len: self.table_len,
            width: self.width,
            entries: self.entries,
            code: self.code,
            mask: self.mask,
        }
    }
}

/// The counts and the width off the front.
#[tactic(auto, unfolding(crate::specs::Reading::read_counts))]
pub(crate) fn read_counts(bytes: &[u8]) -> Result<(Counts, &[u8]), BlobFault>
    ensures value { reading.Gives (λ x. (x.0, x.1.now)) result (reading.read_counts bytes.now) }
    ensures width { IfOk result (λ x. x.0.width ≤ 8) }
{
    let (table_len, rest) = read_natural(bytes)?;
    let (width, rest) = read_width(rest, table_len)?;
    let (code_len, rest) = read_natural(rest)?;
    let counts = Counts {
        table_len,
        width,
        code_len,
    };
    Ok((counts, rest))
}

/// The width of the entries of a table of `table_len` off the front.
#[tactic(auto, unfolding(crate::specs::Reading::read_width))]
fn read_width(bytes: &[u8], table_len: u64) -> Result<(u8, &[u8]), BlobFault>
    ensures value { reading.Gives (λ x. (x.0, x.1.now)) result (reading.read_width table_len bytes.now) }
    ensures bound { IfOk result (λ x. x.0 ≤ 8) }
{
    let (width, rest) = read_byte(bytes)?;
    if width > 8 || (width == 0 && table_len > 0) {
        return Err(BlobFault::BadWidth);
    }
    Ok((width, rest))
}

/// The bytes of a table off the front. No slice has as many bytes as a product past 2^64 says.
fn read_entries(bytes: &[u8], counts: Counts) -> Result<(&[u8], &[u8]), BlobFault>
    ensures value { reading.Gives (λ x. (x.0.now, x.1.now)) result (reading.read_bytes (counts.table_len * counts.width) bytes.now) }
    ensures whole { IfOk result (λ x. length x.0.now ≡ counts.table_len * counts.width) }
{
    match counts.table_len.checked_mul(u64::from(counts.width)) {
        Some(len) => read_bytes(bytes, len),
        None => Err(BlobFault::Truncated),
    }
}

/// The mask of `code_len` bytes of code off the front, with no bit set past them.
#[tactic(auto, unfolding(crate::specs::Reading::read_mask))]
fn read_mask(bytes: &[u8], code_len: u64) -> Result<(&[u8], &[u8]), BlobFault>
    ensures value { reading.Gives (λ x. (x.0.now, x.1.now)) result (reading.read_mask code_len bytes.now) }
    ensures whole { IfOk result (λ x. length x.0.now ≡ (code_len + 7) / 8) }
{
    let (mask, rest) = read_bytes(bytes, code_len.div_ceil(8))?;
    let last = mask.get((code_len / 8) as usize).copied().unwrap_or(0);
    if last >> (code_len % 8) != 0 {
        return Err(BlobFault::BadPadding);
    }
    Ok((mask, rest))
}
