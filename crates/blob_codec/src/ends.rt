ghost use Rattle.std.specs.Prelude.{◌≡◌, ℕ, ◌+◌, ◌*◌, ◌/◌, ◌%◌, ◌^◌, List, ◌||◌, nat_eq, is_ok};
ghost use Rattle.blob_codec.specs.Ends.{EndsAre};
ghost use Rattle.blob_codec.specs.Reading.{program_of};

use crate::program::{Counts, read_counts};

/// How many bytes the counts and the width at the front of a program take at most.
pub const MOST_COUNTS: usize = 19;

/// Whether bytes spell a program, of which the caller has the first `MOST_COUNTS` alone, or all if they are fewer.
/// `len` is how many they are, and `last` the last of them, or any byte if there is none.
pub fn spells_program(first: &[u8], len: u64, last: u8) -> bool
    ensures { (bytes : List ℕ) → EndsAre first.now len last bytes → result ≡ is_ok (program_of bytes) }
{
    match read_counts(first) {
        Ok((counts, rest)) => {
            let front = (first.len() - rest.len()) as u64;
            program_len(counts, front) == u128::from(len) && is_padded(counts.code_len, last)
        }
        Err(_) => false,
    }
}

/// How many bytes a program has whose counts and width take `front` of them.
fn program_len(counts: Counts, front: u64) -> u128
    ensures { result ≡ front + counts.table_len * counts.width + counts.code_len + (counts.code_len + 7) / 8 }
{
    let table_len = u128::from(counts.table_len) * u128::from(counts.width);
    let mask_len = counts.code_len.div_ceil(8);
    u128::from(front) + table_len + u128::from(counts.code_len) + u128::from(mask_len)
}

/// Whether the last byte of the mask of `code_len` bytes of code has no bit set past them.
fn is_padded(code_len: u64, last: u8) -> bool
    ensures { result ≡ (nat_eq (code_len % 8) 0 || nat_eq (last / 2 ^ (code_len % 8)) 0) }
{
    code_len % 8 == 0 || last >> (code_len % 8) == 0
}
