ghost use Rattle.std.specs.Prelude.{◌≡◌, ℕ, ◌+◌, ◌*◌, ◌%◌, ◌<◌, ◌≤◌, ◌^◌, length, slice_index};
ghost use Rattle.std.specs.Int.{bit_at};
ghost use Rattle.numbers.specs.Bytes.{number_of};
ghost use Rattle.pvm_ops.specs.Fetch.{bytes_from};
ghost use Rattle.pvm_ops.specs.Listing.{bit_of};

/// The number that the four bytes at a position spell, the lowest first, where zeros follow the bytes.
///
/// Read at once, they give the bits of a mask and every short immediate at the position.
pub(crate) fn window(bytes: &[u8], at: usize) -> u32
    requires near { at < 2 ^ 63 + 128 }
    ensures low { (n : ℕ) → n ≤ 4 → result % 2 ^ (8 * n) ≡ number_of (bytes_from bytes.now at n) }
    ensures bits { (j : ℕ) → j < 32 → bit_at result j ≡ bit_of bytes.now (8 * at + j) }
{
    if at + 4 <= bytes.len() {
        inner_window(bytes, at)
    } else {
        u32::from_le_bytes([
            byte(bytes, at),
            byte(bytes, at + 1),
            byte(bytes, at + 2),
            byte(bytes, at + 3),
        ])
    }
}

/// The same where the four bytes are all there.
#[inline(always)]
pub(crate) fn inner_window(bytes: &[u8], at: usize) -> u32
    requires inside { at + 4 ≤ length bytes.now }
    ensures low { (n : ℕ) → n ≤ 4 → result % 2 ^ (8 * n) ≡ number_of (bytes_from bytes.now at n) }
    ensures bits { (j : ℕ) → j < 32 → bit_at result j ≡ bit_of bytes.now (8 * at + j) }
{
    u32::from_le_bytes([bytes[at], bytes[at + 1], bytes[at + 2], bytes[at + 3]])
}

/// The number that the eight bytes at a position spell, which are all there.
#[inline(always)]
pub(crate) fn inner_word(bytes: &[u8], at: usize) -> u64
    requires inside { at + 8 ≤ length bytes.now }
    ensures { result ≡ number_of (bytes_from bytes.now at 8) }
{
    u64::from(inner_window(bytes, at)) + u64::from(inner_window(bytes, at + 4)) * 0x1_0000_0000
}

/// The number that the eight bytes at a position spell, by the eight at a position at most seven before it. These are the
/// last ones, where they do not begin at the position.
#[inline(always)]
pub(crate) fn shifted_word(bytes: &[u8], start: usize, at: usize) -> u64
    requires inside { start + 8 ≤ length bytes.now }
    requires before { start ≤ at }
    requires near { at < start + 8 }
    requires last { start < at → length bytes.now ≤ start + 8 }
    ensures { result ≡ number_of (bytes_from bytes.now at 8) }
{
    inner_word(bytes, start) >> (8 * (at - start))
}

/// The same where zeros follow the bytes.
pub(crate) fn word(bytes: &[u8], at: usize) -> u64
    requires { at < 2 ^ 63 + 64 }
    ensures { result ≡ number_of (bytes_from bytes.now at 8) }
{
    u64::from(window(bytes, at)) + u64::from(window(bytes, at + 4)) * 0x1_0000_0000
}

/// The byte at a place of a word of eight bytes that was read at a position.
#[inline(always)]
pub(crate) fn byte_in(bytes: &[u8], at: usize, word: u64, place: u8) -> u8
    requires word { word ≡ number_of (bytes_from bytes.now at 8) }
    requires place { place < 8 }
    ensures { result ≡ slice_index bytes.now (at + place) }
{
    ((word >> (8 * place)) % 0x100) as u8
}

/// The four bytes at a place of a word of eight bytes that was read at a position.
#[inline(always)]
pub(crate) fn window_in(bytes: &[u8], at: usize, word: u64, place: u8) -> u32
    requires word { word ≡ number_of (bytes_from bytes.now at 8) }
    requires place { place ≤ 4 }
    ensures { (n : ℕ) → n ≤ 4 → result % 2 ^ (8 * n) ≡ number_of (bytes_from bytes.now (at + place) n) }
{
    ((word >> (8 * place)) % 0x1_0000_0000) as u32
}

/// The byte at a position, 0 past the end.
pub(crate) fn byte(bytes: &[u8], at: usize) -> u8
    ensures { result ≡ slice_index bytes.now at }
{
    if at < bytes.len() { bytes[at] } else { 0 }
}
