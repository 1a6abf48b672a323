//! The bytes of data that one relocation changes.

ghost use Rattle.std.specs.Prelude.{◌≡◌, ◌+◌, ◌*◌, ◌<◌, ◌≤◌, ◌^◌, length, unsigned_abs};
ghost use Rattle.numbers.specs.Bytes.{little, number_of};
ghost use Rattle.relocs.specs.Kinds.{data_width as the_width};
ghost use Rattle.relocs.specs.Values.{bits_of};
ghost use Rattle.relocs.specs.Data.{changed, put_bytes, patched_by};

use crate::kinds::Kind;

/// Replaces the old number by the new one of a relocation with a value.
#[tactic(auto, unfolding(crate::specs::Data::patched_by))]
pub(crate) fn patch(bytes: &mut [u8], at: usize, kind: Kind, value: i128)
    requires width { the_width kind ≤ 8 }
    requires within { at + the_width kind ≤ length bytes.old }
    requires value { unsigned_abs value < 2 ^ 100 }
    ensures bytes { bytes.new ≡ patched_by kind value at bytes.old }
    ensures len { length bytes.new ≡ length bytes.old }
{
    let width = data_width(kind);
    let old = little_endian(&bytes[at..at + width]);
    let new = changed_number(kind, old, value);
    put(bytes, at, width, low_bits(new));
}

/// The number of bytes that a relocation of data changes.
fn data_width(kind: Kind) -> usize
    requires { the_width kind ≤ 8 }
    ensures { result ≡ the_width kind }
{
    match kind {
        Kind::Set32 | Kind::Distance => 4,
        Kind::Set64 => 8,
        Kind::Add(width) | Kind::Subtract(width) => width as usize,
        _ => 0,
    }
}

/// The new number in place of an old one.
fn changed_number(kind: Kind, old: u64, value: i128) -> i128
    requires { unsigned_abs value < 2 ^ 100 }
    ensures { result ≡ changed kind old value }
{
    match kind {
        Kind::Add(_) => i128::from(old) + value,
        Kind::Subtract(_) => i128::from(old) - value,
        _ => value,
    }
}

/// The low 64 bits of a number.
pub(crate) fn low_bits(value: i128) -> u64
    ensures { result ≡ bits_of value }
{
    value.rem_euclid(1 << 64) as u64
}

/// Replaces the bytes at an offset by the low bytes of a number.
fn put(bytes: &mut [u8], at: usize, width: usize, number: u64)
    requires width { width ≤ 8 }
    requires within { at + width ≤ length bytes.old }
    ensures bytes { bytes.new ≡ put_bytes bytes.old at (little width number) }
    ensures len { length bytes.new ≡ length bytes.old }
{
    bytes[at..at + width].copy_from_slice(&number.to_le_bytes()[..width]);
}

/// The number that at most eight bytes spell, the lowest first.
#[tactic(auto, using(crate::proofs::Numbers::numbers))]
pub(crate) fn little_endian(bytes: &[u8]) -> u64
    requires { length bytes.now ≤ 8 }
    ensures value { result ≡ number_of bytes.now }
    ensures bound { result < 2 ^ (8 * length bytes.now) }
{
    let mut value = 0;
    let mut left = bytes.len();
    while 0 < left {
        left -= 1;
        value = value * 256 + u64::from(bytes[left]);
    }
    value
}
