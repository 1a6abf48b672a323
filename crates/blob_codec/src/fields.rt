ghost use Rattle.std.specs.Prelude.{◌≡◌, ◌+◌, ◌*◌, ◌/◌, ◌^◌, ◌<◌, ◌≤◌, length, IfOk};
ghost use Rattle.numbers.specs.Bytes.{number_of};
ghost use Rattle.blob_codec.specs.Grammar as grammar;
ghost use Rattle.blob_codec.specs.Reading as reading;

use crate::fault::BlobFault;

/// One byte off the front.
pub fn read_byte(bytes: &[u8]) -> Result<(u8, &[u8]), BlobFault>
    ensures { reading.Gives (λ x. (x.0, x.1.now)) result (reading.read_byte bytes.now) }
{
    match bytes {
        [] => Err(BlobFault::Truncated),
        [byte, rest @ ..] => Ok((*byte, rest)),
    }
}

/// `len` bytes off the front.
pub fn read_bytes(bytes: &[u8], len: u64) -> Result<(&[u8], &[u8]), BlobFault>
    ensures value { reading.Gives (λ x. (x.0.now, x.1.now)) result (reading.read_bytes len bytes.now) }
    ensures whole { IfOk result (λ x. length x.0.now ≡ len) }
{
    if (bytes.len() as u64) < len {
        return Err(BlobFault::Truncated);
    }
    Ok(bytes.split_at(len as usize))
}

/// A number of `len` bytes off the front, the lowest byte first.
pub fn read_number(bytes: &[u8], len: u8) -> Result<(u64, &[u8]), BlobFault>
    requires { len ≤ 8 }
    ensures value { reading.Gives (λ x. (x.0, x.1.now)) result (reading.read_number len bytes.now) }
    ensures bound { IfOk result (λ x. x.0 < 2 ^ (8 * len)) }
{
    if bytes.len() < usize::from(len) {
        return Err(BlobFault::Truncated);
    }
    let (number, rest) = bytes.split_at(usize::from(len));
    Ok((little_endian(number), rest))
}

/// The number that at most eight bytes spell, the lowest first.
#[tactic(auto, using(crate::proofs::Numbers::numbers))]
pub fn little_endian(bytes: &[u8]) -> u64
    requires { length bytes.now ≤ 8 }
    ensures value { result ≡ number_of bytes.now }
    ensures bound { result < 2 ^ (8 * length bytes.now) }
{
    let mut value = 0;
    let mut left = bytes.len();
    while 0 < left {
        left -= 1;
        value = value * 256 + u64::from(bytes[left]);
    }
    value
}

/// A natural off the front: it is below 2^64, and spelled in as few bytes as its number takes.
#[tactic(auto, unfolding(crate::specs::Reading::read_natural))]
pub fn read_natural(bytes: &[u8]) -> Result<(u64, &[u8]), BlobFault>
    ensures { reading.Gives (λ x. (x.0, x.1.now)) result (reading.read_natural bytes.now) }
{
    let (first, rest) = read_byte(bytes)?;
    let len = following(first);
    let (low, rest) = read_number(rest, len)?;
    let number = led_number(first, low);
    if natural_len(number) == len {
        Ok((number, rest))
    } else {
        Err(BlobFault::Overlong)
    }
}

/// How many bytes follow the first of a natural: as many as it has leading ones.
#[tactic(auto, unfolding(crate::specs::Reading::following))]
fn following(first: u8) -> u8
    ensures value { result ≡ reading.following first }
    ensures bound { result ≤ 8 }
{
    match first {
        0..=0x7f => 0,
        0x80..=0xbf => 1,
        0xc0..=0xdf => 2,
        0xe0..=0xef => 3,
        0xf0..=0xf7 => 4,
        0xf8..=0xfb => 5,
        0xfc..=0xfd => 6,
        0xfe => 7,
        0xff => 8,
    }
}

/// The number whose highest bits are in the first byte after the leading ones, and whose low bytes follow it.
#[tactic(auto, unfolding(crate::specs::Reading::following, crate::specs::Reading::led_number))]
fn led_number(first: u8, low: u64) -> u64
    requires { low < 2 ^ (8 * reading.following first) }
    ensures { result ≡ reading.led_number first (reading.following first) low }
{
    let first = u64::from(first);
    match first {
        0..=0x7f => first,
        0x80..=0xbf => (first - 0x80) * (1 << 8) + low,
        0xc0..=0xdf => (first - 0xc0) * (1 << 16) + low,
        0xe0..=0xef => (first - 0xe0) * (1 << 24) + low,
        0xf0..=0xf7 => (first - 0xf0) * (1 << 32) + low,
        0xf8..=0xfb => (first - 0xf8) * (1 << 40) + low,
        0xfc..=0xfd => (first - 0xfc) * (1 << 48) + low,
        _ => low,
    }
}

/// How many bytes follow the first in the shortest spelling of a number.
#[tactic(auto, unfolding(crate::specs::Grammar::natural_len))]
fn natural_len(number: u64) -> u8
    ensures { result ≡ grammar.natural_len number }
{
    match number {
        0..=0x7f => 0,
        0x80..=0x3fff => 1,
        0x4000..=0x1f_ffff => 2,
        0x20_0000..=0xfff_ffff => 3,
        0x1000_0000..=0x7_ffff_ffff => 4,
        0x8_0000_0000..=0x3ff_ffff_ffff => 5,
        0x400_0000_0000..=0x1_ffff_ffff_ffff => 6,
        0x2_0000_0000_0000..=0xff_ffff_ffff_ffff => 7,
        _ => 8,
    }
}
