ghost use Rattle.std.specs.Prelude.{◌≡◌, ◌+◌, ◌*◌, ◌<◌, ◌≤◌, ◌^◌, nat_lt, if◌then◌else◌};
ghost use Rattle.numbers.specs.Words.{sign_extend};

/// The low bytes of a word, at most four, extended by their sign.
#[inline(always)]
pub(crate) fn sign_extended(word: u32, len: u32) -> u64
    requires { len ≤ 4 }
    ensures { result ≡ sign_extend (8 * len) word }
{
    let power = power_of_256(len);
    let half = power / 2;
    ((u64::from(word) + half) % power).wrapping_sub(half)
}

/// 256 to the power of a length.
#[inline(always)]
fn power_of_256(len: u32) -> u64
    requires { len ≤ 4 }
    ensures value { result ≡ 2 ^ (8 * len) }
    ensures bound { (1 ≤ result) × (result ≤ 2 ^ 32) }
{
    1 << (8 * len)
}

/// A number with ones above it where its sign bit, the one worth `half`, is set.
pub(crate) fn extended(low: u64, half: u64, ones: u64) -> u64
    requires { low + ones < 2 ^ 64 }
    ensures { result ≡ (if nat_lt low half then low else low + ones) }
{
    if low < half { low } else { low + ones }
}
