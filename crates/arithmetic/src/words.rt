//! The operations that take more than one call of std, each with the definition of its name in `specs/Words.antt`.

ghost use Rattle.std.specs.Prelude.{◌≡◌, pos, ◌*ℤ◌};
ghost use Rattle.std.specs.Int.{w64, cast_unsigned, int_shr};
ghost use Rattle.numbers.specs.Words.{sign_extend};
ghost use Rattle.arithmetic.specs.Words.{add_32, and_inv, div_s_32, div_s_64, div_u_32, div_u_64, extend_32, low_32, max_s, min_s, mul_32, mul_upper_s_s, mul_upper_s_u, mul_upper_u_u, or_inv, rem_s_32, rem_s_64, rem_u_32, rem_u_64, set_lt_s, set_lt_u, shar_r_32, shar_r_64, shlo_l_32, shlo_l_64, shlo_r_32, shlo_r_64, sub_32, xnor};

#[inline]
pub(crate) fn low_32(a: u64) -> u32
    ensures { result ≡ low_32 a }
{
    (a % 0x1_0000_0000) as u32
}

#[inline]
pub(crate) fn extend_32(a: u64) -> u64
    ensures { result ≡ extend_32 a }
{
    i64::from(low_32(a).cast_signed()).cast_unsigned()
}

#[inline]
pub(crate) fn sign_extend_8(a: u64) -> u64
    ensures { result ≡ sign_extend 8 a }
{
    i64::from(((a % 0x100) as u8).cast_signed()).cast_unsigned()
}

#[inline]
pub(crate) fn sign_extend_16(a: u64) -> u64
    ensures { result ≡ sign_extend 16 a }
{
    i64::from(((a % 0x1_0000) as u16).cast_signed()).cast_unsigned()
}

#[inline]
pub(crate) fn div_u_64(a: u64, b: u64) -> u64
    ensures { result ≡ div_u_64 a b }
{
    if b == 0 { u64::MAX } else { a / b }
}

#[inline]
pub(crate) fn rem_u_64(a: u64, b: u64) -> u64
    ensures { result ≡ rem_u_64 a b }
{
    if b == 0 { a } else { a % b }
}

#[inline]
pub(crate) fn div_s_64(a: u64, b: u64) -> u64
    ensures { result ≡ div_s_64 a b }
{
    if b == 0 {
        u64::MAX
    } else {
        a.cast_signed()
            .wrapping_div(b.cast_signed())
            .cast_unsigned()
    }
}

#[inline]
pub(crate) fn rem_s_64(a: u64, b: u64) -> u64
    ensures { result ≡ rem_s_64 a b }
{
    if b == 0 {
        a
    } else {
        a.cast_signed()
            .wrapping_rem(b.cast_signed())
            .cast_unsigned()
    }
}

#[inline]
pub(crate) fn shlo_l_64(a: u64, b: u64) -> u64
    ensures { result ≡ shlo_l_64 a b }
{
    a.wrapping_shl((b % 64) as u32)
}

#[inline]
pub(crate) fn shlo_r_64(a: u64, b: u64) -> u64
    ensures { result ≡ shlo_r_64 a b }
{
    a >> (b % 64)
}

#[inline]
pub(crate) fn shar_r_64(a: u64, b: u64) -> u64
    ensures { result ≡ shar_r_64 a b }
{
    (a.cast_signed() >> (b % 64)).cast_unsigned()
}

#[inline]
pub(crate) fn add_32(a: u64, b: u64) -> u64
    ensures { result ≡ add_32 a b }
{
    extend_32(a.wrapping_add(b))
}

#[inline]
pub(crate) fn sub_32(a: u64, b: u64) -> u64
    ensures { result ≡ sub_32 a b }
{
    extend_32(a.wrapping_sub(b))
}

#[inline]
pub(crate) fn mul_32(a: u64, b: u64) -> u64
    ensures { result ≡ mul_32 a b }
{
    extend_32(a.wrapping_mul(b))
}

#[inline]
pub(crate) fn div_u_32(a: u64, b: u64) -> u64
    ensures { result ≡ div_u_32 a b }
{
    if low_32(b) == 0 {
        u64::MAX
    } else {
        extend_32(u64::from(low_32(a) / low_32(b)))
    }
}

#[inline]
pub(crate) fn rem_u_32(a: u64, b: u64) -> u64
    ensures { result ≡ rem_u_32 a b }
{
    if low_32(b) == 0 {
        extend_32(a)
    } else {
        extend_32(u64::from(low_32(a) % low_32(b)))
    }
}

#[inline]
pub(crate) fn div_s_32(a: u64, b: u64) -> u64
    ensures { result ≡ div_s_32 a b }
{
    if low_32(b) == 0 {
        u64::MAX
    } else {
        widen(
            low_32(a)
                .cast_signed()
                .wrapping_div(low_32(b).cast_signed()),
        )
    }
}

#[inline]
pub(crate) fn rem_s_32(a: u64, b: u64) -> u64
    ensures { result ≡ rem_s_32 a b }
{
    if low_32(b) == 0 {
        extend_32(a)
    } else {
        widen(
            low_32(a)
                .cast_signed()
                .wrapping_rem(low_32(b).cast_signed()),
        )
    }
}

/// A signed number of 32 bits as a word.
#[inline]
fn widen(value: i32) -> u64
    ensures { result ≡ cast_unsigned w64 value }
{
    i64::from(value).cast_unsigned()
}

#[inline]
pub(crate) fn shlo_l_32(a: u64, b: u64) -> u64
    ensures { result ≡ shlo_l_32 a b }
{
    extend_32(u64::from(low_32(a)) << (b % 32))
}

#[inline]
pub(crate) fn shlo_r_32(a: u64, b: u64) -> u64
    ensures { result ≡ shlo_r_32 a b }
{
    extend_32(u64::from(low_32(a) >> (b % 32)))
}

#[inline]
pub(crate) fn shar_r_32(a: u64, b: u64) -> u64
    ensures { result ≡ shar_r_32 a b }
{
    widen(low_32(a).cast_signed() >> (b % 32))
}

#[inline]
pub(crate) fn mul_upper_u_u(a: u64, b: u64) -> u64
    ensures { result ≡ mul_upper_u_u a b }
{
    ((u128::from(a) * u128::from(b)) >> 64) as u64
}

#[inline]
pub(crate) fn mul_upper_s_s(a: u64, b: u64) -> u64
    ensures { result ≡ mul_upper_s_s a b }
{
    upper(product(a.cast_signed(), b.cast_signed())).cast_unsigned()
}

#[inline]
pub(crate) fn mul_upper_s_u(a: u64, b: u64) -> u64
    ensures { result ≡ mul_upper_s_u a b }
{
    upper(mixed_product(a.cast_signed(), b)).cast_unsigned()
}

/// The whole product of two signed numbers.
#[inline]
fn product(a: i64, b: i64) -> i128
    ensures { result ≡ a *ℤ b }
{
    i128::from(a) * i128::from(b)
}

/// The whole product of a signed and a natural number.
#[inline]
fn mixed_product(a: i64, b: u64) -> i128
    ensures { result ≡ a *ℤ pos b }
{
    i128::from(a) * i128::from(b)
}

/// The high half of a product.
#[inline]
fn upper(product: i128) -> i64
    ensures { result ≡ int_shr product 64 }
{
    (product >> 64) as i64
}

#[inline]
pub(crate) fn set_lt_u(a: u64, b: u64) -> u64
    ensures { result ≡ set_lt_u a b }
{
    u64::from(a < b)
}

#[inline]
pub(crate) fn set_lt_s(a: u64, b: u64) -> u64
    ensures { result ≡ set_lt_s a b }
{
    u64::from(a.cast_signed() < b.cast_signed())
}

#[inline]
pub(crate) fn and_inv(a: u64, b: u64) -> u64
    ensures { result ≡ and_inv a b }
{
    a & !b
}

#[inline]
pub(crate) fn or_inv(a: u64, b: u64) -> u64
    ensures { result ≡ or_inv a b }
{
    a | !b
}

#[inline]
pub(crate) fn xnor(a: u64, b: u64) -> u64
    ensures { result ≡ xnor a b }
{
    !(a ^ b)
}

#[inline]
pub(crate) fn max_s(a: u64, b: u64) -> u64
    ensures { result ≡ max_s a b }
{
    if a.cast_signed() < b.cast_signed() {
        b
    } else {
        a
    }
}

#[inline]
pub(crate) fn min_s(a: u64, b: u64) -> u64
    ensures { result ≡ min_s a b }
{
    if b.cast_signed() < a.cast_signed() {
        b
    } else {
        a
    }
}
