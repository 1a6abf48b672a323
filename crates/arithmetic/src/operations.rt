ghost use Rattle.std.specs.Prelude.{◌≡◌};
ghost use Rattle.arithmetic.specs.Operations.{binary, holds, unary};

use crate::words::{
    add_32, and_inv, div_s_32, div_s_64, div_u_32, div_u_64, extend_32, low_32, max_s, min_s,
    mul_32, mul_upper_s_s, mul_upper_s_u, mul_upper_u_u, or_inv, rem_s_32, rem_s_64, rem_u_32,
    rem_u_64, set_lt_s, set_lt_u, shar_r_32, shar_r_64, shlo_l_32, shlo_l_64, shlo_r_32, shlo_r_64,
    sign_extend_8, sign_extend_16, sub_32, xnor,
};

/// An operation on two words, a and b, by the name of the PVM's instruction (JAM Gray Paper 0.7.0, appendix A,
/// "Instructions with Arguments of Three Registers").
///
/// `U` reads words as natural numbers and `S` as signed numbers in two's complement. Sums, differences and products are
/// those modulo 2^64. An operation that ends in 32 works on the low 32 bits of both words, and what comes of it is
/// extended by its sign to 64 bits, whether it reads signed numbers or not.
#[derive(Clone, Copy, Debug, PartialEq, Eq)]
pub enum Binary {
    Add32,
    /// a less b.
    Sub32,
    Mul32,
    /// a by b. By zero it gives 2^64 - 1.
    DivU32,
    /// a by b, rounded towards zero. By zero it gives 2^64 - 1, and -2^31 by -1 gives -2^31.
    DivS32,
    /// What is left of a divided by b. By zero it is a, extended by its sign.
    RemU32,
    /// What is left of a divided by b, with the sign of a. By zero it is a, and -2^31 by -1 leaves 0.
    RemS32,
    /// a shifted left by b modulo 32.
    ShloL32,
    /// a shifted right by b modulo 32, with zeros from the left.
    ShloR32,
    /// a shifted right by b modulo 32, filled from the left with copies of a's sign bit.
    SharR32,
    Add64,
    /// a less b.
    Sub64,
    Mul64,
    /// a by b. By zero it gives 2^64 - 1.
    DivU64,
    /// a by b, rounded towards zero. By zero it gives 2^64 - 1, and -2^63 by -1 gives -2^63.
    DivS64,
    /// What is left of a divided by b. By zero it is a.
    RemU64,
    /// What is left of a divided by b, with the sign of a. By zero it is a, and -2^63 by -1 leaves 0.
    RemS64,
    /// a shifted left by b modulo 64.
    ShloL64,
    /// a shifted right by b modulo 64, with zeros from the left.
    ShloR64,
    /// a shifted right by b modulo 64, filled from the left with copies of a's sign bit.
    SharR64,
    And,
    Xor,
    Or,
    /// The high 64 bits of the product of 128 bits, of two signed numbers.
    MulUpperSS,
    /// The high 64 bits of the product of 128 bits, of two natural numbers.
    MulUpperUU,
    /// The high 64 bits of the product of 128 bits, where a is signed and b is not.
    MulUpperSU,
    /// 1 where a is less than b, and else 0.
    SetLtU,
    /// 1 where a is less than b, and else 0.
    SetLtS,
    /// a rotated left by b modulo 64.
    RotL64,
    /// a rotated left by b modulo 32.
    RotL32,
    /// a rotated right by b modulo 64.
    RotR64,
    /// a rotated right by b modulo 32.
    RotR32,
    /// The bits of a that b doesn't have.
    AndInv,
    /// The bits that a has or b doesn't.
    OrInv,
    /// The bits in which a and b are alike.
    Xnor,
    /// The greater of two signed numbers.
    Max,
    MaxU,
    /// The lesser of two signed numbers.
    Min,
    MinU,
}

/// An operation on one word, by the name of the PVM's instruction (JAM Gray Paper 0.7.0, appendix A, "Instructions with
/// Arguments of Two Registers").
///
/// A count that ends in 32 looks at the low 32 bits alone.
#[derive(Clone, Copy, Debug, PartialEq, Eq)]
pub enum Unary {
    Move,
    CountSetBits64,
    CountSetBits32,
    /// The zeros above the highest one: 64 where there is none.
    LeadingZeroBits64,
    /// The zeros above the highest one: 32 where there is none.
    LeadingZeroBits32,
    /// The zeros below the lowest one: 64 where there is none.
    TrailingZeroBits64,
    /// The zeros below the lowest one: 32 where there is none.
    TrailingZeroBits32,
    /// The low 8 bits, extended by their sign.
    SignExtend8,
    /// The low 16 bits, extended by their sign.
    SignExtend16,
    /// The low 16 bits.
    ZeroExtend16,
    /// The eight bytes in the other order.
    ReverseBytes,
}

/// A comparison of two words: whether a is equal to b, less than b and so on. `U` reads them as natural numbers and `S`
/// as signed numbers in two's complement.
#[derive(Clone, Copy, Debug, PartialEq, Eq)]
pub enum Condition {
    Eq,
    Ne,
    LtU,
    LeU,
    GeU,
    GtU,
    LtS,
    LeS,
    GeS,
    GtS,
}

impl Binary {
    /// What the operation gives of two words.
    #[inline(always)]
    pub fn apply(self, a: u64, b: u64) -> u64
        ensures { result ≡ binary self a b }
    {
        match self {
            Binary::Add32 => add_32(a, b),
            Binary::Sub32 => sub_32(a, b),
            Binary::Mul32 => mul_32(a, b),
            Binary::DivU32 => div_u_32(a, b),
            Binary::DivS32 => div_s_32(a, b),
            Binary::RemU32 => rem_u_32(a, b),
            Binary::RemS32 => rem_s_32(a, b),
            Binary::ShloL32 => shlo_l_32(a, b),
            Binary::ShloR32 => shlo_r_32(a, b),
            Binary::SharR32 => shar_r_32(a, b),
            Binary::Add64 => a.wrapping_add(b),
            Binary::Sub64 => a.wrapping_sub(b),
            Binary::Mul64 => a.wrapping_mul(b),
            Binary::DivU64 => div_u_64(a, b),
            Binary::DivS64 => div_s_64(a, b),
            Binary::RemU64 => rem_u_64(a, b),
            Binary::RemS64 => rem_s_64(a, b),
            Binary::ShloL64 => shlo_l_64(a, b),
            Binary::ShloR64 => shlo_r_64(a, b),
            Binary::SharR64 => shar_r_64(a, b),
            Binary::And => a & b,
            Binary::Xor => a ^ b,
            Binary::Or => a | b,
            Binary::MulUpperSS => mul_upper_s_s(a, b),
            Binary::MulUpperUU => mul_upper_u_u(a, b),
            Binary::MulUpperSU => mul_upper_s_u(a, b),
            Binary::SetLtU => set_lt_u(a, b),
            Binary::SetLtS => set_lt_s(a, b),
            Binary::RotL64 => a.rotate_left((b % 64) as u32),
            Binary::RotL32 => extend_32(u64::from(low_32(a).rotate_left((b % 32) as u32))),
            Binary::RotR64 => a.rotate_right((b % 64) as u32),
            Binary::RotR32 => extend_32(u64::from(low_32(a).rotate_right((b % 32) as u32))),
            Binary::AndInv => and_inv(a, b),
            Binary::OrInv => or_inv(a, b),
            Binary::Xnor => xnor(a, b),
            Binary::Max => max_s(a, b),
            Binary::MaxU => a.max(b),
            Binary::Min => min_s(a, b),
            Binary::MinU => a.min(b),
        }
    }
}

impl Unary {
    /// What the operation gives of a word.
    #[inline(always)]
    pub fn apply(self, a: u64) -> u64
        ensures { result ≡ unary self a }
    {
        match self {
            Unary::Move => a,
            Unary::CountSetBits64 => u64::from(a.count_ones()),
            Unary::CountSetBits32 => u64::from(low_32(a).count_ones()),
            Unary::LeadingZeroBits64 => u64::from(a.leading_zeros()),
            Unary::LeadingZeroBits32 => u64::from(low_32(a).leading_zeros()),
            Unary::TrailingZeroBits64 => u64::from(a.trailing_zeros()),
            Unary::TrailingZeroBits32 => u64::from(low_32(a).trailing_zeros()),
            Unary::SignExtend8 => sign_extend_8(a),
            Unary::SignExtend16 => sign_extend_16(a),
            Unary::ZeroExtend16 => a % 0x1_0000,
            Unary::ReverseBytes => a.swap_bytes(),
        }
    }
}

impl Condition {
    /// Whether the comparison of two words holds.
    #[inline(always)]
    pub fn holds(self, a: u64, b: u64) -> bool
        ensures { result ≡ holds self a b }
    {
        match self {
            Condition::Eq => a == b,
            Condition::Ne => a != b,
            Condition::LtU => a < b,
            Condition::LeU => a <= b,
            Condition::GeU => a >= b,
            Condition::GtU => a > b,
            Condition::LtS => a.cast_signed() < b.cast_signed(),
            Condition::LeS => a.cast_signed() <= b.cast_signed(),
            Condition::GeS => a.cast_signed() >= b.cast_signed(),
            Condition::GtS => a.cast_signed() > b.cast_signed(),
        }
    }
}
