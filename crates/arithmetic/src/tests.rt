use super::*;
use std::process::Abort;
use std::test::*;

/// -1, and the greatest natural number.
const ONES: u64 = 0xffff_ffff_ffff_ffff;

/// -7.
const MINUS_SEVEN: u64 = 0xffff_ffff_ffff_fff9;

/// The least signed number of 64 bits.
const LEAST: u64 = 0x8000_0000_0000_0000;

/// The least signed number of 32 bits, as a word.
const LEAST_32: u64 = 0xffff_ffff_8000_0000;

/// What an operation gives of two words: a, b and the word that is wanted.
fn gives<const N: usize>(rt: &impl Abort, op: Binary, rows: [(u64, u64, u64); N]) {
    for (a, b, want) in rows {
        assert_eq!(rt; op.apply(a, b), want, "{op:?} of {a:x} and {b:x}");
    }
}

#[test]
fn sums_and_products_of_32_bits(rt: HostRuntime) {
    let rt = &rt;
    gives(
        rt,
        Binary::Add32,
        [(0x7fff_ffff, 1, LEAST_32), (ONES, 1, 0)],
    );
    gives(
        rt,
        Binary::Sub32,
        [(0, 1, ONES), (0x8000_0000, 1, 0x7fff_ffff)],
    );
    gives(
        rt,
        Binary::Mul32,
        [(0x1_0000, 0x8000, LEAST_32), (ONES, ONES, 1)],
    );
}

#[test]
fn quotients_of_32_bits(rt: HostRuntime) {
    let rt = &rt;
    let unsigned = [
        (0xffff_ffff, 2, 0x7fff_ffff),
        (0xffff_ffff, 1, ONES),
        (5, 0x1_0000_0000, ONES),
    ];
    gives(rt, Binary::DivU32, unsigned);
    let signed = [
        (MINUS_SEVEN, 2, 0xffff_ffff_ffff_fffd),
        (0x8000_0000, ONES, LEAST_32),
        (1, 0, ONES),
    ];
    gives(rt, Binary::DivS32, signed);
    gives(
        rt,
        Binary::RemU32,
        [
            (0xffff_ffff, 16, 15),
            (0x8000_0001, 0, 0xffff_ffff_8000_0001),
        ],
    );
    let signed = [
        (MINUS_SEVEN, 2, ONES),
        (0x8000_0000, ONES, 0),
        (0x1_8000_0001, 0, 0xffff_ffff_8000_0001),
    ];
    gives(rt, Binary::RemS32, signed);
}

#[test]
fn shifts_of_32_bits(rt: HostRuntime) {
    let rt = &rt;
    gives(rt, Binary::ShloL32, [(1, 31, LEAST_32), (1, 32, 1)]);
    gives(
        rt,
        Binary::ShloR32,
        [
            (0x8000_0000, 0, LEAST_32),
            (LEAST_32, 4, 0x0800_0000),
            (0x10, 36, 1),
        ],
    );
    gives(
        rt,
        Binary::SharR32,
        [
            (0x8000_0000, 4, 0xffff_ffff_f800_0000),
            (0x7000_0000, 36, 0x0700_0000),
        ],
    );
}

#[test]
fn sums_and_products_of_64_bits(rt: HostRuntime) {
    let rt = &rt;
    gives(rt, Binary::Add64, [(ONES, 2, 1)]);
    gives(rt, Binary::Sub64, [(1, 2, ONES)]);
    gives(
        rt,
        Binary::Mul64,
        [(ONES, ONES, 1), (0x1_0000_0000, 0x1_0000_0000, 0)],
    );
    gives(
        rt,
        Binary::MulUpperSS,
        [
            (ONES, ONES, 0),
            (ONES, 1, ONES),
            (LEAST, LEAST, 0x4000_0000_0000_0000),
        ],
    );
    gives(
        rt,
        Binary::MulUpperUU,
        [(ONES, ONES, 0xffff_ffff_ffff_fffe), (ONES, 1, 0)],
    );
    gives(
        rt,
        Binary::MulUpperSU,
        [(ONES, ONES, ONES), (ONES, 1, ONES), (1, ONES, 0)],
    );
}

#[test]
fn quotients_of_64_bits(rt: HostRuntime) {
    let rt = &rt;
    gives(
        rt,
        Binary::DivU64,
        [(ONES, 2, 0x7fff_ffff_ffff_ffff), (5, 0, ONES)],
    );
    gives(
        rt,
        Binary::DivS64,
        [
            (MINUS_SEVEN, 2, 0xffff_ffff_ffff_fffd),
            (LEAST, ONES, LEAST),
            (5, 0, ONES),
        ],
    );
    gives(rt, Binary::RemU64, [(ONES, 10, 5), (5, 0, 5)]);
    let signed = [
        (MINUS_SEVEN, 2, ONES),
        (7, 0xffff_ffff_ffff_fffe, 1),
        (LEAST, ONES, 0),
        (MINUS_SEVEN, 0, MINUS_SEVEN),
    ];
    gives(rt, Binary::RemS64, signed);
}

#[test]
fn shifts_of_64_bits(rt: HostRuntime) {
    let rt = &rt;
    gives(rt, Binary::ShloL64, [(3, 63, LEAST), (3, 64, 3)]);
    gives(rt, Binary::ShloR64, [(LEAST, 63, 1), (LEAST, 64, LEAST)]);
    gives(
        rt,
        Binary::SharR64,
        [
            (LEAST, 63, ONES),
            (0x4000_0000_0000_0000, 62, 1),
            (LEAST, 64, LEAST),
        ],
    );
}

#[test]
fn rotations(rt: HostRuntime) {
    let rt = &rt;
    gives(
        rt,
        Binary::RotL64,
        [(0x8000_0000_0000_0001, 1, 3), (5, 0, 5), (1, 68, 16)],
    );
    gives(
        rt,
        Binary::RotL32,
        [
            (0x8000_0001, 1, 3),
            (0x8000_0000, 0, LEAST_32),
            (0x4000_0000, 33, LEAST_32),
        ],
    );
    gives(rt, Binary::RotR64, [(1, 1, LEAST), (5, 64, 5)]);
    gives(
        rt,
        Binary::RotR32,
        [(1, 1, LEAST_32), (5, 0, 5), (2, 33, 1)],
    );
}

#[test]
fn bits_of_two_words(rt: HostRuntime) {
    let rt = &rt;
    gives(rt, Binary::And, [(0b1100, 0b1010, 0b1000)]);
    gives(rt, Binary::Xor, [(0b1100, 0b1010, 0b0110)]);
    gives(rt, Binary::Or, [(0b1100, 0b1010, 0b1110)]);
    gives(rt, Binary::AndInv, [(0b1100, 0b1010, 0b0100)]);
    gives(rt, Binary::OrInv, [(0b1100, 0b1010, 0xffff_ffff_ffff_fffd)]);
    gives(rt, Binary::Xnor, [(0b1100, 0b1010, 0xffff_ffff_ffff_fff9)]);
}

#[test]
fn comparisons_as_words(rt: HostRuntime) {
    let rt = &rt;
    gives(rt, Binary::SetLtU, [(1, ONES, 1), (ONES, 1, 0), (1, 1, 0)]);
    gives(rt, Binary::SetLtS, [(1, ONES, 0), (ONES, 1, 1), (1, 1, 0)]);
    gives(rt, Binary::Max, [(1, ONES, 1), (ONES, 1, 1)]);
    gives(rt, Binary::MaxU, [(1, ONES, ONES)]);
    gives(rt, Binary::Min, [(1, ONES, ONES), (ONES, 1, ONES)]);
    gives(rt, Binary::MinU, [(1, ONES, 1)]);
}

/// What an operation gives of a word: the word and what is wanted.
fn turns<const N: usize>(rt: &impl Abort, op: Unary, rows: [(u64, u64); N]) {
    for (a, want) in rows {
        assert_eq!(rt; op.apply(a), want, "{op:?} of {a:x}");
    }
}

#[test]
fn operations_on_one_word(rt: HostRuntime) {
    let rt = &rt;
    turns(rt, Unary::Move, [(5, 5)]);
    turns(
        rt,
        Unary::CountSetBits64,
        [(ONES, 64), (0x8000_0001_0000_0100, 3), (0, 0)],
    );
    turns(
        rt,
        Unary::CountSetBits32,
        [(ONES, 32), (0x8000_0001_0000_0100, 1)],
    );
    turns(rt, Unary::LeadingZeroBits64, [(1, 63), (ONES, 0), (0, 64)]);
    turns(
        rt,
        Unary::LeadingZeroBits32,
        [(1, 31), (0xffff_ffff_0000_0000, 32)],
    );
    turns(
        rt,
        Unary::TrailingZeroBits64,
        [(8, 3), (LEAST, 63), (0, 64)],
    );
    turns(rt, Unary::TrailingZeroBits32, [(8, 3), (0x1_0000_0000, 32)]);
    turns(
        rt,
        Unary::SignExtend8,
        [(0x80, 0xffff_ffff_ffff_ff80), (0x817f, 0x7f)],
    );
    turns(
        rt,
        Unary::SignExtend16,
        [(0x8000, 0xffff_ffff_ffff_8000), (0x8001_7fff, 0x7fff)],
    );
    turns(rt, Unary::ZeroExtend16, [(0x1_8000, 0x8000)]);
    turns(
        rt,
        Unary::ReverseBytes,
        [(0x0102_0304_0506_0708, 0x0807_0605_0403_0201)],
    );
}

/// Whether a comparison holds of 1 and 1, of 1 and -1, and of -1 and 1, where -1 is the greatest natural number.
fn compares(rt: &impl Abort, condition: Condition, equal: bool, above: bool, below: bool) {
    assert_eq!(rt;
        condition.holds(1, 1),
        equal,
        "{condition:?} of equal words"
    );
    assert_eq!(rt;
        condition.holds(1, ONES),
        above,
        "{condition:?} of 1 and -1"
    );
    assert_eq!(rt;
        condition.holds(ONES, 1),
        below,
        "{condition:?} of -1 and 1"
    );
}

#[test]
fn comparisons(rt: HostRuntime) {
    let rt = &rt;
    compares(rt, Condition::Eq, true, false, false);
    compares(rt, Condition::Ne, false, true, true);
    compares(rt, Condition::LtU, false, true, false);
    compares(rt, Condition::LeU, true, true, false);
    compares(rt, Condition::GeU, true, false, true);
    compares(rt, Condition::GtU, false, false, true);
    compares(rt, Condition::LtS, false, false, true);
    compares(rt, Condition::LeS, true, false, true);
    compares(rt, Condition::GeS, true, true, false);
    compares(rt, Condition::GtS, false, true, false);
}

/// Nothing of this law is seen where a program runs: the test shows that it can be called.
#[test]
fn a_law_of_results_is_there() {
    results_are_words();
}
