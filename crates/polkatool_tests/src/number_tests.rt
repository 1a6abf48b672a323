use arithmetic::Unary;
use numbers::{bytes_come_back, sign_is_kept};
use std::test::*;

#[test]
fn low_bytes_and_signs_are_those_of_the_low_bits(rt: HostRuntime) {
    bytes_come_back();
    sign_is_kept();
    for x in [0, 0xff, 0x1_0080, 0x0123_4567_89ab_cdef, u64::MAX] {
        let bytes = x.to_le_bytes();
        let low = u64::from(bytes[0]) + 256 * u64::from(bytes[1]);
        assert_eq!(rt; low, x % 0x1_0000, "at {x:x}");
        assert_eq!(rt; u64::from_le_bytes(bytes), x, "at {x:x}");
        let extended = Unary::SignExtend8.apply(x);
        assert_eq!(rt; extended, Unary::SignExtend8.apply(x % 0x100), "at {x:x}");
        let above = if bytes[0] < 0x80 { 0 } else { u64::MAX - 0xff };
        assert_eq!(rt; extended - extended % 0x100, above, "at {x:x}");
    }
}
