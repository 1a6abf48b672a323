use crate::outer::{Caller, EMPTY, FULL, HUH, OK, OOB, STACK, STORES, WHO, WORDS};
use inner_machines::Served;
use std::test::*;

/// an address without a page in the machine that calls
const NOWHERE: u64 = 0x1_0000;

/// the number of a call, its arguments, and what registers 7 and 8 hold after it, each case of each call in order
const CASES: [(u64, [u64; 4], Served, u64, u64); 35] = [
    (7, [0, 0, 0, 0], Served::NotMine, 0, 0),
    (14, [0, 0, 0, 0], Served::NotMine, 0, 0),
    (8, [NOWHERE, 10, 0, 0], Served::Panic, NOWHERE, 10),
    (8, [STACK, 9, 0, 0], Served::Done, HUH, 9),
    (8, [STACK, 10, 77, 0], Served::Done, 1, 10),
    (11, [0, 16, 1, 2], Served::Done, OK, 16),
    (11, [0, 17, 1, 1], Served::Done, OK, 17),
    (9, [5, NOWHERE, 0x1_0000, 4], Served::Panic, 5, NOWHERE),
    (9, [5, STACK, 0x1_0000, 4], Served::Done, WHO, STACK),
    (9, [0, STACK, 0x1_2000, 4], Served::Done, OOB, STACK),
    (
        9,
        [0, STACK + 16, 0x1_1ffc, 4],
        Served::Done,
        OK,
        STACK + 16,
    ),
    (9, [0, 1, 1, 0], Served::Done, OK, 1),
    (10, [5, NOWHERE, 0x1_0000, 4], Served::Panic, 5, NOWHERE),
    (10, [5, STACK, 0x1_0000, 4], Served::Done, WHO, STACK),
    (10, [0, STACK, 0x1_1000, 4], Served::Done, OOB, STACK),
    (10, [0, STACK, 0x1_0000, 10], Served::Done, OK, STACK),
    (10, [0, u64::MAX, u64::MAX, 0], Served::Done, OK, u64::MAX),
    (11, [5, 0, 0, 9], Served::Done, WHO, 0),
    (11, [0, 16, 1, 5], Served::Done, HUH, 16),
    (11, [0, 15, 1, 1], Served::Done, HUH, 15),
    (11, [0, 16, 0xf_fff0, 1], Served::Done, HUH, 16),
    (11, [0, 16, u64::MAX, 0], Served::Done, HUH, 16),
    (11, [0, 17, 2, 3], Served::Done, HUH, 17),
    (11, [0, 16, 131_072, 2], Served::Done, FULL, 16),
    (11, [0, 17, 1, 4], Served::Done, OK, 17),
    (10, [0, STACK, 0x1_1000, 4], Served::Done, OK, STACK),
    (11, [0, 16, 2, 3], Served::Done, OK, 16),
    (10, [0, STACK, 0x1_0000, 4], Served::Done, OOB, STACK),
    (11, [0, 16, 2, 0], Served::Done, OK, 16),
    (9, [0, STACK, 0x1_0000, 4], Served::Done, OOB, STACK),
    (12, [5, NOWHERE, 0, 0], Served::Panic, 5, NOWHERE),
    (12, [5, WORDS, 0, 0], Served::Done, WHO, WORDS),
    (12, [0, STACK, 0, 0], Served::OutOfGas, 0, STACK),
    (13, [5, 0, 0, 0], Served::Done, WHO, 0),
    (13, [1, 0, 0, 0], Served::Done, 77, 0),
];

#[test]
fn each_case_of_each_call(rt: HostRuntime) -> Result<(), Fail> {
    let mut caller = Caller::with(rt.alloc(), &STORES)?;
    assert_eq!(rt; caller.call(8, [STACK, 10, 0, 0]), (Served::Done, 0, 10));
    for (number, arguments, served, seventh, eighth) in CASES {
        assert_eq!(rt; caller.call(number, arguments), (served, seventh, eighth));
    }
    Ok(())
}

/// jump_ind r0 0; ecalli 5; a jump to itself; trap; a load of the register 7 from 0x2_0000
const ENDS: [([u8; 10], u64, u64, u64); 5] = [
    (
        [0x00, 0x01, 0x02, 0x32, 0x00, 0x01, 0, 0, 0, 0],
        6,
        0,
        WORDS,
    ),
    ([0x00, 0x01, 0x02, 0x0a, 0x05, 0x01, 0, 0, 0, 0], 6, 3, 5),
    ([0x00, 0x01, 0x01, 0x28, 0x01, 0, 0, 0, 0, 0], 5, 4, WORDS),
    ([0x00, 0x01, 0x01, 0x00, 0x01, 0, 0, 0, 0, 0], 5, 1, WORDS),
    (
        [0x00, 0x01, 0x05, 0x34, 0x07, 0x00, 0x00, 0x02, 0x01, 0],
        9,
        2,
        0x2_0000,
    ),
];

#[test]
fn how_an_inner_machine_stops_is_reported(rt: HostRuntime) -> Result<(), Fail> {
    let mut caller = Caller::with(rt.alloc(), &EMPTY)?;
    for (program, len, seventh, eighth) in ENDS {
        assert_eq!(rt;
            caller.outer.memory_mut().copy_in(0xfefd_0000, &program),
            Ok(())
        );
        assert_eq!(rt; caller.call(8, [STACK, len, 0, 0]), (Served::Done, 0, len));
        assert_eq!(rt; caller.outer.memory_mut().write64(0xfefd_0200, 10), Ok(()));
        // register 0 is where a jump halts
        assert_eq!(rt;
            caller.outer.memory_mut().write64(0xfefd_0208, 0xffff_0000),
            Ok(())
        );
        assert_eq!(rt;
            caller.call(12, [0, WORDS, 0, 0]),
            (Served::Done, seventh, eighth)
        );
        assert_eq!(rt; caller.outer.memory().read64(0xfefd_0208), Ok(0xffff_0000));
        let (served, _, _) = caller.call(13, [0, 0, 0, 0]);
        assert_eq!(rt; served, Served::Done);
    }
    Ok(())
}
