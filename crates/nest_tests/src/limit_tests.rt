use crate::outer::{Caller, EMPTY, FULL, HUH, OK, STACK, STORES, WORDS};
use inner_machines::Served;
use std::test::*;

#[test]
fn as_many_machines_as_there_may_be(rt: HostRuntime) -> Result<(), Fail> {
    let mut caller = Caller::with(rt.alloc(), &EMPTY)?;
    for number in 0..1024 {
        assert_eq!(rt; caller.call(8, [STACK, 3, 0, 0]), (Served::Done, number, 3));
    }
    assert_eq!(rt; caller.nest.machines(), 1024);
    assert_eq!(rt; caller.call(8, [STACK, 3, 0, 0]), (Served::Done, FULL, 3));
    assert_eq!(rt; caller.nest.machines(), 1024);
    for number in 0..1024 {
        assert_eq!(rt;
            caller.call(11, [number, 1_048_574, 1, 2]),
            (Served::Done, OK, 1_048_574)
        );
    }
    assert_eq!(rt; caller.nest.frames(), 1024);
    Ok(())
}

#[test]
fn pages_have_numbers_of_twenty_bits(rt: HostRuntime) -> Result<(), Fail> {
    let mut caller = Caller::with(rt.alloc(), &EMPTY)?;
    assert_eq!(rt; caller.call(8, [STACK, 3, 0, 0]), (Served::Done, 0, 3));
    assert_eq!(rt;
        caller.call(11, [0, 1_048_575, 1, 1]),
        (Served::Done, HUH, 1_048_575)
    );
    assert_eq!(rt; caller.call(11, [0, 16, 0, 1]), (Served::Done, OK, 16));
    assert_eq!(rt; caller.nest.frames(), 0);
    Ok(())
}

#[test]
fn all_machines_share_their_pages(rt: HostRuntime) -> Result<(), Fail> {
    let mut caller = Caller::with(rt.alloc(), &EMPTY)?;
    assert_eq!(rt; caller.outer.memory().frames(), 16);
    assert_eq!(rt; caller.call(8, [STACK, 3, 0, 0]), (Served::Done, 0, 3));
    assert_eq!(rt; caller.call(8, [STACK, 3, 0, 0]), (Served::Done, 1, 3));
    assert_eq!(rt;
        caller.call(11, [0, 16, 131_057, 1]),
        (Served::Done, FULL, 16)
    );
    assert_eq!(rt; caller.nest.frames(), 0);
    assert_eq!(rt; caller.call(11, [0, 16, 56, 1]), (Served::Done, OK, 16));
    assert_eq!(rt; caller.nest.frames(), 56);
    assert_eq!(rt;
        caller.call(11, [1, 16, 131_001, 1]),
        (Served::Done, FULL, 16)
    );
    // pages that are there already take no room
    assert_eq!(rt;
        caller.call(11, [0, 16, 131_057, 2]),
        (Served::Done, FULL, 16)
    );
    assert_eq!(rt; caller.call(11, [0, 16, 56, 2]), (Served::Done, OK, 16));
    assert_eq!(rt; caller.nest.frames(), 56);
    Ok(())
}

#[test]
fn the_last_page_of_all_machines(rt: HostRuntime) -> Result<(), Fail> {
    let mut caller = Caller::with(rt.alloc(), &EMPTY)?;
    assert_eq!(rt; caller.call(8, [STACK, 3, 0, 0]), (Served::Done, 0, 3));
    assert_eq!(rt; caller.call(8, [STACK, 3, 0, 0]), (Served::Done, 1, 3));
    // of 131,072 pages the machine that calls has 16
    assert_eq!(rt;
        caller.call(11, [0, 16, 131_057, 2]),
        (Served::Done, FULL, 16)
    );
    assert_eq!(rt;
        caller.call(11, [0, 16, 131_055, 2]),
        (Served::Done, OK, 16)
    );
    assert_eq!(rt; caller.call(11, [1, 16, 2, 2]), (Served::Done, FULL, 16));
    assert_eq!(rt; caller.nest.frames(), 131_055);
    assert_eq!(rt; caller.call(11, [1, 16, 1, 2]), (Served::Done, OK, 16));
    assert_eq!(rt; caller.nest.frames(), 131_056);
    assert_eq!(rt; caller.call(11, [1, 17, 1, 2]), (Served::Done, FULL, 17));
    assert_eq!(rt; caller.nest.frames(), 131_056);
    // a machine that is taken away gives its pages back
    assert_eq!(rt; caller.call(13, [1, 0, 0, 0]), (Served::Done, 0, 0));
    assert_eq!(rt;
        caller.call(11, [0, 131_071, 1, 1]),
        (Served::Done, OK, 131_071)
    );
    assert_eq!(rt; caller.nest.frames(), 131_056);
    Ok(())
}

#[test]
fn an_inner_machine_takes_all_gas_that_is_left(rt: HostRuntime) -> Result<(), Fail> {
    let mut caller = Caller::with(rt.alloc(), &STORES)?;
    assert_eq!(rt; caller.call(8, [STACK, 10, 0, 0]), (Served::Done, 0, 10));
    assert_eq!(rt;
        caller.outer.memory_mut().write64(0xfefd_0200, 1000),
        Ok(())
    );
    assert_eq!(rt;
        caller.call(12, [0, WORDS, 0, 0]),
        (Served::Done, 2, 0x11000)
    );
    assert_eq!(rt; caller.outer.gas(), 999);
    // no instruction is at the last position of all
    assert_eq!(rt;
        caller.call(8, [STACK, 10, u64::MAX, 0]),
        (Served::Done, 1, 10)
    );
    assert_eq!(rt; caller.outer.memory_mut().write64(0xfefd_0200, 1), Ok(()));
    assert_eq!(rt; caller.call(12, [1, WORDS, 0, 0]), (Served::Done, 1, WORDS));
    assert_eq!(rt; caller.outer.memory().read64(0xfefd_0200), Ok(0));
    assert_eq!(rt; caller.outer.gas(), 998);
    Ok(())
}
