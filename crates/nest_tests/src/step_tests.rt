use crate::outer::{Caller, HUH, OK, STACK, STORES, WORDS};
use inner_machines::Served;
use std::test::*;

/// An allocation may fail as well: a try of this test with `--fail-alloc` reaches each of those of the calls.
#[test]
fn a_machine_is_made_run_and_taken_away(rt: HostRuntime) -> Result<(), Fail> {
    let mut caller = Caller::with(rt.alloc(), &STORES)?;
    assert_eq!(rt;
        caller.call_to_the_end(&rt, 8, [STACK, 10, 0, 0]),
        (Served::Done, 0, 10)
    );
    assert_eq!(rt; caller.nest.machines(), 1);
    assert_eq!(rt;
        caller.call_to_the_end(&rt, 11, [0, 16, 1, 2]),
        (Served::Done, 0, 16)
    );
    assert_eq!(rt; caller.nest.frames(), 1);
    assert_eq!(rt;
        caller.call_to_the_end(&rt, 10, [0, STACK, 65536, 10]),
        (Served::Done, 0, STACK)
    );
    assert_eq!(rt;
        caller.call_to_the_end(&rt, 9, [0, STACK + 100, 65536, 10]),
        (Served::Done, 0, STACK + 100)
    );
    let mut copied = [0; 10];
    assert_eq!(rt;
        caller.outer.memory().copy_out(0xfefd_0064, &mut copied),
        Ok(())
    );
    assert_eq!(rt; copied, STORES);
    assert_eq!(rt; caller.outer.memory_mut().write64(0xfefd_0200, 100), Ok(()));
    assert_eq!(rt;
        caller.call_to_the_end(&rt, 12, [0, WORDS, 0, 0]),
        (Served::Done, 2, 0x11000)
    );
    assert_eq!(rt; caller.outer.memory().read64(0xfefd_0200), Ok(99));
    assert_eq!(rt; caller.outer.gas(), 999);
    assert_eq!(rt;
        caller.call_to_the_end(&rt, 11, [0, 17, 1, 2]),
        (Served::Done, 0, 17)
    );
    assert_eq!(rt;
        caller.call_to_the_end(&rt, 12, [0, WORDS, 0, 0]),
        (Served::Done, 1, WORDS)
    );
    assert_eq!(rt; caller.outer.memory().read64(0xfefd_0200), Ok(97));
    assert_eq!(rt; caller.outer.gas(), 997);
    assert_eq!(rt;
        caller.call_to_the_end(&rt, 13, [0, 0, 0, 0]),
        (Served::Done, 5, 0)
    );
    assert_eq!(rt; caller.nest.machines(), 0);
    assert_eq!(rt; caller.nest.frames(), 0);
    assert_eq!(rt;
        caller.call_to_the_end(&rt, 8, [STACK, 10, 0, 0]),
        (Served::Done, 0, 10)
    );
    assert_eq!(rt;
        caller.call_to_the_end(&rt, 11, [0, 15, 1, 2]),
        (Served::Done, HUH, 15)
    );
    assert_eq!(rt; caller.outer.memory_mut().write64(0xfefd_0200, 998), Ok(()));
    assert_eq!(rt;
        caller.call_to_the_end(&rt, 12, [0, WORDS, 0, 0]),
        (Served::OutOfGas, 0, WORDS)
    );
    assert_eq!(rt; caller.outer.gas(), 997);
    Ok(())
}

#[test]
fn the_least_free_number_is_given(rt: HostRuntime) -> Result<(), Fail> {
    let mut caller = Caller::with(rt.alloc(), &STORES)?;
    for number in 0..4 {
        assert_eq!(rt;
            caller.call(8, [STACK, 10, 0, 0]),
            (Served::Done, number, 10)
        );
    }
    assert_eq!(rt; caller.call(13, [1, 0, 0, 0]), (Served::Done, 0, 0));
    assert_eq!(rt; caller.call(13, [2, 0, 0, 0]), (Served::Done, 0, 0));
    assert_eq!(rt; caller.call(8, [STACK, 10, 0, 0]), (Served::Done, 1, 10));
    assert_eq!(rt; caller.call(8, [STACK, 10, 0, 0]), (Served::Done, 2, 10));
    assert_eq!(rt; caller.call(8, [STACK, 10, 0, 0]), (Served::Done, 4, 10));
    Ok(())
}
