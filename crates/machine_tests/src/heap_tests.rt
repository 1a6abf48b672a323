//! Host calls, and the heap. The addresses are worked out by hand: a program without data has its heap from 0x2_0000 on,
//! and without a stack it ends below 0xfefd_0000.

use blob_codec::Container;
use page_memory::Mode;
use pvm_machine::{Exit, Machine, Step};
use std::test::*;

// Containers without data and without a stack. Their programs begin after 15 bytes.

/// ecalli 42, fallthrough
const CALLS: [u8; 22] = [
    0x00, 0x00, 0x00, 0x00, 0x00, 0x00, 0x00, 0x00, 0x00, 0x00, 0x00, 0x07, 0x00, 0x00, 0x00, 0x00,
    0x01, 0x03, 0x0a, 0x2a, 0x01, 0x05,
];

/// ecalli -1, fallthrough
const CALLS_THE_LAST: [u8; 22] = [
    0x00, 0x00, 0x00, 0x00, 0x00, 0x00, 0x00, 0x00, 0x00, 0x00, 0x00, 0x07, 0x00, 0x00, 0x00, 0x00,
    0x01, 0x03, 0x0a, 0xff, 0x01, 0x05,
];

/// sbrk r7 r8, jump @0
const GROWS: [u8; 23] = [
    0x00, 0x00, 0x00, 0x00, 0x00, 0x00, 0x00, 0x00, 0x00, 0x00, 0x00, 0x08, 0x00, 0x00, 0x00, 0x00,
    0x01, 0x04, 0x65, 0x87, 0x28, 0xfe, 0x05,
];

#[test]
fn a_call_leaves_the_machine_after_it(rt: HostRuntime) -> Result<(), Fail> {
    let container = Container::read(&CALLS)?;
    let mut machine = Machine::start(rt.alloc(), &container, 0, b"hi", 5)?;
    assert_eq!(rt; machine.step(), Step::Host(42));
    assert_eq!(rt; (machine.counter(), machine.gas()), (2, 4));
    assert_eq!(rt;
        (machine.register(7), machine.register(8)),
        (0xfeff_0000, 2)
    );
    assert_eq!(rt; machine.memory().frames(), 1);
    assert_eq!(rt; machine.run(), Exit::Panic);
    assert_eq!(rt; (machine.counter(), machine.gas()), (3, 2));
    Ok(())
}

#[test]
fn runs_stop_at_a_call(rt: HostRuntime) -> Result<(), Fail> {
    let container = Container::read(&CALLS_THE_LAST)?;
    let mut machine = Machine::start(rt.alloc(), &container, 0, &[], 1)?;
    assert_eq!(rt; machine.run(), Exit::Host(u64::MAX));
    assert_eq!(rt; (machine.counter(), machine.gas()), (2, 0));
    assert_eq!(rt; machine.run(), Exit::OutOfGas);
    Ok(())
}

/// The register of an `sbrk` by a number of bytes after it. The machine is at the `sbrk` before and after.
fn grow(machine: &mut Machine<'_>, size: u64) -> (Step, u64) {
    machine.set_register(7, 1);
    machine.set_register(8, size);
    let answer = machine.step();
    let _ = machine.step();
    (answer, machine.register(7))
}

#[test]
fn the_heap_grows_by_bytes_and_maps_pages(rt: HostRuntime) -> Result<(), Fail> {
    let container = Container::read(&GROWS)?;
    let mut machine = Machine::start(rt.alloc(), &container, 0, &[], 100)?;
    for (size, top, frames) in [
        (0, 0x2_0000, 0),
        (1, 0x2_0000, 1),
        (0, 0x2_0001, 1),
        (0xffe, 0x2_0001, 1),
        (1, 0x2_0fff, 1),
        (0, 0x2_1000, 1),
        (1, 0x2_1000, 2),
        (0x2000, 0x2_1001, 4),
        (0, 0x2_3001, 4),
    ] {
        assert_eq!(rt; grow(&mut machine, size), (Step::Next, top), "by {size:x}");
        assert_eq!(rt; machine.memory().frames(), frames, "by {size:x}");
    }
    assert_eq!(rt; machine.gas(), 100 - 2 * 9);
    for page in 0x20..0x24 {
        assert_eq!(rt;
            machine.memory().mode(page),
            Mode::Writable,
            "page {page:x}"
        );
        assert_eq!(rt;
            machine.memory().read64(4096 * page),
            Ok(0),
            "page {page:x}"
        );
    }
    assert_eq!(rt; machine.memory().mode(0x24), Mode::Unmapped);
    Ok(())
}

#[test]
fn the_heap_stays_below_its_bound(rt: HostRuntime) -> Result<(), Fail> {
    let container = Container::read(&GROWS)?;
    let mut machine = Machine::start(rt.alloc(), &container, 0, &[], 100)?;
    machine.set_frame_limit(u32::MAX);
    for size in [0xfefb_0001, 0xfefd_0000, 1 << 32, u64::MAX] {
        assert_eq!(rt; grow(&mut machine, size), (Step::Next, 0), "by {size:x}");
        assert_eq!(rt; machine.memory().frames(), 0, "by {size:x}");
    }
    assert_eq!(rt; grow(&mut machine, 0), (Step::Next, 0x2_0000));
    Ok(())
}

#[test]
fn the_heap_has_no_more_pages_than_the_limit(rt: HostRuntime) -> Result<(), Fail> {
    let container = Container::read(&GROWS)?;
    let mut machine = Machine::start(rt.alloc(), &container, 0, &[], 100)?;
    assert_eq!(rt; grow(&mut machine, 131_072 * 4096 + 1), (Step::Next, 0));
    machine.set_frame_limit(2);
    assert_eq!(rt; grow(&mut machine, 0x2001), (Step::Next, 0));
    assert_eq!(rt; grow(&mut machine, 0x1fff), (Step::Next, 0x2_0000));
    assert_eq!(rt; machine.memory().frames(), 2);
    // within the last page it still grows, and one byte further it does not
    assert_eq!(rt; grow(&mut machine, 1), (Step::Next, 0x2_1fff));
    assert_eq!(rt; grow(&mut machine, 1), (Step::Next, 0));
    assert_eq!(rt; grow(&mut machine, 0), (Step::Next, 0x2_2000));
    machine.set_frame_limit(3);
    assert_eq!(rt; grow(&mut machine, 1), (Step::Next, 0x2_2000));
    Ok(())
}

/// An allocation may fail as well: a try of this test with `--fail-alloc` reaches each of them.
#[test]
fn a_growth_that_fails_changes_nothing(rt: HostRuntime) -> Result<(), Fail> {
    let container = Container::read(&GROWS)?;
    let mut machine = Machine::start(rt.alloc(), &container, 0, &[], 100)?;
    machine.set_register(7, 1);
    machine.set_register(8, 0x2001);
    if machine.step() == Step::Memory {
        assert_eq!(rt; (machine.counter(), machine.gas()), (0, 100));
        assert_eq!(rt; (machine.register(7), machine.register(8)), (1, 0x2001));
        assert_eq!(rt; machine.memory().frames(), 0);
        assert_eq!(rt; machine.memory().mode(0x20), Mode::Unmapped);
        assert_eq!(rt; machine.run(), Exit::OutOfGas);
    } else {
        assert_eq!(rt; (machine.counter(), machine.gas()), (2, 99));
        assert_eq!(rt;
            (machine.register(7), machine.memory().frames()),
            (0x2_0000, 3)
        );
    }
    Ok(())
}
