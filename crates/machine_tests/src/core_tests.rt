//! Programs that run on a core. The codes, and what is left of a core, are worked out by hand.

use blob_codec::Program;
use page_memory::Mode;
use pvm_machine::{Core, Exit, run_core};
use std::test::*;

// Programs: the number of table entries, their width, the length of the code, the code and its mask.

/// add_imm_64 r7 r8 1, store_ind_u8 r7 r9 0, ecalli 5, trap
const CALLS: [u8; 12] = [
    0x00, 0x01, 0x08, 0x95, 0x87, 0x01, 0x78, 0x97, 0x0a, 0x05, 0x00, 0xa9,
];

/// sbrk r7 r8, jump @0
const GROWS: [u8; 8] = [0x00, 0x01, 0x04, 0x65, 0x87, 0x28, 0xfe, 0x05];

#[test]
fn a_new_core_is_empty(rt: HostRuntime) -> Result<(), Fail> {
    let mut core = Core::new(rt.alloc(), 7);
    assert_eq!(rt; (core.counter(), core.gas()), (7, 0));
    assert_eq!(rt; *core.registers(), [0; 13]);
    assert_eq!(rt; core.memory().frames(), 0);
    assert_eq!(rt;
        (core.heap_top(), core.heap_bound(), core.frame_limit()),
        (0, 0, 0)
    );
    core.set_counter(3);
    core.set_gas(4);
    core.set_heap_top(0x2_0000);
    core.set_heap_bound(0x3_0000);
    core.set_frame_limit(5);
    core.set_register(12, 6);
    assert_eq!(rt; (core.counter(), core.gas(), core.register(12)), (3, 4, 6));
    assert_eq!(rt;
        (core.heap_top(), core.heap_bound(), core.frame_limit()),
        (0x2_0000, 0x3_0000, 5)
    );
    Ok(())
}

#[test]
fn a_core_runs_up_to_a_call(rt: HostRuntime) -> Result<(), Fail> {
    let program = Program::read(&CALLS)?;
    let mut core = Core::new(rt.alloc(), 0);
    core.memory_mut().map(16, 1, Mode::Writable, 1)?;
    core.set_gas(10);
    core.set_register(8, 0x41);
    core.set_register(9, 0x1_0002);
    assert_eq!(rt; run_core(&program, &mut core), Exit::Host(5));
    assert_eq!(rt; (core.counter(), core.gas()), (7, 7));
    assert_eq!(rt; core.register(7), 0x42);
    assert_eq!(rt; core.memory().read8(0x1_0002), Ok(0x42));
    assert_eq!(rt; run_core(&program, &mut core), Exit::Panic);
    assert_eq!(rt; (core.counter(), core.gas()), (7, 6));
    Ok(())
}

#[test]
fn a_core_without_a_heap_gets_none(rt: HostRuntime) -> Result<(), Fail> {
    let program = Program::read(&GROWS)?;
    let mut core = Core::new(rt.alloc(), 0);
    core.set_frame_limit(100);
    core.set_gas(2);
    core.set_register(7, 1);
    core.set_register(8, 1);
    assert_eq!(rt; run_core(&program, &mut core), Exit::OutOfGas);
    assert_eq!(rt; core.register(7), 0);
    assert_eq!(rt; core.memory().frames(), 0);
    Ok(())
}

#[test]
fn a_core_with_a_heap_grows_it(rt: HostRuntime) -> Result<(), Fail> {
    let program = Program::read(&GROWS)?;
    let mut core = Core::new(rt.alloc(), 0);
    core.set_heap_top(0x2_0000);
    core.set_heap_bound(0x2_1000);
    core.set_frame_limit(1);
    core.set_gas(2);
    core.set_register(8, 0x1000);
    assert_eq!(rt; run_core(&program, &mut core), Exit::OutOfGas);
    assert_eq!(rt; core.register(7), 0x2_0000);
    assert_eq!(rt; (core.heap_top(), core.memory().frames()), (0x2_1000, 1));
    Ok(())
}
