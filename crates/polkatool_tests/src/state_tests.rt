use crate::fixtures::returning_five;
use blob_codec::Container;
use layout::zero_pages_are_least;
use machine_state::{registers_stay, sbrk_is_good, start_fits, start_is_good};
use page_memory::{Access, pages_are_filled};
use pvm_machine::Machine;
use std::test::*;

#[test]
fn a_start_has_thirteen_registers_of_which_a_write_changes_one(
    rt: HostRuntime,
) -> Result<(), Fail> {
    start_is_good();
    registers_stay();
    sbrk_is_good();
    let bytes = returning_five();
    let container = Container::read(&bytes)?;
    let mut machine = Machine::start(rt.alloc(), &container, 0, b"abc", 0)?;
    machine.set_register(12, u64::MAX);
    for (at, want) in [
        (0, 0xffff_0000),
        (1, 0xfefe_0000),
        (2, 0),
        (6, 0),
        (7, 0xfeff_0000),
        (8, 3),
        (9, 0),
        (11, 0),
        (12, u64::MAX),
    ] {
        assert_eq!(rt; machine.register(at), want, "at {at}");
    }
    Ok(())
}

#[test]
fn a_start_reads_its_stack_and_argument(rt: HostRuntime) -> Result<(), Fail> {
    let bytes = returning_five();
    let container = Container::read(&bytes)?;
    let mut machine = Machine::start(rt.alloc(), &container, 0, b"abc", 0)?;
    machine.set_register(8, 2);
    for (at, there) in [
        (0xfefc_ffff, false),
        (0xfefd_0000, true),
        (0xfefd_fffe, true),
        (0xfefd_ffff, false),
        (0xfeff_0000, true),
        (0xfeff_0fff, false),
    ] {
        machine.set_register(7, at);
        assert_eq!(rt; machine.output_range().is_some(), there, "at {at:x}");
    }
    Ok(())
}

/// The bytes of the parts are gone over once: with a pass for each page or each byte this would not end in time.
#[test]
fn the_largest_parts_are_in_the_memory_of_a_start(rt: HostRuntime) -> Result<(), Fail> {
    start_fits();
    pages_are_filled();
    zero_pages_are_least();
    let mut bytes = Vec::new(rt.alloc());
    // 2^24 - 1 bytes of read-only data, of writable data and of stack, and one zero page
    bytes.extend_from_slice(&[
        0xff, 0xff, 0xff, 0xff, 0xff, 0xff, 0x01, 0x00, 0xff, 0xff, 0xff,
    ])?;
    bytes.resize(11 + 0xff_ffff, 0x5a)?;
    bytes.resize(11 + 2 * 0xff_ffff, 0xa5)?;
    bytes.extend_from_slice(&returning_five()[11..])?;
    let argument = vec![in rt.alloc(); 0x3c; 0x100_0000]?;
    let container = Container::read(&bytes)?;
    let machine = Machine::start(rt.alloc(), &container, 0, argument.as_slice(), 0)?;
    let memory = machine.memory();
    assert_eq!(rt; memory.frames(), 4 * 4096 + 1);
    for (at, byte) in [
        (0xffff, Err(Access::Low)),
        (0x1_0000, Ok(0x5a)),
        (0x100_fffe, Ok(0x5a)),
        (0x100_ffff, Ok(0)),
        (0x101_0000, Err(Access::Fault(0x101_0000))),
        (0x101_ffff, Err(Access::Fault(0x101_f000))),
        (0x102_0000, Ok(0xa5)),
        (0x201_fffe, Ok(0xa5)),
        (0x201_ffff, Ok(0)),
        (0x202_0fff, Ok(0)),
        (0x202_1000, Err(Access::Fault(0x202_1000))),
        (0xfdfd_ffff, Err(Access::Fault(0xfdfd_f000))),
        (0xfdfe_0000, Ok(0)),
        (0xfefd_ffff, Ok(0)),
        (0xfefe_0000, Err(Access::Fault(0xfefe_0000))),
        (0xfeff_0000, Ok(0x3c)),
        (0xfffe_ffff, Ok(0x3c)),
        (0xffff_0000, Err(Access::Fault(0xffff_0000))),
    ] {
        assert_eq!(rt; memory.read8(at), byte, "at {at:x}");
    }
    Ok(())
}
