use blob_check::{CheckFault, check};
use blob_codec::Program;
use faults::{first_found, first_of_each, first_of_phases, none_at_each};
use std::test::*;

#[test]
fn the_first_fault_in_order_is_reported(rt: HostRuntime) -> Result<(), Fail> {
    first_of_phases();
    first_of_each();
    first_found();
    none_at_each();
    // A table with the entries 1 and 9, and fallthrough with what comes after it at position 1: an unknown opcode, of
    // an earlier phase than entry 1; load_imm, which leaves the end open; trap, so that the entry alone is at fault.
    for (opcode, want) in [
        (0xff, CheckFault::UnknownOpcode(1)),
        (0x33, CheckFault::OpenEnd(1)),
        (0, CheckFault::BadEntry(1)),
    ] {
        let bytes = [2, 1, 3, 1, 9, 1, opcode, 7, 3];
        let program = Program::read(&bytes)?;
        assert_eq!(rt; check(program).err(), Some(want), "at {opcode}");
    }
    let valid = [2, 1, 3, 1, 0, 1, 0, 7, 3];
    let checked = check(Program::read(&valid)?)?;
    assert_eq!(rt; checked.program().code().len(), 3);
    Ok(())
}
