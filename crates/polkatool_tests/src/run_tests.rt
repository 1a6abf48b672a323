use crate::fixtures::returning_five;
use blob_codec::Container;
use pvm_machine::{Exit, Machine};
use runs::{
    block_is_implemented, blocks_begin_at_marks, code_agrees, end_stays, gas_is_counted,
    groups_begin, jumps_keep_their_entry, lockstep_runs_the_same, run_is_step_by_step,
    simulation_agrees, world_is_cut, world_is_in_lockstep,
};
use std::test::*;

#[test]
fn each_instruction_costs_one(rt: HostRuntime) -> Result<(), Fail> {
    gas_is_counted();
    run_is_step_by_step();
    let bytes = returning_five();
    let container = Container::read(&bytes)?;
    let mut machine = Machine::start(rt.alloc(), &container, 0, &[], 10)?;
    for left in [9, 8, 7] {
        let _answer = machine.step();
        assert_eq!(rt; machine.gas(), left);
    }
    let mut whole = Machine::start(rt.alloc(), &container, 0, &[], 10)?;
    assert_eq!(rt; whole.run(), Exit::Halt);
    assert_eq!(rt; whole.gas(), 7);
    Ok(())
}

/// These laws speak of machines that are no values of the program, so that nothing of them is seen where a program
/// runs: the test shows that they can be called.
#[test]
fn laws_of_all_machines_are_there() {
    end_stays();
    simulation_agrees();
    lockstep_runs_the_same();
    block_is_implemented();
    code_agrees();
    jumps_keep_their_entry();
    blocks_begin_at_marks();
    groups_begin();
    world_is_in_lockstep();
    world_is_cut();
}
