use crate::fixtures::returning_five;
use blob_codec::Container;
use pvm_machine::{Machine, Step, effects_keep_targets, operations_have_forms, steps_are_turns};
use pvm_ops::{Form, fetch, form};
use std::test::*;

#[test]
fn steps_do_the_instructions_in_turn(rt: HostRuntime) -> Result<(), Fail> {
    steps_are_turns();
    operations_have_forms();
    effects_keep_targets();
    let bytes = returning_five();
    let container = Container::read(&bytes)?;
    let code = container.program().code();
    let mut machine = Machine::start(rt.alloc(), &container, 0, &[], 3)?;
    for (at, shape, answer) in [
        (0, Form::O, Step::Next),
        (5, Form::RX, Step::Next),
        (8, Form::RX, Step::Halt),
    ] {
        assert_eq!(rt; machine.counter(), at);
        assert_eq!(rt; form(fetch(&code, at).instr.op), shape, "at {at}");
        assert_eq!(rt; machine.step(), answer, "at {at}");
    }
    assert_eq!(rt; (machine.register(7), machine.register(8)), (5, 0));
    Ok(())
}
