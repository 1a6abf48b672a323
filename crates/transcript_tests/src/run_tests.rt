use crate::fixtures::short_replies;
use blob_codec::Container;
use outside::MemorySink;
use pvm_machine::Machine;
use std::alloc::Global;
use std::process::Abort;
use std::test::*;
use transcript::{RunEnd, write_run};

/// A container with a stack of 2^16 bytes, whose code is `jump 5`, `ecalli 7` and `jump_ind ra, 0`.
const CALLS: [u8; 29] = [
    0x00, 0x00, 0x00, 0x00, 0x00, 0x00, 0x00, 0x00, 0x00, 0x00, 0x01, 0x0e, 0x00, 0x00, 0x00, 0x00,
    0x01, 0x09, 0x28, 0x05, 0x00, 0x00, 0x00, 0x0a, 0x07, 0x32, 0x00, 0xa1, 0x00,
];

/// The line of its call.
const CALL: &str =
    "call 7 00000000ffff0000 00000000fefe0000 0000000000000000 0000000000000000 0000000000000000 0000000000000000 0000000000000000 00000000feff0000 0000000000000000 0000000000000000 0000000000000000 0000000000000000 0000000000000000\n";

/// Gas, replies, the end of the run, and the text after the line of the call.
const RUNS: [(u64, &str, RunEnd, &str); 4] = [
    (
        10,
        "",
        RunEnd::Unanswered(7),
        "unanswered call=7\ngas left=8\n",
    ),
    (
        10,
        "r7=fefd0000 r8=3 fefd0000:68690a\n",
        RunEnd::Halt,
        "halt output=68690a\ngas left=7\n",
    ),
    (
        10,
        "r7=1 r8=2 fefd0000:00 fefdffff:6869",
        RunEnd::BadReply {
            line: 1,
            address: 0xfefe_0000,
        },
        "bad-reply line=1 address=fefe0000\ngas left=8\n",
    ),
    (2, "r7=0 r8=0", RunEnd::OutOfGas, "out-of-gas\ngas left=0\n"),
];

#[test]
fn calls_are_answered_and_written(rt: HostRuntime) -> Result<(), Fail> {
    for (gas, file, end, text) in RUNS {
        run_one(&rt, rt.alloc(), gas, file, end, text)?;
    }
    Ok(())
}

/// Runs the program with replies, and compares its end and its transcript.
fn run_one(
    rt: &impl Abort,
    alloc: Global,
    gas: u64,
    file: &str,
    end: RunEnd,
    text: &str,
) -> Result<(), Fail> {
    let container = Container::read(&CALLS)?;
    let mut machine = Machine::start(alloc, &container, 0, &[], gas)?;
    let mut out = MemorySink::new(alloc, 400)?;
    let replies = short_replies(alloc, file)?;
    assert_eq!(rt; write_run(alloc, &mut machine, &replies, &mut out), Ok(end));
    assert!(rt; out.bytes().starts_with(CALL.as_bytes()));
    assert!(rt; out.bytes().ends_with(text.as_bytes()));
    assert_eq!(rt; out.bytes().len(), CALL.len() + text.len());
    Ok(())
}

/// A container with a stack of 2^16 bytes, whose code is `jump 5`, `ecalli 13`, `ecalli 7` and `jump_ind ra, 0`.
const CALLS_TWICE: [u8; 31] = [
    0x00, 0x00, 0x00, 0x00, 0x00, 0x00, 0x00, 0x00, 0x00, 0x00, 0x01, 0x10, 0x00, 0x00, 0x00, 0x00,
    0x01, 0x0b, 0x28, 0x05, 0x00, 0x00, 0x00, 0x0a, 0x0d, 0x0a, 0x07, 0x32, 0x00, 0xa1, 0x02,
];

/// A call on inner machines leaves the replies to the others. There is no machine, so its result is that of no such number.
#[test]
fn inner_machines_answer_before_replies(rt: HostRuntime) -> Result<(), Fail> {
    let container = Container::read(&CALLS_TWICE)?;
    let mut machine = Machine::start(rt.alloc(), &container, 0, &[], 10)?;
    let mut out = MemorySink::new(rt.alloc(), 1000)?;
    let replies = short_replies(rt.alloc(), "r7=0 r8=0\n")?;
    assert_eq!(rt;
        write_run(rt.alloc(), &mut machine, &replies, &mut out),
        Ok(RunEnd::Halt)
    );
    let lines =
        "call 13 00000000ffff0000 00000000fefe0000 0000000000000000 0000000000000000 0000000000000000 0000000000000000 0000000000000000 00000000feff0000 0000000000000000 0000000000000000 0000000000000000 0000000000000000 0000000000000000\ncall 7 00000000ffff0000 00000000fefe0000 0000000000000000 0000000000000000 0000000000000000 0000000000000000 0000000000000000 fffffffffffffffc 0000000000000000 0000000000000000 0000000000000000 0000000000000000 0000000000000000\nhalt output=\ngas left=6\n";
    assert_eq!(rt; out.bytes(), lines.as_bytes());
    Ok(())
}
