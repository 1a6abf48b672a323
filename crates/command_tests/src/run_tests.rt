//! Runs of whole programs: their output, byte for byte.

use crate::fixtures::*;
use polkatool_cmd::Status;
use std::alloc::{AllocError, Global};
use std::test::Fail;

/// A container with a stack of 65,536 bytes, whose program makes an output of the last 200 of them: its code is
/// `add_imm_64 a0, sp, -200`, `load_imm a1, 200` and `jump_ind ra, 0`.
const OF_LONG_OUTPUT: [u8; 30] = [
    0, 0, 0, 0, 0, 0, 0, 0, 0, 0, 1, 0x0f, 0, 0, 0, 0, 0x01, 0x0a, 0x95, 0x17, 0x38, 0xff, 0x33,
    0x08, 0xc8, 0, 0x32, 0, 0x11, 0x01,
];

/// A program whose code is `load_imm a0, 5` and, at position 3, `ecalli 8`.
const OF_A_CALL: &[u8; 9] = b"\x00\x01\x05\x33\x07\x05\x0a\x08\x09";

/// A program whose code is `load_imm a0, 5` and, at position 3, `sbrk a0, a0`. After it the code ends.
const OF_GROWTH: &[u8; 9] = b"\x00\x01\x05\x33\x07\x05\x65\x77\x09";

/// Whether these words run the program to the end with this transcript.
fn ends_with(
    alloc: Global,
    program: &[u8],
    line: &[&[u8]],
    status: Status,
    out: &[u8],
) -> Result<bool, AllocError> {
    let len = u8::try_from(program.len()).unwrap_or(u8::MAX);
    let blob = blob(alloc, len, program)?;
    runs_to(alloc, &blob, line, status, out, b"")
}

/// Whether the run of a blob is refused with this line.
fn is_refused(alloc: Global, blob: &[u8], line: &[u8]) -> Result<bool, AllocError> {
    runs_to(alloc, blob, &[b"run", b"b"], Status::Refused, b"", line)
}

/// Whether the run of a container whose program has this length and these bytes is refused with this line.
fn is_program_refused(
    alloc: Global,
    len: u8,
    program: &[u8],
    line: &[u8],
) -> Result<bool, AllocError> {
    is_refused(alloc, &blob(alloc, len, program)?, line)
}

/// Whether a run whose put of this number fails is a file fault that leaves these bytes.
fn fails_at(alloc: Global, put: u64, out: &[u8]) -> Result<bool, AllocError> {
    let blob = container(alloc)?;
    let mut outside = outside_of(alloc, &blob)?;
    outside.out.fail(put)?;
    let answer = run(alloc, &mut outside, &[b"run", b"b"])?;
    Ok(
        answer == Status::FileFault
            && outside.out.bytes() == out
            && outside.err.bytes() == FILE_FAULT.as_slice(),
    )
}

/// The transcript of a halt with a long output.
fn long_transcript(alloc: Global) -> Result<Vec<u8>, AllocError> {
    let mut text = Vec::from_slice(alloc, b"halt output=")?;
    for _ in 0..400 {
        text.push(b'0')?;
    }
    text.extend_from_slice(b"\ngas left=0\n")?;
    Ok(text)
}

/// What a link of an object and a run of the container leave on out.
fn linked_and_run(
    alloc: Global,
    object: &[u8],
    line: &[&[u8]],
    status: Status,
    out: &[u8],
) -> Result<bool, AllocError> {
    let mut outside = outside_with(alloc, object)?;
    let linked = run(alloc, &mut outside, &[b"link", b"-o", b"b", b"o"])?;
    let answer = run(alloc, &mut outside, line)?;
    Ok(linked == Status::Done && answer == status && outside.out.bytes() == out)
}

#[test]
fn runs_what_was_linked(rt: HostRuntime) -> Result<(), Fail> {
    let object = object(rt.alloc())?;
    let panics = object_of_one_word(rt.alloc())?;
    assert!(rt;
        linked_and_run(
            rt.alloc(),
            &object,
            &[b"run", b"--gas", b"3", b"b"],
            Status::Done,
            b"entry 0 00000005 main\nhalt output=\ngas left=0\n"
        )?
    );
    assert!(rt;
        linked_and_run(
            rt.alloc(),
            &object,
            &[b"run", b"--gas", b"2", b"b"],
            Status::OutOfGas,
            b"entry 0 00000005 main\nout-of-gas\ngas left=0\n"
        )?
    );
    assert!(rt;
        linked_and_run(
            rt.alloc(),
            &panics,
            &[b"run", b"b"],
            Status::Panicked,
            b"entry 0 00000005 main\npanic\ngas left=9999997\n"
        )?
    );
    Ok(())
}

#[test]
fn puts_a_long_output(rt: HostRuntime) -> Result<(), Fail> {
    let text = long_transcript(rt.alloc())?;
    assert!(rt;
        runs_to(
            rt.alloc(),
            &OF_LONG_OUTPUT,
            &[b"run", b"--gas", b"3", b"b"],
            Status::Done,
            &text,
            b""
        )?
    );
    Ok(())
}

#[test]
fn runs_each_entry(rt: HostRuntime) -> Result<(), Fail> {
    let lines: [(&[&[u8]], &[u8]); 5] = [
        (&[b"run", b"b"], b"halt output=\ngas left=9999997\n"),
        (
            &[b"run", b"--entry", b"0", b"b"],
            b"halt output=\ngas left=9999997\n",
        ),
        (
            &[b"run", b"b", b"--entry", b"1"],
            b"halt output=\ngas left=9999998\n",
        ),
        (
            &[b"run", b"--entry", b"1", b"b", b"--gas", b"2"],
            b"halt output=\ngas left=0\n",
        ),
        (
            &[b"run", b"--gas", b"2", b"--entry", b"1", b"b"],
            b"halt output=\ngas left=0\n",
        ),
    ];
    for (line, out) in lines {
        assert!(rt; ends_with(rt.alloc(), FIVE, line, Status::Done, out)?);
    }
    Ok(())
}

#[test]
fn refuses_other_entries(rt: HostRuntime) -> Result<(), Fail> {
    let five = container(rt.alloc())?;
    let entries: [&[u8]; 2] = [b"2", b"4294967295"];
    for entry in entries {
        assert!(rt;
            runs_to(
                rt.alloc(),
                &five,
                &[b"run", b"--entry", entry, b"b"],
                Status::Refused,
                b"",
                b"refused 47 BadEntry object=0 section=0 offset=0\n"
            )?
        );
    }
    Ok(())
}

#[test]
fn runs_out_of_gas_at_once(rt: HostRuntime) -> Result<(), Fail> {
    assert!(rt;
        ends_with(
            rt.alloc(),
            FIVE,
            &[b"run", b"b", b"--gas", b"0"],
            Status::OutOfGas,
            b"out-of-gas\ngas left=0\n"
        )?
    );
    Ok(())
}

/// A program with a jump table runs, and one that reaches an unknown opcode panics there.
#[test]
fn runs_other_programs(rt: HostRuntime) -> Result<(), Fail> {
    assert!(rt;
        ends_with(
            rt.alloc(),
            b"\x01\x01\x02\0\x32\0\x01",
            &[b"run", b"b"],
            Status::Done,
            b"halt output=\ngas left=9999999\n"
        )?
    );
    assert!(rt;
        ends_with(
            rt.alloc(),
            b"\x00\x01\x02\x01\x02\x03",
            &[b"run", b"b"],
            Status::Panicked,
            b"panic\ngas left=9999998\n"
        )?
    );
    Ok(())
}

#[test]
fn refuses_what_is_no_container(rt: HostRuntime) -> Result<(), Fail> {
    let rows: [(u8, &[u8], &[u8]); 5] = [
        (
            15,
            b"\x00\x01\x0a\x28\x05\0\0\0\x33\x07\x05\x32\0\x21",
            b"refused 40 Truncated object=0 section=0 offset=0\n",
        ),
        (
            16,
            b"\x00\x01\x80\x0a\x28\x05\0\0\0\x33\x07\x05\x32\0\x21\x01",
            b"refused 41 Overlong object=0 section=0 offset=0\n",
        ),
        (
            15,
            b"\x00\x09\x0a\x28\x05\0\0\0\x33\x07\x05\x32\0\x21\x01",
            b"refused 42 BadWidth object=0 section=0 offset=0\n",
        ),
        (
            15,
            b"\x00\x01\x0a\x28\x05\0\0\0\x33\x07\x05\x32\0\x21\x05",
            b"refused 43 BadPadding object=0 section=0 offset=0\n",
        ),
        (
            15,
            b"\x00\x01\x0a\x28\x05\0\0\0\x33\x07\x05\x32\0\x21\x01\0",
            b"refused 44 LeftOver object=0 section=0 offset=0\n",
        ),
    ];
    for (len, program, line) in rows {
        assert!(rt; is_program_refused(rt.alloc(), len, program, line)?);
    }
    Ok(())
}

/// The line of a call of `machine` with a length in a1.
const OF_MACHINE: [&[u8]; 2] = [
    b"call 8 00000000ffff0000 00000000fefe0000 0000000000000000 0000000000000000 0000000000000000 0000000000000000 0000000000000000 0000000000000005 0000000000000000 0000000000000000 0000000000000000 0000000000000000 0000000000000000\npanic\ngas left=7\n",
    b"call 8 00000000ffff0000 00000000fefe0000 0000000000000000 0000000000000000 0000000000000000 0000000000000000 0000000000000000 0000000000000005 0000000000000001 0000000000000000 0000000000000000 0000000000000000 0000000000000000\npanic\ngas left=8\n",
];

/// A call on inner machines is served after its line. No bytes are no program, so that the run goes on to its end; bytes
/// that can't be read make the call itself panic.
#[test]
fn serves_calls_on_inner_machines(rt: HostRuntime) -> Result<(), Fail> {
    let rows: [(&[u8], &[u8]); 2] = [(b"", OF_MACHINE[0]), (b"00", OF_MACHINE[1])];
    for (argument, out) in rows {
        let line: [&[u8]; 6] = [b"run", b"--gas", b"10", b"--arg", argument, b"b"];
        assert!(rt; ends_with(rt.alloc(), OF_A_CALL, &line, Status::Panicked, out)?);
    }
    Ok(())
}

#[test]
fn runs_what_makes_the_heap_grow(rt: HostRuntime) -> Result<(), Fail> {
    assert!(rt;
        ends_with(
            rt.alloc(),
            OF_GROWTH,
            &[b"run", b"--gas", b"10", b"b"],
            Status::Panicked,
            b"panic\ngas left=7\n"
        )?
    );
    Ok(())
}

#[test]
fn answers_failing_puts(rt: HostRuntime) -> Result<(), Fail> {
    assert!(rt; fails_at(rt.alloc(), 0, b"")?);
    assert!(rt; fails_at(rt.alloc(), 1, b"halt output=")?);
    assert!(rt; fails_at(rt.alloc(), 2, b"halt output=\n")?);
    Ok(())
}

#[test]
fn answers_a_missing_blob(rt: HostRuntime) -> Result<(), Fail> {
    assert!(rt;
        runs_to(
            rt.alloc(),
            b"",
            &[b"run", b"c"],
            Status::FileFault,
            b"",
            FILE_FAULT
        )?
    );
    Ok(())
}

#[test]
fn answers_faulty_numbers(rt: HostRuntime) -> Result<(), Fail> {
    let values: [&[u8]; 6] = [b"03", b"+3", b"", b"3 ", b"-1", b"18446744073709551616"];
    for value in values {
        assert!(rt; is_faulty(rt.alloc(), &[b"run", b"--gas", value, b"b"])?);
        assert!(rt; is_faulty(rt.alloc(), &[b"run", b"--entry", value, b"b"])?);
    }
    assert!(rt; is_faulty(rt.alloc(), &[b"run", b"--entry", b"4294967296", b"b"])?);
    Ok(())
}

#[test]
fn answers_faulty_runs(rt: HostRuntime) -> Result<(), Fail> {
    let lines: [&[&[u8]]; 15] = [
        &[b"run"],
        &[b"run", b""],
        &[b"run", b"\xff"],
        &[b"run", b"-b"],
        &[b"run", b"b", b"b"],
        &[b"run", b"b", b""],
        &[b"run", b"--gas", b"3"],
        &[b"run", b"--gas", b"b"],
        &[b"run", b"b", b"--gas"],
        &[b"run", b"b", b"--entry"],
        &[b"run", b"--gas", b"3", b"--gas", b"3", b"b"],
        &[b"run", b"--entry", b"0", b"b", b"--entry", b"0"],
        &[b"run", b"b", b"--replies"],
        &[b"run", b"b", b"--replies", b""],
        &[b"run", b"b", b"--replies", b"r", b"--replies", b"r"],
    ];
    for line in lines {
        assert!(rt; is_faulty(rt.alloc(), line)?);
    }
    Ok(())
}
