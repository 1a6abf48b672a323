//! Checks and disassemblies of whole programs: their output, byte for byte.

use crate::fixtures::*;
use polkatool_cmd::Status;
use std::alloc::{AllocError, Global};
use std::test::Fail;

const CHECK: [&[u8]; 2] = [b"check", b"b"];

const DISASSEMBLE: [&[u8]; 2] = [b"disassemble", b"b"];

const FIVE_TEXT: &[u8; 110] = b"code 10 table 0 width 1\n00000000 2805000000 jump @5\n\
00000005 330705 load_imm r7 5\n00000008 3200 jump_ind r0 0\n";

/// Whether the arguments, with a container of this program, give the status and write these bytes to out and err.
fn answers(
    alloc: Global,
    program: &[u8],
    line: &[&[u8]],
    status: Status,
    out: &[u8],
    err: &[u8],
) -> Result<bool, AllocError> {
    let len = u8::try_from(program.len()).unwrap_or(u8::MAX);
    runs_to(alloc, &blob(alloc, len, program)?, line, status, out, err)
}

/// Whether a put that fails is a file fault that leaves out as it was.
fn fails(alloc: Global, line: &[&[u8]]) -> Result<bool, AllocError> {
    let mut outside = outside_of(alloc, &blob(alloc, 15, FIVE)?)?;
    outside.out.fail(0)?;
    let answer = run(alloc, &mut outside, line)?;
    Ok(
        answer == Status::FileFault
            && outside.out.bytes().is_empty()
            && outside.err.bytes() == FILE_FAULT.as_slice(),
    )
}

#[test]
fn checks_and_disassembles(rt: HostRuntime) -> Result<(), Fail> {
    let rows: [(&[&[u8]], &[u8]); 2] = [(&CHECK, b"ok\n"), (&DISASSEMBLE, FIVE_TEXT)];
    for (line, out) in rows {
        assert!(rt; answers(rt.alloc(), FIVE, line, Status::Done, out, b"")?);
        assert!(rt; fails(rt.alloc(), line)?);
    }
    Ok(())
}

/// Programs with each of a check's faults, and the line of each; all of them are disassembled.
#[test]
fn refuses_faulty_programs(rt: HostRuntime) -> Result<(), Fail> {
    let rows: [(&[u8], &[u8], &[u8]); 5] = [
        (
            b"\x00\x01\x00",
            b"refused 50 NoFirst object=0 section=0 offset=0\n",
            b"code 0 table 0 width 1\n",
        ),
        (
            b"\x00\x01\x03\x01\xff\x00\x07",
            b"refused 51 UnknownOpcode object=0 section=0 offset=1\n",
            b"code 3 table 0 width 1\n00000000 01 fallthrough\n00000001 ff unknown\n00000002 00 trap\n",
        ),
        (
            b"\x00\x01\x02\x28\x01\x01",
            b"refused 52 BadTarget object=0 section=0 offset=0\n",
            b"code 2 table 0 width 1\n00000000 2801 jump @1\n",
        ),
        (
            b"\x01\x01\x01\x05\x00\x01",
            b"refused 53 BadEntry object=0 section=0 offset=0\n",
            b"code 1 table 1 width 1\n00000000 00 trap\ntable 0 5\n",
        ),
        (
            b"\x00\x01\x02\x33\x07\x01",
            b"refused 54 OpenEnd object=0 section=0 offset=0\n",
            b"code 2 table 0 width 1\n00000000 3307 load_imm r7 0\n",
        ),
    ];
    for (program, refusal, text) in rows {
        assert!(rt; answers(rt.alloc(), program, &CHECK, Status::Refused, b"", refusal)?);
        assert!(rt; answers(rt.alloc(), program, &DISASSEMBLE, Status::Done, text, b"")?);
    }
    Ok(())
}

#[test]
fn refuses_what_is_no_container(rt: HostRuntime) -> Result<(), Fail> {
    let rows: [(u8, &[u8], &[u8]); 5] = [
        (
            7,
            b"\x00\x01\x02\x33\x07\x01",
            b"refused 40 Truncated object=0 section=0 offset=0\n",
        ),
        (
            7,
            b"\x00\x01\x80\x02\x33\x07\x01",
            b"refused 41 Overlong object=0 section=0 offset=0\n",
        ),
        (
            6,
            b"\x00\x09\x02\x33\x07\x01",
            b"refused 42 BadWidth object=0 section=0 offset=0\n",
        ),
        (
            6,
            b"\x00\x01\x02\x33\x07\x05",
            b"refused 43 BadPadding object=0 section=0 offset=0\n",
        ),
        (
            6,
            b"\x00\x01\x02\x33\x07\x01\x00",
            b"refused 44 LeftOver object=0 section=0 offset=0\n",
        ),
    ];
    for (len, program, refusal) in rows {
        let blob = blob(rt.alloc(), len, program)?;
        for line in [&CHECK, &DISASSEMBLE] {
            assert!(rt; runs_to(rt.alloc(), &blob, line, Status::Refused, b"", refusal)?);
        }
    }
    Ok(())
}

/// A container with data and a call on inner machines is checked and disassembled.
#[test]
fn takes_data_and_every_opcode(rt: HostRuntime) -> Result<(), Fail> {
    let blob = &OF_READ_ONLY_DATA;
    let refusal = b"refused 54 OpenEnd object=0 section=0 offset=3\n";
    let text = b"code 5 table 0 width 1\n00000000 330705 load_imm r7 5\n00000003 0a08 ecalli 8\n";
    assert!(rt; runs_to(rt.alloc(), blob, &CHECK, Status::Refused, b"", refusal)?);
    assert!(rt; runs_to(rt.alloc(), blob, &DISASSEMBLE, Status::Done, text, b"")?);
    Ok(())
}

#[test]
fn answers_faulty_words(rt: HostRuntime) -> Result<(), Fail> {
    let verbs: [&[u8]; 2] = [b"check", b"disassemble"];
    for verb in verbs {
        let missing: [&[u8]; 2] = [verb, b"c"];
        assert!(rt;
            runs_to(
                rt.alloc(),
                b"",
                &missing,
                Status::FileFault,
                b"",
                FILE_FAULT
            )?
        );
        let lines: [&[&[u8]]; 7] = [
            &[verb],
            &[verb, b""],
            &[verb, b"\xff"],
            &[verb, b"-b"],
            &[verb, b"--"],
            &[verb, b"b", b"b"],
            &[verb, b"--entry", b"0", b"b"],
        ];
        for line in lines {
            assert!(rt; is_faulty(rt.alloc(), line)?);
        }
    }
    Ok(())
}
