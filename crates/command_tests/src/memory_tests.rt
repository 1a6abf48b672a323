//! Runs with arguments, data, loads and stores: their output, byte for byte.

use crate::fixtures::*;
use outside::MemorySink;
use polkatool_cmd::Status;
use std::alloc::{AllocError, Global};
use std::test::Fail;

/// A program whose output is its argument: its code is `jump_ind ra, 0`.
const ECHO: &[u8; 6] = b"\x00\x01\x02\x32\0\x01";

/// A program whose output is the last 8,192 bytes of the stack, and whose first byte is that of the argument: its code is
/// `load_ind_u8 a2, a0, 0`, `store_ind_u8 a2, sp, -8192`, `add_imm_64 a0, sp, -8192`, `load_imm a1, 8192` and
/// `jump_ind ra, 0`.
const STORES: [u8; 21] = [
    0, 0x01, 0x10, 0x7c, 0x79, 0x78, 0x19, 0, 0xe0, 0x95, 0x17, 0, 0xe0, 0x33, 0x08, 0, 0x20, 0x32,
    0, 0x45, 0x44,
];

/// A program whose code is `load_ind_u8 a0, a0, 0` and `jump_ind ra, 0`.
const LOADS: &[u8; 8] = b"\x00\x01\x04\x7c\x77\x32\0\x05";

/// A container with a byte of read-only data, whose program makes an output of it: its code is `load_imm a0, 65536`,
/// `load_imm a1, 1` and `jump_ind ra, 0`.
const OF_DATA: [u8; 31] = [
    1, 0, 0, 0, 0, 0, 0, 0, 0, 0, 1, 0x2a, 0x0f, 0, 0, 0, 0, 0x01, 0x0a, 0x33, 0x07, 0, 0, 0x01,
    0x33, 0x08, 0x01, 0x32, 0, 0x21, 0x01,
];

/// Whether a program, run with these words, ends so and with this transcript, which may be long.
fn ends_with(
    alloc: Global,
    program: &[u8],
    line: &[&[u8]],
    status: Status,
    out: &[u8],
) -> Result<bool, AllocError> {
    let len = u8::try_from(program.len()).unwrap_or(u8::MAX);
    let mut outside = outside_of(alloc, &blob(alloc, len, program)?)?;
    outside.out = MemorySink::new(alloc, 20_000)?;
    let answer = run(alloc, &mut outside, line)?;
    Ok(answer == status && outside.out.bytes() == out && outside.err.bytes().is_empty())
}

/// The transcript of a halt with the output that these digits spell, followed by `zeros` zero bytes.
fn transcript(
    alloc: Global,
    digits: &[u8],
    zeros: usize,
    gas: &[u8],
) -> Result<Vec<u8>, AllocError> {
    let mut text = Vec::from_slice(alloc, b"halt output=")?;
    text.extend_from_slice(digits)?;
    for _ in 0..zeros {
        text.extend_from_slice(b"00")?;
    }
    text.extend_from_slice(b"\ngas left=")?;
    text.extend_from_slice(gas)?;
    text.push(b'\n')?;
    Ok(text)
}

/// The digits of the first `count` numbers, in sixteen bits each.
fn digits_of_numbers(alloc: Global, count: u16) -> Result<Vec<u8>, AllocError> {
    let mut digits = Vec::new(alloc);
    for number in 0..count {
        for byte in number.to_be_bytes() {
            digits.push(b"0123456789abcdef"[(byte / 16) as usize])?;
            digits.push(b"0123456789abcdef"[(byte % 16) as usize])?;
        }
    }
    Ok(digits)
}

#[test]
fn passes_the_argument_on(rt: HostRuntime) -> Result<(), Fail> {
    let rows: [(&[u8], &[u8]); 3] = [
        (b"", b"halt output=\ngas left=9999999\n"),
        (b"68690a", b"halt output=68690a\ngas left=9999999\n"),
        (b"4Fab", b"halt output=4fab\ngas left=9999999\n"),
    ];
    for (argument, out) in rows {
        let line: [&[u8]; 4] = [b"run", b"--arg", argument, b"b"];
        assert!(rt; ends_with(rt.alloc(), ECHO, &line, Status::Done, out)?);
    }
    Ok(())
}

#[test]
fn puts_an_output_of_several_pages(rt: HostRuntime) -> Result<(), Fail> {
    let digits = digits_of_numbers(rt.alloc(), 4500)?;
    let line: [&[u8]; 6] = [b"run", b"b", b"--gas", b"1", b"--arg", &digits];
    let text = transcript(rt.alloc(), &digits, 0, b"0")?;
    assert!(rt; ends_with(rt.alloc(), ECHO, &line, Status::Done, &text)?);
    Ok(())
}

#[test]
fn loads_and_stores(rt: HostRuntime) -> Result<(), Fail> {
    let line: [&[u8]; 6] = [b"run", b"--arg", b"aB01", b"--gas", b"5", b"b"];
    let text = transcript(rt.alloc(), b"ab", 8191, b"0")?;
    assert!(rt; ends_with(rt.alloc(), &STORES, &line, Status::Done, &text)?);
    Ok(())
}

#[test]
fn starts_with_data(rt: HostRuntime) -> Result<(), Fail> {
    assert!(rt;
        runs_to(
            rt.alloc(),
            &OF_DATA,
            &[b"run", b"b"],
            Status::Done,
            b"halt output=2a\ngas left=9999997\n",
            b""
        )?
    );
    Ok(())
}

/// Without an argument there is no page where it would begin.
#[test]
fn reports_page_faults(rt: HostRuntime) -> Result<(), Fail> {
    assert!(rt;
        ends_with(
            rt.alloc(),
            LOADS,
            &[b"run", b"b"],
            Status::Faulted,
            b"fault address=feff0000\ngas left=9999999\n"
        )?
    );
    assert_eq!(rt; Status::Faulted.number(), 5);
    Ok(())
}

#[test]
fn answers_faulty_arguments(rt: HostRuntime) -> Result<(), Fail> {
    let lines: [&[&[u8]]; 7] = [
        &[b"run", b"b", b"--arg"],
        &[b"run", b"--arg", b"0", b"b"],
        &[b"run", b"--arg", b"abc", b"b"],
        &[b"run", b"--arg", b"0g", b"b"],
        &[b"run", b"--arg", b"0x00", b"b"],
        &[b"run", b"--arg", b"-0", b"b"],
        &[b"run", b"--arg", b"", b"--arg", b"", b"b"],
    ];
    for line in lines {
        assert!(rt; is_faulty(rt.alloc(), line)?);
    }
    Ok(())
}
