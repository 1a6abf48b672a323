//! The command `gen`: its arguments, and the lines that it prints.

use crate::fixtures::*;
use outside::MemorySink;
use polkatool_cmd::Status;
use std::alloc::{AllocError, Global};
use std::test::Fail;

/// The line of seed 0 and count 1, whose word is `divu a5, a3, a5`.
const OF_SEED_0: &[u8] =
    b"gen seed=0 count=1 code=10 gas=3 end=halt a2=0000000000000000 a3=0000000000000000 a4=0000000000000000 a5=ffffffffffffffff\n";

/// Whether arguments write a line, and nothing else.
fn prints(alloc: Global, line: &[&[u8]], out: &[u8]) -> Result<bool, AllocError> {
    runs_to(alloc, &CONTAINER, line, Status::Done, out, b"")
}

#[test]
fn prints_the_line_of_a_run(rt: HostRuntime) -> Result<(), Fail> {
    let rows: [(&[u8], &[u8], &[u8]); 6] = [
        (b"0", b"1", OF_SEED_0),
        (
            b"1",
            b"1",
            b"gen seed=1 count=1 code=10 gas=3 end=halt a2=0000000000000000 a3=0000000000000000 a4=0000000000000000 a5=0000000000000000\n",
        ),
        (
            b"0",
            b"2",
            b"gen seed=0 count=2 code=14 gas=4 end=halt a2=0000000000000000 a3=000000000000023b a4=0000000000000000 a5=ffffffffffffffff\n",
        ),
        (
            b"0",
            b"218",
            b"gen seed=0 count=218 code=686 gas=220 end=halt a2=ffffffffff305a2c a3=ffffffffff304a86 a4=fffffffffe609ac8 a5=ffffffffff305042\n",
        ),
        (
            b"0",
            b"260",
            b"gen seed=0 count=260 code=819 gas=262 end=halt a2=0000000000000000 a3=000000000000ffff a4=ffffffffffff0f26 a5=00000000000400fa\n",
        ),
        (
            b"17249671260122981579",
            b"128",
            b"gen seed=17249671260122981579 count=128 code=402 gas=130 end=halt a2=0000000000000000 a3=0000000000000000 a4=0000000000000000 a5=0000000000000000\n",
        ),
    ];
    for (seed, count, out) in rows {
        assert!(rt; prints(rt.alloc(), &[b"gen", seed, count], out)?);
    }
    Ok(())
}

#[test]
fn refuses_other_numbers(rt: HostRuntime) -> Result<(), Fail> {
    let lines: [&[&[u8]]; 14] = [
        &[b"gen"],
        &[b"gen", b"1"],
        &[b"gen", b"1", b"1", b"1"],
        &[b"gen", b"1", b"0"],
        &[b"gen", b"1", b"1000001"],
        &[b"gen", b"1", b"4294967297"],
        &[b"gen", b"18446744073709551616", b"1"],
        &[b"gen", b"01", b"1"],
        &[b"gen", b"1", b"01"],
        &[b"gen", b"-1", b"1"],
        &[b"gen", b"1", b"+1"],
        &[b"gen", b"", b"1"],
        &[b"gen", b"1", b"a"],
        &[b"gen", b"--gas", b"1"],
    ];
    for line in lines {
        assert!(rt; is_faulty(rt.alloc(), line)?);
    }
    Ok(())
}

/// Standard output has room for less than the line.
#[test]
fn reports_a_failed_put(rt: HostRuntime) -> Result<(), Fail> {
    let mut outside = outside_of(rt.alloc(), b"")?;
    outside.out = MemorySink::new(rt.alloc(), 20)?;
    let answer = run(rt.alloc(), &mut outside, &[b"gen", b"0", b"1"])?;
    assert_eq!(rt; answer, Status::FileFault);
    assert!(rt; OF_SEED_0.starts_with(outside.out.bytes()));
    assert_eq!(rt; outside.err.bytes(), FILE_FAULT.as_slice());
    Ok(())
}
