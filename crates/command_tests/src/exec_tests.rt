//! Execs: objects are linked and run in one command.

use crate::fixtures::{Outside, run};
use outside::{MemoryFolder, MemorySink};
use polkatool_cmd::Status;
use std::alloc::{AllocError, Global};
use std::test::Fail;

/// An object with the text `addi a0, x0, 0`, `auipc t1, 0` and `jalr x0, 0(t1)`, where a CALL_PLT at the second names the
/// undefined symbol `ask`.
const ASKING: &[u8; 616] = &[
    0x7f, 0x45, 0x4c, 0x46, 0x02, 0x01, 0x01, 0, 0, 0, 0, 0, 0, 0, 0, 0, 0x01, 0, 0xf3, 0, 0x01, 0,
    0, 0, 0, 0, 0, 0, 0, 0, 0, 0, 0, 0, 0, 0, 0, 0, 0, 0, 0xe8, 0, 0, 0, 0, 0, 0, 0, 0x08, 0, 0, 0,
    0x40, 0, 0, 0, 0, 0, 0x40, 0, 0x06, 0, 0x05, 0, 0x13, 0x05, 0, 0, 0x17, 0x03, 0, 0, 0x67, 0,
    0x03, 0, 0, 0, 0, 0, 0x04, 0, 0, 0, 0, 0, 0, 0, 0x13, 0, 0, 0, 0x02, 0, 0, 0, 0, 0, 0, 0, 0, 0,
    0, 0, 0, 0, 0, 0, 0, 0, 0, 0, 0, 0, 0, 0, 0, 0, 0, 0, 0, 0, 0, 0, 0, 0, 0, 0, 0x01, 0, 0, 0,
    0x12, 0, 0x01, 0, 0, 0, 0, 0, 0, 0, 0, 0, 0, 0, 0, 0, 0, 0, 0, 0, 0x06, 0, 0, 0, 0x10, 0, 0, 0,
    0, 0, 0, 0, 0, 0, 0, 0, 0, 0, 0, 0, 0, 0, 0, 0, 0, 0x6d, 0x61, 0x69, 0x6e, 0, 0x61, 0x73, 0x6b,
    0, 0, 0x2e, 0x74, 0x65, 0x78, 0x74, 0, 0x2e, 0x72, 0x65, 0x6c, 0x61, 0x2e, 0x74, 0x65, 0x78,
    0x74, 0, 0x2e, 0x73, 0x79, 0x6d, 0x74, 0x61, 0x62, 0, 0x2e, 0x73, 0x74, 0x72, 0x74, 0x61, 0x62,
    0, 0x2e, 0x73, 0x68, 0x73, 0x74, 0x72, 0x74, 0x61, 0x62, 0, 0, 0, 0, 0, 0, 0, 0, 0, 0, 0, 0, 0,
    0, 0, 0, 0, 0, 0, 0, 0, 0, 0, 0, 0, 0, 0, 0, 0, 0, 0, 0, 0, 0, 0, 0, 0, 0, 0, 0, 0, 0, 0, 0, 0,
    0, 0, 0, 0, 0, 0, 0, 0, 0, 0, 0, 0, 0, 0, 0, 0, 0, 0, 0, 0, 0, 0, 0x01, 0, 0, 0, 0x01, 0, 0, 0,
    0x06, 0, 0, 0, 0, 0, 0, 0, 0, 0, 0, 0, 0, 0, 0, 0, 0x40, 0, 0, 0, 0, 0, 0, 0, 0x0c, 0, 0, 0, 0,
    0, 0, 0, 0, 0, 0, 0, 0, 0, 0, 0, 0x04, 0, 0, 0, 0, 0, 0, 0, 0, 0, 0, 0, 0, 0, 0, 0, 0x07, 0, 0,
    0, 0x04, 0, 0, 0, 0x40, 0, 0, 0, 0, 0, 0, 0, 0, 0, 0, 0, 0, 0, 0, 0, 0x50, 0, 0, 0, 0, 0, 0, 0,
    0x18, 0, 0, 0, 0, 0, 0, 0, 0x03, 0, 0, 0, 0x01, 0, 0, 0, 0x08, 0, 0, 0, 0, 0, 0, 0, 0x18, 0, 0,
    0, 0, 0, 0, 0, 0x12, 0, 0, 0, 0x02, 0, 0, 0, 0, 0, 0, 0, 0, 0, 0, 0, 0, 0, 0, 0, 0, 0, 0, 0,
    0x68, 0, 0, 0, 0, 0, 0, 0, 0x48, 0, 0, 0, 0, 0, 0, 0, 0x04, 0, 0, 0, 0x01, 0, 0, 0, 0x08, 0, 0,
    0, 0, 0, 0, 0, 0x18, 0, 0, 0, 0, 0, 0, 0, 0x1a, 0, 0, 0, 0x03, 0, 0, 0, 0, 0, 0, 0, 0, 0, 0, 0,
    0, 0, 0, 0, 0, 0, 0, 0, 0xb0, 0, 0, 0, 0, 0, 0, 0, 0x0a, 0, 0, 0, 0, 0, 0, 0, 0, 0, 0, 0, 0, 0,
    0, 0, 0x01, 0, 0, 0, 0, 0, 0, 0, 0, 0, 0, 0, 0, 0, 0, 0, 0x22, 0, 0, 0, 0x03, 0, 0, 0, 0, 0, 0,
    0, 0, 0, 0, 0, 0, 0, 0, 0, 0, 0, 0, 0, 0xba, 0, 0, 0, 0, 0, 0, 0, 0x2c, 0, 0, 0, 0, 0, 0, 0, 0,
    0, 0, 0, 0, 0, 0, 0, 0x01, 0, 0, 0, 0, 0, 0, 0, 0, 0, 0, 0, 0, 0, 0, 0,
];

/// The arguments after `exec`, the file of replies, the status, and how out and err end.
const EXECS: [(&[&[u8]], &[u8], Status, &[u8], &[u8]); 8] = [
    (
        &[b"o", b"-i", b"ask=7"],
        b"",
        Status::Unanswered,
        b"\nunanswered call=7\ngas left=9999996\n",
        b"",
    ),
    (
        &[b"--replies", b"r", b"-i", b"ask=7", b"o"],
        b"r7=fefd0000 r8=1 fefd0000:2a\n",
        Status::Done,
        b"\nhalt output=2a\ngas left=9999995\n",
        b"",
    ),
    (
        &[b"o", b"-i", b"ask=sbrk", b"--gas", b"9"],
        b"",
        Status::Done,
        b"halt output=\ngas left=4\n",
        b"",
    ),
    (
        &[b"o", b"-i", b"ask=sbrk", b"--entry", b"7"],
        b"",
        Status::Refused,
        b"",
        b"refused 47 BadEntry object=0 section=0 offset=0\n",
    ),
    (
        &[b"o"],
        b"",
        Status::Refused,
        b"",
        b"refused 11 Undefined object=0 section=3 offset=2\n",
    ),
    (
        &[b"o", b"-i", b"ask=9"],
        b"",
        Status::Done,
        b"\nhalt output=\ngas left=9999995\n",
        b"",
    ),
    (
        &[b"--replies", b"r", b"o", b"-i", b"ask=12"],
        b"r7=0 r8=0\n",
        Status::Panicked,
        b"\npanic\ngas left=9999996\n",
        b"",
    ),
    (
        &[b"o", b"-o", b"b"],
        b"",
        Status::Usage,
        b"",
        b"polkatool: bad command line\n",
    ),
];

#[test]
fn links_and_runs(rt: HostRuntime) -> Result<(), Fail> {
    for (words, replies, status, out, err) in EXECS {
        assert!(rt; ends_so(rt.alloc(), words, replies, status, out, err)?);
    }
    Ok(())
}

/// Whether an exec with these arguments gives the status, with these ends of out and err.
fn ends_so(
    alloc: Global,
    words: &[&[u8]],
    replies: &[u8],
    status: Status,
    out: &[u8],
    err: &[u8],
) -> Result<bool, AllocError> {
    let mut files = MemoryFolder::new(alloc);
    files.add("o", ASKING)?;
    files.add("r", replies)?;
    let mut outside = Outside {
        files,
        out: MemorySink::new(alloc, 1000)?,
        err: MemorySink::new(alloc, 100)?,
    };
    let mut line = Vec::new(alloc);
    line.push(b"exec".as_slice())?;
    line.extend_from_slice(words)?;
    let answer = run(alloc, &mut outside, &line)?;
    Ok(answer == status && outside.out.bytes().ends_with(out) && outside.err.bytes().ends_with(err))
}
