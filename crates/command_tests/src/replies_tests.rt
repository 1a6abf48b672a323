//! Runs with a file of replies.

use crate::fixtures::{Outside, run};
use outside::{MemoryFolder, MemorySink};
use polkatool_cmd::Status;
use std::alloc::{AllocError, Global};
use std::test::Fail;

/// A container with a stack of 65,536 bytes, whose program is `jump 5`, `ecalli 7` and `jump_ind ra, 0`.
const OF_A_HOST_CALL: &[u8; 29] =
    b"\0\0\0\0\0\0\0\0\0\0\x01\x0e\0\0\0\x00\x01\x09\x28\x05\0\0\0\x0a\x07\x32\0\xa1\0";

/// The name of a file of replies, its content under `r`, the status of the run, and how out and err end.
const RUNS: [(&[u8], &[u8], Status, &[u8], &[u8]); 5] = [
    (
        b"r",
        b"",
        Status::Unanswered,
        b"\nunanswered call=7\ngas left=9999998\n",
        b"",
    ),
    (
        b"r",
        b"r7=fefd0000 r8=3 fefd0000:68690A\n",
        Status::Done,
        b"\nhalt output=68690a\ngas left=9999997\n",
        b"",
    ),
    (
        b"r",
        b"r7=0 r8=0 10000:00",
        Status::BadReply,
        b"\nbad-reply line=1 address=00010000\ngas left=9999998\n",
        b"",
    ),
    (
        b"r",
        b"r7=0 r8=0\nr7=0 r8=zz",
        Status::Refused,
        b"",
        b"refused 60 BadReplyLine object=0 section=0 offset=2\n",
    ),
    (
        b"-s",
        b"",
        Status::FileFault,
        b"",
        b"polkatool: file fault\n",
    ),
];

#[test]
fn answers_calls_by_replies(rt: HostRuntime) -> Result<(), Fail> {
    for (name, replies, status, out, err) in RUNS {
        assert!(rt; ends_so(rt.alloc(), name, replies, status, out, err)?);
    }
    Ok(())
}

/// Whether a run with these replies gives the status, with these ends of out and err.
fn ends_so(
    alloc: Global,
    name: &[u8],
    replies: &[u8],
    status: Status,
    out: &[u8],
    err: &[u8],
) -> Result<bool, AllocError> {
    let mut files = MemoryFolder::new(alloc);
    files.add("b", OF_A_HOST_CALL)?;
    files.add("r", replies)?;
    let mut outside = Outside {
        files,
        out: MemorySink::new(alloc, 1000)?,
        err: MemorySink::new(alloc, 100)?,
    };
    let answer = run(alloc, &mut outside, &[b"run", b"b", b"--replies", name])?;
    Ok(answer == status && outside.out.bytes().ends_with(out) && outside.err.bytes().ends_with(err))
}
