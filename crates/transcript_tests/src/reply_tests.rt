use crate::fixtures::short_replies;
use std::alloc::Global;
use std::test::*;
use transcript::ReplyFault;

/// Files, and how many replies they are or their first bad line.
const FILES: [(&str, Result<u32, u32>); 20] = [
    ("", Ok(0)),
    (
        "r7=1 r8=fFfFfFfFfFfFfFfF 10000:00Ff 0:aa ffffffff:01",
        Ok(1),
    ),
    ("r7=0 r8=zz", Err(1)),
    ("r7=1 r8=2\nr7=3 r8=4\n", Ok(2)),
    ("r7=1 r8=2\nr7=3 r8=4", Ok(2)),
    ("r7=1 r8=2\n\nr7=", Err(2)),
    ("\n", Err(1)),
    ("r7=1", Err(1)),
    ("r7=1  r8=2", Err(1)),
    ("r7=1 r8=2 ", Err(1)),
    ("r8=1 r7=2", Err(1)),
    ("r7= r8=0", Err(1)),
    ("r7=00000000000000000 r8=0", Err(1)),
    ("r7=0 r8=0\r\n", Err(1)),
    ("r7=1 r8=2 ffffffff:0102", Err(1)),
    ("r7=1 r8=2 10000:012", Err(1)),
    ("r7=1 r8=2 10000:", Err(1)),
    ("r7=1 r8=2 10000:00:00", Err(1)),
    ("r7=1 r8=2 :00", Err(1)),
    ("r7=1 r8=2 000010000:00", Err(1)),
];

#[test]
fn files_are_lists_of_replies(rt: HostRuntime) -> Result<(), Fail> {
    for (file, outcome) in FILES {
        assert_eq!(rt; count_or_line(rt.alloc(), file), outcome);
    }
    Ok(())
}

/// How many replies a file is, or its first bad line.
fn count_or_line(alloc: Global, file: &str) -> Result<u32, u32> {
    match short_replies(alloc, file) {
        Ok(replies) => Ok(replies.len()),
        Err(ReplyFault::BadLine(line)) => Err(line),
        Err(ReplyFault::Memory) => Err(0),
    }
}
