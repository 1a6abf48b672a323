//! Runs of the examples, with the replies and transcripts beside them.

use crate::objects::{DIGEST, LOOKUP, PRIMES, SANDBOX};
use outside::{MemoryFolder, MemorySink};
use polkatool_cmd::{Status, Words, polkatool};
use std::alloc::{AllocError, Global};
use std::test::Fail;

/// A service of `examples/`.
#[derive(Clone, Copy)]
enum Service {
    Digest,
    Lookup,
    Primes,
    Sandbox,
}

/// The service, the arguments after `exec o`, the file of replies, and the transcript. Each halts.
const RUNS: [(Service, &[&[u8]], &[u8], &[u8]); 6] = [
    (
        Service::Digest,
        &[b"--arg", b"616263"],
        b"",
        b"halt output=ba7816bf8f01cfea414140de5dae2223b00361a396177a9cb410ff61f20015ad\ngas left=9994172\n",
    ),
    (
        Service::Lookup,
        LOOKS,
        b"r7=5 r8=0 30000:68656c6c6f\n",
        FOUND,
    ),
    (
        Service::Lookup,
        LOOKS,
        b"r7=ffffffffffffffff r8=0\nr7=0 r8=0\n",
        ABSENT,
    ),
    (
        Service::Primes,
        &[b"-i", b"more_heap=sbrk", b"--arg", b"1e00"],
        b"",
        b"halt output=02000300050007000b000d001100130017001d00\ngas left=9999547\n",
    ),
    (Service::Sandbox, OF_27, b"", HALTS),
    (Service::Sandbox, OF_0, b"", ENDLESS),
];

/// The run of a program that halts.
const OF_27: &[&[u8]; 8] = &[
    b"-i",
    b"machine=8",
    b"-i",
    b"invoke=12",
    b"-i",
    b"expunge=13",
    b"--arg",
    b"1b",
];

/// The run of one that never ends.
const OF_0: &[&[u8]; 8] = &[
    b"-i",
    b"machine=8",
    b"-i",
    b"invoke=12",
    b"-i",
    b"expunge=13",
    b"--arg",
    b"00",
];

const LOOKS: &[&[u8]; 8] = &[
    b"-i",
    b"fetch=100",
    b"-i",
    b"store=101",
    b"--arg",
    b"6b6579",
    b"--replies",
    b"r",
];

/// `examples/lookup/found.transcript`.
const FOUND: &[u8] =
    b"call 100 0000000000000002 00000000fefdffd8 0000000000000000 0000000000000000 0000000000000000 0000000000030000 0000000000000000 00000000feff0000 0000000000000003 0000000000030000 0000000000000040 0000000000000000 0000000000000000\nhalt output=68656c6c6f\ngas left=9999977\n";

/// `examples/lookup/absent.transcript`.
const ABSENT: &[u8] =
    b"call 100 0000000000000002 00000000fefdffd8 0000000000000000 0000000000000000 0000000000000000 0000000000030000 0000000000000000 00000000feff0000 0000000000000003 0000000000030000 0000000000000040 0000000000000000 0000000000000000\ncall 101 0000000000000004 00000000fefdffd8 0000000000000000 0000000000000000 0000000000000000 0000000000010000 0000000000000008 00000000feff0000 0000000000000003 0000000000010000 0000000000000008 0000000000000000 0000000000000000\nhalt output=6e6f6e6520796574\ngas left=9999967\n";

/// `examples/sandbox/halts.transcript`.
const HALTS: &[u8] =
    b"call 8 0000000000000002 00000000fefdffd8 0000000000000000 0000000000000000 0000000000000000 0000000000000000 000000000000001b 0000000000010000 000000000000002a 0000000000000000 000000000000001b 0000000000000000 0000000000000000\ncall 12 0000000000000004 00000000fefdffd8 0000000000000000 0000000000000000 0000000000000000 0000000000030000 0000000000000000 0000000000000000 0000000000030000 0000000000002710 000000000000001b 0000000000000000 0000000000000000\ncall 13 0000000000000006 00000000fefdffd8 0000000000000000 0000000000000000 0000000000000000 0000000000030000 0000000000000000 0000000000000000 0000000000030000 0000000000002710 000000000000001b 0000000000000000 0000000000000000\nhalt output=00000000000000006f000000000000003703000000000000\ngas left=9999116\n";

/// `examples/sandbox/endless.transcript`.
const ENDLESS: &[u8] =
    b"call 8 0000000000000002 00000000fefdffd8 0000000000000000 0000000000000000 0000000000000000 0000000000000000 0000000000000000 0000000000010000 000000000000002a 0000000000000000 0000000000000000 0000000000000000 0000000000000000\ncall 12 0000000000000004 00000000fefdffd8 0000000000000000 0000000000000000 0000000000000000 0000000000030000 0000000000000000 0000000000000000 0000000000030000 0000000000002710 0000000000000000 0000000000000000 0000000000000000\ncall 13 0000000000000006 00000000fefdffd8 0000000000000000 0000000000000000 0000000000000000 0000000000030000 0000000000000000 0000000000000000 0000000000030000 0000000000002710 0000000000000000 0000000000000000 0000000000000000\nhalt output=040000000000000000000000000000001027000000000000\ngas left=9989939\n";

#[test]
fn prints_its_transcript(rt: HostRuntime) -> Result<(), Fail> {
    for (service, words, replies, transcript) in RUNS {
        assert!(rt; prints(rt.alloc(), object_of(service), words, replies, transcript)?);
    }
    Ok(())
}

fn object_of(service: Service) -> &'static [u8] {
    match service {
        Service::Digest => DIGEST,
        Service::Lookup => LOOKUP,
        Service::Primes => PRIMES,
        Service::Sandbox => SANDBOX,
    }
}

/// Whether an object's run with these words and replies halts and prints exactly this.
fn prints(
    alloc: Global,
    object: &[u8],
    words: &[&[u8]],
    replies: &[u8],
    transcript: &[u8],
) -> Result<bool, AllocError> {
    let mut files = MemoryFolder::new(alloc);
    files.add("o", object)?;
    files.add("r", replies)?;
    let mut out = MemorySink::new(alloc, 1000)?;
    let mut err = MemorySink::new(alloc, 100)?;
    let mut line = Words::new(alloc);
    line.push(b"exec")?;
    line.push(b"o")?;
    for word in words {
        line.push(word)?;
    }
    let status = polkatool(alloc, &line, &mut files, &mut out, &mut err);
    Ok(status == Status::Done && out.bytes() == transcript && err.bytes().is_empty())
}
