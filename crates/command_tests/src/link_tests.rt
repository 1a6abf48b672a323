//! What no clause says: that calls succeed, and the bytes of whole results.

use crate::fixtures::*;
use outside::MemorySink;
use polkatool_cmd::{Status, out_of_memory};
use std::alloc::{AllocError, Global};
use std::test::Fail;

/// The container of the object of no text: its code is the entry's jump and a trap.
const OF_TWO_INSTRUCTIONS: [u8; 25] = [
    0, 0, 0, 0, 0, 0, 0, 0, 0, 0, 1, 0x0a, 0, 0, 0, 0, 0x01, 0x06, 0x28, 0x05, 0, 0, 0, 0, 0x21,
];

/// The container of two objects with two entries at the second one's text: the entries' jumps `jump 15` and `jump 10`, and
/// the text of each object.
const OF_TWO_OBJECTS: [u8; 41] = [
    0, 0, 0, 0, 0, 0, 0, 0, 0, 0, 1, 0x1a, 0, 0, 0, 0, 0x01, 0x14, 0x28, 0x0f, 0, 0, 0, 0x28, 0x0a,
    0, 0, 0, 0x33, 0x07, 0x05, 0x32, 0x00, 0x33, 0x07, 0x05, 0x32, 0x00, 0x21, 0xa4, 0x04,
];

/// The container of the object that loops: the entry's jump, `add_imm r7 r7 -1`, `branch_ne_imm r7 0` to it, and the trap
/// at the end.
const OF_A_LOOP: [u8; 32] = [
    0, 0, 0, 0, 0, 0, 0, 0, 0, 0, 1, 0x11, 0, 0, 0, 0, 0x01, 0x0c, 0x28, 0x05, 0, 0, 0, 0x95, 0x77,
    0xff, 0x52, 0x07, 0xfd, 0, 0x21, 0x09,
];

const MAP: &[u8; 22] = b"entry 0 00000005 main\n";

const LINK: [&[u8]; 4] = [b"link", b"-o", b"b", b"o"];

/// A call that is made to fail.
#[derive(Clone, Copy)]
enum Failing {
    Read,
    Write,
    Put,
    PutOnErr,
}

/// The object of no text, whose text is cut out.
fn object_of_no_text(alloc: Global) -> Result<Vec<u8>, AllocError> {
    let mut object = Vec::from_slice(alloc, &OBJECT[..64])?;
    object.extend_from_slice(&OBJECT[72..])?;
    for (at, byte) in OF_NO_TEXT {
        if let Some(place) = object.get_mut(at) {
            *place = byte;
        }
    }
    Ok(object)
}

/// The object whose second word is no ret.
fn object_of_another_word(alloc: Global) -> Result<Vec<u8>, AllocError> {
    let mut object = object(alloc)?;
    if let Some(byte) = object.get_mut(68) {
        *byte = 0x68;
    }
    Ok(object)
}

/// The object of a loop: `addi a0, a0, -1`, and `bne a0, x0, -4` at the end.
fn object_of_a_loop(alloc: Global) -> Result<Vec<u8>, AllocError> {
    let mut object = Vec::from_slice(alloc, &OBJECT[..64])?;
    object.extend_from_slice(&[0x13, 0x05, 0xf5, 0xff, 0xe3, 0x1e, 0x05, 0xfe])?;
    object.extend_from_slice(&OBJECT[72..])?;
    Ok(object)
}

/// The object, whose symbol `main` is weak.
fn weak_object(alloc: Global) -> Result<Vec<u8>, AllocError> {
    let mut object = object(alloc)?;
    if let Some(byte) = object.get_mut(100) {
        *byte = 0x22;
    }
    Ok(object)
}

fn many_bytes(alloc: Global) -> Result<Vec<u8>, AllocError> {
    vec![in alloc; 0u8; (1 << 24) + 1]
}

fn fail(outside: &mut Outside, failing: Failing) -> Result<(), AllocError> {
    match failing {
        Failing::Read => outside.files.fail(0),
        Failing::Write => outside.files.fail(1),
        Failing::Put => outside.out.fail(0),
        Failing::PutOnErr => outside.err.fail(0),
    }
}

/// Whether the link of an object is refused with this line.
fn is_refused(alloc: Global, object: &[u8], line: &[u8]) -> Result<bool, AllocError> {
    results_in(alloc, object, &LINK, Status::Refused, b"", b"", line)
}

/// Whether a link in which a call fails is a file fault that leaves these bytes.
fn fails_with(
    alloc: Global,
    object: &[u8],
    failing: Failing,
    container: &[u8],
    err: &[u8],
) -> Result<bool, AllocError> {
    let mut outside = outside_with(alloc, object)?;
    fail(&mut outside, failing)?;
    let answer = run(alloc, &mut outside, &LINK)?;
    Ok(answer == Status::FileFault && holds(&outside, container, b"", err))
}

#[test]
fn links_an_object(rt: HostRuntime) -> Result<(), Fail> {
    let object = object(rt.alloc())?;
    let container = container(rt.alloc())?;
    assert!(rt;
        results_in(
            rt.alloc(),
            &object,
            &LINK,
            Status::Done,
            &container,
            MAP,
            b""
        )?
    );
    Ok(())
}

/// A weak definition of `main` gives way to a global one: both entries lead to the second object's text, after the first's.
#[test]
fn links_two_objects(rt: HostRuntime) -> Result<(), Fail> {
    let object = object(rt.alloc())?;
    let weak = weak_object(rt.alloc())?;
    let line: [&[u8]; 9] = [
        b"link", b"w", b"-e", b"main", b"-o", b"b", b"-e", b"main", b"o",
    ];
    let mut outside = outside_with(rt.alloc(), &object)?;
    outside.files.add("w", &weak)?;
    let answer = run(rt.alloc(), &mut outside, &line)?;
    assert_eq!(rt; answer, Status::Done);
    assert!(rt;
        holds(
            &outside,
            &OF_TWO_OBJECTS,
            b"entry 0 0000000f main\nentry 1 0000000f main\n",
            b""
        )
    );
    Ok(())
}

/// Two global definitions of `main` are refused with the second.
#[test]
fn refuses_a_name_twice(rt: HostRuntime) -> Result<(), Fail> {
    let object = object(rt.alloc())?;
    let line: [&[u8]; 5] = [b"link", b"o", b"o", b"-o", b"b"];
    assert!(rt;
        results_in(
            rt.alloc(),
            &object,
            &line,
            Status::Refused,
            b"",
            b"",
            b"refused 10 Duplicate object=1 section=2 offset=1\n"
        )?
    );
    Ok(())
}

/// Its code is the entry's jump and the trap at the end.
#[test]
fn links_an_object_of_no_text(rt: HostRuntime) -> Result<(), Fail> {
    let object = object_of_no_text(rt.alloc())?;
    assert!(rt;
        results_in(
            rt.alloc(),
            &object,
            &LINK,
            Status::Done,
            &OF_TWO_INSTRUCTIONS,
            MAP,
            b""
        )?
    );
    Ok(())
}

/// The branch leads to the entry's block, and after it the machine runs into the trap at the end.
#[test]
fn links_an_object_that_loops(rt: HostRuntime) -> Result<(), Fail> {
    let object = object_of_a_loop(rt.alloc())?;
    assert!(rt;
        results_in(
            rt.alloc(),
            &object,
            &LINK,
            Status::Done,
            &OF_A_LOOP,
            MAP,
            b""
        )?
    );
    Ok(())
}

#[test]
fn refuses_other_files(rt: HostRuntime) -> Result<(), Fail> {
    let word = object_of_another_word(rt.alloc())?;
    let long = many_bytes(rt.alloc())?;
    assert!(rt;
        is_refused(
            rt.alloc(),
            b"",
            b"refused 1 NotElf object=0 section=0 offset=0\n"
        )?
    );
    assert!(rt;
        is_refused(
            rt.alloc(),
            &word,
            b"refused 20 BadWord object=0 section=1 offset=4\n"
        )?
    );
    assert!(rt;
        is_refused(
            rt.alloc(),
            &long,
            b"refused 61 FileTooLarge object=0 section=0 offset=0\n"
        )?
    );
    Ok(())
}

#[test]
fn answers_usage_errors(rt: HostRuntime) -> Result<(), Fail> {
    let lines: [&[&[u8]]; 9] = [
        &[],
        &[b"link"],
        &[b"link", b"-o", b"b"],
        &[b"run", b"-o", b"b", b"o"],
        &[b"link", b"-o", b"b", b"-e"],
        &[b"link", b"-o", b"", b"o"],
        &[b"link", b"-o", b"b", b""],
        &[b"link", b"-o", b"b", b"-o", b"c", b"o"],
        &[b"link", b"-o", b"\xff", b"o"],
    ];
    for line in lines {
        assert!(rt; is_faulty(rt.alloc(), line)?);
    }
    Ok(())
}

#[test]
fn answers_a_missing_object(rt: HostRuntime) -> Result<(), Fail> {
    let line: [&[u8]; 4] = [b"link", b"-o", b"b", b"c"];
    assert!(rt;
        results_in(
            rt.alloc(),
            b"",
            &line,
            Status::FileFault,
            b"",
            b"",
            FILE_FAULT
        )?
    );
    Ok(())
}

#[test]
fn answers_failing_calls(rt: HostRuntime) -> Result<(), Fail> {
    let object = object(rt.alloc())?;
    let container = container(rt.alloc())?;
    assert!(rt; fails_with(rt.alloc(), &object, Failing::Read, b"", FILE_FAULT)?);
    assert!(rt; fails_with(rt.alloc(), &object, Failing::Write, b"", FILE_FAULT)?);
    assert!(rt; fails_with(rt.alloc(), &object, Failing::Put, &container, FILE_FAULT)?);
    assert!(rt; fails_with(rt.alloc(), b"", Failing::PutOnErr, b"", b"")?);
    Ok(())
}

#[test]
fn reports_out_of_memory(rt: HostRuntime) -> Result<(), Fail> {
    let mut err = MemorySink::new(rt.alloc(), 100)?;
    let status = out_of_memory(&mut err);
    assert_eq!(rt; status, Status::Memory);
    assert_eq!(rt; status.number(), 9);
    assert_eq!(rt; err.bytes(), b"polkatool: out of memory\n".as_slice());
    Ok(())
}
