//! Objects, programs and containers by their bytes, and calls over a folder and two sinks in memory.

use outside::{MemoryFolder, MemorySink};
use polkatool_cmd::{Status, Words, polkatool};
use std::alloc::{AllocError, Global};

/// The object with the text `addi a0, x0, 5` and `ret`.
pub(crate) const OBJECT: [u8; 480] = [
    0x7f, 0x45, 0x4c, 0x46, 0x02, 0x01, 0x01, 0, 0, 0, 0, 0, 0, 0, 0, 0, 0x01, 0, 0xf3, 0, 0x01, 0,
    0, 0, 0, 0, 0, 0, 0, 0, 0, 0, 0, 0, 0, 0, 0, 0, 0, 0, 0xa0, 0, 0, 0, 0, 0, 0, 0, 0x08, 0, 0, 0,
    0x40, 0, 0, 0, 0, 0, 0x40, 0, 0x05, 0, 0x04, 0, 0x13, 0x05, 0x50, 0, 0x67, 0x80, 0, 0, 0, 0, 0,
    0, 0, 0, 0, 0, 0, 0, 0, 0, 0, 0, 0, 0, 0, 0, 0, 0, 0, 0, 0, 0, 0x01, 0, 0, 0, 0x12, 0, 0x01, 0,
    0, 0, 0, 0, 0, 0, 0, 0, 0x08, 0, 0, 0, 0, 0, 0, 0, 0, 0x6d, 0x61, 0x69, 0x6e, 0, 0, 0x2e, 0x74,
    0x65, 0x78, 0x74, 0, 0x2e, 0x73, 0x79, 0x6d, 0x74, 0x61, 0x62, 0, 0x2e, 0x73, 0x74, 0x72, 0x74,
    0x61, 0x62, 0, 0x2e, 0x73, 0x68, 0x73, 0x74, 0x72, 0x74, 0x61, 0x62, 0, 0, 0, 0, 0, 0, 0, 0, 0,
    0, 0, 0, 0, 0, 0, 0, 0, 0, 0, 0, 0, 0, 0, 0, 0, 0, 0, 0, 0, 0, 0, 0, 0, 0, 0, 0, 0, 0, 0, 0, 0,
    0, 0, 0, 0, 0, 0, 0, 0, 0, 0, 0, 0, 0, 0, 0, 0, 0, 0, 0, 0, 0, 0, 0, 0, 0, 0x01, 0, 0, 0, 0x01,
    0, 0, 0, 0x06, 0, 0, 0, 0, 0, 0, 0, 0, 0, 0, 0, 0, 0, 0, 0, 0x40, 0, 0, 0, 0, 0, 0, 0, 0x08, 0,
    0, 0, 0, 0, 0, 0, 0, 0, 0, 0, 0, 0, 0, 0, 0x04, 0, 0, 0, 0, 0, 0, 0, 0, 0, 0, 0, 0, 0, 0, 0,
    0x07, 0, 0, 0, 0x02, 0, 0, 0, 0, 0, 0, 0, 0, 0, 0, 0, 0, 0, 0, 0, 0, 0, 0, 0, 0x48, 0, 0, 0, 0,
    0, 0, 0, 0x30, 0, 0, 0, 0, 0, 0, 0, 0x03, 0, 0, 0, 0x01, 0, 0, 0, 0x08, 0, 0, 0, 0, 0, 0, 0,
    0x18, 0, 0, 0, 0, 0, 0, 0, 0x0f, 0, 0, 0, 0x03, 0, 0, 0, 0, 0, 0, 0, 0, 0, 0, 0, 0, 0, 0, 0, 0,
    0, 0, 0, 0x78, 0, 0, 0, 0, 0, 0, 0, 0x06, 0, 0, 0, 0, 0, 0, 0, 0, 0, 0, 0, 0, 0, 0, 0, 0x01, 0,
    0, 0, 0, 0, 0, 0, 0, 0, 0, 0, 0, 0, 0, 0, 0x17, 0, 0, 0, 0x03, 0, 0, 0, 0, 0, 0, 0, 0, 0, 0, 0,
    0, 0, 0, 0, 0, 0, 0, 0, 0x7e, 0, 0, 0, 0, 0, 0, 0, 0x21, 0, 0, 0, 0, 0, 0, 0, 0, 0, 0, 0, 0, 0,
    0, 0, 0x01, 0, 0, 0, 0, 0, 0, 0, 0, 0, 0, 0, 0, 0, 0, 0,
];

/// What is other in the object of no text, whose text is cut out: offsets and sizes less by 8.
pub(crate) const OF_NO_TEXT: [(usize, u8); 6] = [
    (40, 0x98),
    (104, 0),
    (248, 0),
    (304, 0x40),
    (368, 0x70),
    (432, 0x76),
];

/// The container of the object: a stack of 65,536 bytes and a program of 15, whose code is `jump 5`, `load_imm a0, 5`
/// and `jump_ind ra, 0`.
pub(crate) const CONTAINER: [u8; 30] = [
    0x00, 0x00, 0x00, 0x00, 0x00, 0x00, 0x00, 0x00, 0x00, 0x00, 0x01, 0x0f, 0x00, 0x00, 0x00, 0x00,
    0x01, 0x0a, 0x28, 0x05, 0x00, 0x00, 0x00, 0x33, 0x07, 0x05, 0x32, 0x00, 0x21, 0x01,
];

pub(crate) const USAGE: &[u8; 28] = b"polkatool: bad command line\n";

pub(crate) const FILE_FAULT: &[u8; 22] = b"polkatool: file fault\n";

/// The program of `examples/five`, whose code is `jump 5`, `load_imm a0, 5` and `jump_ind ra, 0`.
pub(crate) const FIVE: &[u8; 15] = b"\x00\x01\x0a\x28\x05\0\0\0\x33\x07\x05\x32\0\x21\x01";

/// Its container has a byte of read-only data.
pub(crate) const OF_READ_ONLY_DATA: [u8; 25] = [
    1, 0, 0, 0, 0, 0, 0, 0, 0, 0, 1, 0x2a, 0x09, 0, 0, 0, 0, 0x01, 0x05, 0x33, 0x07, 0x05, 0x0a, 8,
    0x09,
];

/// A folder and two sinks.
#[derive(Drop)]
pub(crate) struct Outside {
    pub files: MemoryFolder,
    pub out: MemorySink,
    pub err: MemorySink,
}

// What these return is known to no proof: the tests are about what runs.
pub(crate) fn object(alloc: Global) -> Result<Vec<u8>, AllocError> {
    Vec::from_slice(alloc, &OBJECT)
}

pub(crate) fn container(alloc: Global) -> Result<Vec<u8>, AllocError> {
    Vec::from_slice(alloc, &CONTAINER)
}

/// The object whose text is the one word `addi ra, x0, -1`.
pub(crate) fn object_of_one_word(alloc: Global) -> Result<Vec<u8>, AllocError> {
    let mut object = Vec::from_slice(alloc, &OBJECT[..64])?;
    object.extend_from_slice(&[0x93, 0x00, 0xf0, 0xff])?;
    object.extend_from_slice(&OBJECT[72..])?;
    for (at, byte) in OF_NO_TEXT {
        if let Some(place) = object.get_mut(if at < 64 { at } else { at + 4 }) {
            *place = byte.wrapping_add(4);
        }
    }
    Ok(object)
}

/// A folder with an object under `o` and room under `b`.
pub(crate) fn outside_with(alloc: Global, object: &[u8]) -> Result<Outside, AllocError> {
    let mut files = MemoryFolder::new(alloc);
    files.add("o", object)?;
    files.room("b", 100)?;
    Ok(Outside {
        files,
        out: MemorySink::new(alloc, 100)?,
        err: MemorySink::new(alloc, 100)?,
    })
}

pub(crate) fn run(
    alloc: Global,
    outside: &mut Outside,
    line: &[&[u8]],
) -> Result<Status, AllocError> {
    let mut words = Words::new(alloc);
    for word in line {
        words.push(word)?;
    }
    let Outside { files, out, err } = outside;
    Ok(polkatool(alloc, &words, files, out, err))
}

/// A folder with a blob under `b`, and room on out for a long output.
pub(crate) fn outside_of(alloc: Global, blob: &[u8]) -> Result<Outside, AllocError> {
    let mut files = MemoryFolder::new(alloc);
    files.add("b", blob)?;
    Ok(Outside {
        files,
        out: MemorySink::new(alloc, 1000)?,
        err: MemorySink::new(alloc, 100)?,
    })
}

/// A container with a stack of 65,536 bytes, whose program has the length `len` and these bytes.
pub(crate) fn blob(alloc: Global, len: u8, program: &[u8]) -> Result<Vec<u8>, AllocError> {
    let mut blob = Vec::from_slice(alloc, &[0, 0, 0, 0, 0, 0, 0, 0, 0, 0, 1, len, 0, 0, 0])?;
    blob.extend_from_slice(program)?;
    Ok(blob)
}

/// Whether the arguments, with this blob, give the status and write these bytes to out and err.
pub(crate) fn runs_to(
    alloc: Global,
    blob: &[u8],
    line: &[&[u8]],
    status: Status,
    out: &[u8],
    err: &[u8],
) -> Result<bool, AllocError> {
    let mut outside = outside_of(alloc, blob)?;
    let answer = run(alloc, &mut outside, line)?;
    Ok(answer == status && outside.out.bytes() == out && outside.err.bytes() == err)
}

/// Whether `b` and both sinks hold exactly these bytes, and `b` none where there are none.
pub(crate) fn holds(outside: &Outside, container: &[u8], out: &[u8], err: &[u8]) -> bool {
    outside.files.file("b").unwrap_or(b"") == container
        && outside.out.bytes() == out
        && outside.err.bytes() == err
}

/// Whether the arguments, with this object, give the status and write these bytes.
pub(crate) fn results_in(
    alloc: Global,
    object: &[u8],
    line: &[&[u8]],
    status: Status,
    container: &[u8],
    out: &[u8],
    err: &[u8],
) -> Result<bool, AllocError> {
    let mut outside = outside_with(alloc, object)?;
    let answer = run(alloc, &mut outside, line)?;
    Ok(answer == status && holds(&outside, container, out, err))
}

/// Whether arguments are a usage error.
pub(crate) fn is_faulty(alloc: Global, line: &[&[u8]]) -> Result<bool, AllocError> {
    results_in(alloc, b"", line, Status::Usage, b"", b"", USAGE)
}
