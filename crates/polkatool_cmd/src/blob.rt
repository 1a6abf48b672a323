//! What every command does with a blob: its file is read, within a limit, and then the container that it holds.

ghost use Rattle.std.specs.Prelude.{◌≡◌, ◌^◌, ◌≤◌, Ok, IfOk, OnOk, MatchResult, length};
ghost use Rattle.blob_codec.specs.Reading.{container_of};
ghost use Rattle.polkatool_cmd.specs.BlobFaults.{blob_fault_at, blob_fault as blob_fault_of, blob_fault_code, no_container, IsNoContainer};
ghost use Rattle.polkatool_cmd.specs.Blobs.{HoldsBlob, FailsToReadBlob};

use crate::answer::Answer;
use crate::fault_codes::{BAD_PADDING, BAD_WIDTH, FILE_TOO_LARGE, LEFT_OVER, OVERLONG, TRUNCATED};
use blob_codec::{BlobFault, Container};
use elf_objects::Fault;
use outside::{Bytes, Folder, ReadFault};
use std::alloc::Global;

/// The most bytes of a blob's file, 2^27.
const BLOB_LIMIT: u32 = 1 << 27;

/// The bytes of a blob's file.
///
/// # Errors
/// The answer of the command: a file fault, a refusal of too many bytes, or out of memory.
pub(crate) fn read_blob<F: Folder>(
    alloc: Global,
    name: &str,
    files: &mut F,
) -> Result<Bytes, Answer>
    ensures read { MatchResult result
        (HoldsBlob (F.files files.old) name.now)
        (FailsToReadBlob (F.files files.old) name.now (F.read_faults files.old) (F.read_faults files.new)) }
    ensures reads { OnOk result (F.read_faults files.new ≡ F.read_faults files.old) }
    ensures files { F.files files.new ≡ F.files files.old }
    ensures writes { F.write_faults files.new ≡ F.write_faults files.old }
{
    match files.read(alloc, name, BLOB_LIMIT) {
        Ok(file) => Ok(file),
        Err(ReadFault::Failed) => Err(Answer::FileFault),
        Err(ReadFault::TooLarge) => Err(Answer::Refused(blob_fault(FILE_TOO_LARGE))),
        Err(ReadFault::Memory) => Err(Answer::Memory),
    }
}

/// The container that the bytes of a file are, or the fault by which they are none.
pub(crate) fn container_in(file: &[u8]) -> Result<Container<'_>, Fault>
    ensures exact { MatchResult result (λ c. container_of file.now ≡ Ok c) (IsNoContainer file.now) }
    ensures code { IfOk result (λ c. length c.program.code.bytes ≤ 2 ^ 32) }
{
    match Container::read(file) {
        Ok(container) => Ok(container),
        Err(found) => Err(no_container(found)),
    }
}

/// The fault of bytes that are no container.
pub(crate) fn no_container(found: BlobFault) -> Fault
    ensures { result ≡ no_container found }
{
    blob_fault(blob_fault_code(found))
}

/// A fault of a blob as a whole.
pub(crate) fn blob_fault(code: u8) -> Fault
    ensures { result ≡ blob_fault_of code }
{
    blob_fault_at(code, 0)
}

/// A fault of a blob at an offset.
pub(crate) fn blob_fault_at(code: u8, offset: u64) -> Fault
    ensures { result ≡ blob_fault_at code offset }
{
    Fault {
        code,
        object: 0,
        section: 0,
        offset,
    }
}

/// The code of what keeps bytes from being a container.
fn blob_fault_code(found: BlobFault) -> u8
    ensures { result ≡ blob_fault_code found }
{
    match found {
        BlobFault::Truncated => TRUNCATED,
        BlobFault::Overlong => OVERLONG,
        BlobFault::BadWidth => BAD_WIDTH,
        BlobFault::BadPadding => BAD_PADDING,
        BlobFault::LeftOver => LEFT_OVER,
    }
}
