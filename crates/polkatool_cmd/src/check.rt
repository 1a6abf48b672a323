//! From the bytes of a container to the answer of a check.

ghost use Rattle.std.specs.Prelude.{◌≡◌, Some};
ghost use Rattle.polkatool_cmd.specs.Commands.{Check};
ghost use Rattle.polkatool_cmd.specs.CheckFaults.{check_fault, check_fault_in};
ghost use Rattle.polkatool_cmd.specs.Lines.{ok_text};
ghost use Rattle.polkatool_cmd.specs.Answers.{ResultsIn};
ghost use Rattle.polkatool_cmd.specs.Blobs.{WritesText};

use crate::answer::Answer;
use crate::blob::{blob_fault, blob_fault_at, container_in, read_blob};
use crate::fault_codes::{BAD_TABLE_ENTRY, BAD_TARGET, NO_FIRST, OPEN_END, UNKNOWN_OPCODE};
use blob_check::{CheckFault, check};
use blob_codec::Container;
use elf_objects::Fault;
use outside::{Folder, Sink};
use std::alloc::Global;

/// What is written if a program has no fault.
const OK: &[u8; 3] = b"ok\n";

/// Checks the program of one file, and puts that it has no fault.
pub(crate) fn check_blob<F: Folder, O: Sink>(
    alloc: Global,
    blob: &str,
    files: &mut F,
    out: &mut O,
) -> Answer
    ensures results { ResultsIn (Some (Check blob.now)) result
        (record {
          files = F.files files.old;
          reads = F.read_faults files.old;
          writes = F.write_faults files.old;
          out = O.bytes out.old;
          puts = O.faults out.old;
        })
        (record {
          files = F.files files.new;
          reads = F.read_faults files.new;
          writes = F.write_faults files.new;
          out = O.bytes out.new;
          puts = O.faults out.new;
        }) }
    ensures files { F.files files.new ≡ F.files files.old }
{
    let file = match read_blob(alloc, blob, files) {
        Ok(file) => file,
        Err(answer) => return answer,
    };
    match container_in(file.as_slice()) {
        Ok(container) => write_check(&container, out),
        Err(fault) => Answer::Refused(fault),
    }
}

/// Checks the program of a container, and puts that it has no fault.
fn write_check<O: Sink>(container: &Container<'_>, out: &mut O) -> Answer
    ensures { WritesText (check_fault_in container.now) ok_text result
        (record { text = O.bytes out.old; puts = O.faults out.old })
        (record { text = O.bytes out.new; puts = O.faults out.new }) }
{
    if let Err(fault) = check(container.program()) {
        return Answer::Refused(check_fault(fault));
    }
    match out.put(OK) {
        Ok(()) => Answer::Done,
        Err(_) => Answer::FileFault,
    }
}

/// How the fault of a program is reported.
fn check_fault(fault: CheckFault) -> Fault
    ensures { result ≡ check_fault fault }
{
    match fault {
        CheckFault::NoFirst => blob_fault(NO_FIRST),
        CheckFault::UnknownOpcode(at) => blob_fault_at(UNKNOWN_OPCODE, at),
        CheckFault::BadTarget(at) => blob_fault_at(BAD_TARGET, at),
        CheckFault::BadEntry(entry) => blob_fault_at(BAD_TABLE_ENTRY, entry),
        CheckFault::OpenEnd(at) => blob_fault_at(OPEN_END, at),
    }
}
