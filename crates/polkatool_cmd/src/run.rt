//! From the bytes of a container and of a file of replies to the transcript of a run.

ghost use Rattle.std.specs.Prelude.{◌≡◌, ◌≤◌, ◌^◌, Some, length, OnOk, MatchResult, option_copied};
ghost use Rattle.machine_state.specs.State.{State};
ghost use Rattle.pvm_machine.specs.Ran.{run_with};
ghost use Rattle.transcript.specs.Ends.{end_of};
ghost use Rattle.transcript.specs.Hosts.{answering, start_host};
ghost use Rattle.polkatool_cmd.specs.Commands.{Run};
ghost use Rattle.polkatool_cmd.specs.RunRead.{run_in, settings_in};
ghost use Rattle.polkatool_cmd.specs.RunFaults.{bad_reply_line as bad_reply_line_of};
ghost use Rattle.polkatool_cmd.specs.Statuses.{status_of};
ghost use Rattle.polkatool_cmd.specs.Answers.{ResultsIn};
ghost use Rattle.polkatool_cmd.specs.Running.{HasReplies, FailsToReadReplies, Starts, FailsToStart, WritesRun, EndsAs};

use crate::answer::Answer;
use crate::blob::{blob_fault, blob_fault_at, read_blob};
use crate::commands::{RunCommand, Settings};
use crate::fault_codes::{ARGUMENT_TOO_LARGE, BAD_ENTRY, BAD_REPLY_LINE};
use crate::link_objects::read_file;
use crate::run_fault::RunFault;
use blob_codec::Container;
use elf_objects::Fault;
use outside::{Bytes, Folder, Sink};
use pvm_machine::{Machine, StartFault};
use std::alloc::Global;
use transcript::{Replies, ReplyFault, RunEnd, WriteRunFault, write_run};

/// The most bytes of a file of replies, 2^20.
const REPLIES_LIMIT: u32 = 1 << 20;

/// Runs the program of one file, with the replies of another, and puts the transcript of its run while it runs.
pub(crate) fn run<F: Folder, O: Sink>(
    alloc: Global,
    command: &RunCommand<'_>,
    files: &mut F,
    out: &mut O,
) -> Answer
    ensures results { ResultsIn (Some (Run (run_in command.now))) result
        (record {
          files = F.files files.old;
          reads = F.read_faults files.old;
          writes = F.write_faults files.old;
          out = O.bytes out.old;
          puts = O.faults out.old;
        })
        (record {
          files = F.files files.new;
          reads = F.read_faults files.new;
          writes = F.write_faults files.new;
          out = O.bytes out.new;
          puts = O.faults out.new;
        }) }
    ensures files { F.files files.new ≡ F.files files.old }
{
    let file = match read_blob(alloc, command.blob, files) {
        Ok(file) => file,
        Err(answer) => return answer,
    };
    let lines = match read_replies(alloc, command.settings.replies, 1, files) {
        Ok(lines) => lines,
        Err(answer) => return answer,
    };
    let replies = match Replies::read(alloc, lines.as_slice()) {
        Ok(replies) => replies,
        Err(ReplyFault::BadLine(line)) => return Answer::Refused(bad_reply_line(line)),
        Err(ReplyFault::Memory) => return Answer::Memory,
    };
    match start(alloc, file.as_slice(), &command.settings) {
        Ok(mut machine) => finish(alloc, &mut machine, &replies, out),
        Err(RunFault::Bad(fault)) => Answer::Refused(fault),
        Err(RunFault::Memory) => Answer::Memory,
    }
}

/// The bytes of the file of replies, with its number in the order of reading. Without one there are none.
///
/// # Errors
/// The answer of the command: a file fault, a refusal of too many bytes, or out of memory.
pub(crate) fn read_replies<F: Folder>(
    alloc: Global,
    name: Option<&str>,
    number: u32,
    files: &mut F,
) -> Result<Bytes, Answer>
    ensures read { MatchResult result
        (HasReplies (F.files files.old) (option_copied name.entry))
        (FailsToReadReplies (F.files files.old) (option_copied name.entry) number (F.read_faults files.old) (F.read_faults files.new)) }
    ensures reads { OnOk result (F.read_faults files.new ≡ F.read_faults files.old) }
    ensures files { F.files files.new ≡ F.files files.old }
    ensures writes { F.write_faults files.new ≡ F.write_faults files.old }
{
    match name {
        Some(name) => read_file(alloc, name, number, REPLIES_LIMIT, files),
        None => Ok(Bytes::new(alloc)),
    }
}

/// The fault of a line that is no reply.
pub(crate) fn bad_reply_line(line: u32) -> Fault
    ensures { result ≡ bad_reply_line_of line }
{
    blob_fault_at(BAD_REPLY_LINE, u64::from(line))
}

/// The machine at the start that settings ask for, of the container that a file is.
pub(crate) fn start<'a>(
    alloc: Global,
    file: &'a [u8],
    settings: &Settings<'_>,
) -> Result<Machine<'a>, RunFault>
    ensures { MatchResult result (Starts file.now (settings_in settings.now)) (FailsToStart file.now (settings_in settings.now)) }
{
    let container = Container::read(file)?;
    let argument = settings.argument.bytes(alloc)?;
    match Machine::start(
        alloc,
        &container,
        settings.entry,
        argument.as_slice(),
        settings.gas,
    ) {
        Ok(machine) => Ok(machine),
        Err(StartFault::ArgumentTooLarge) => Err(RunFault::Bad(blob_fault(ARGUMENT_TOO_LARGE))),
        Err(StartFault::BadEntry) => Err(RunFault::Bad(blob_fault(BAD_ENTRY))),
        Err(StartFault::Memory) => Err(RunFault::Memory),
    }
}

/// Runs a machine to its end, with its inner machines and with replies to its other calls, and puts the transcript.
pub(crate) fn finish<O: Sink>(
    alloc: Global,
    machine: &mut Machine<'_>,
    replies: &Replies,
    out: &mut O,
) -> Answer
    ensures { WritesRun (run_with answering (start_host replies.now) machine.old) machine.new result
        (record { text = O.bytes out.old; puts = O.faults out.old })
        (record { text = O.bytes out.new; puts = O.faults out.new }) }
{
    match write_run(alloc, machine, replies, out) {
        Ok(end) => answer_of(end),
        Err(WriteRunFault::Failed) => Answer::FileFault,
        Err(WriteRunFault::Memory) => Answer::Memory,
    }
}

/// The answer of a run with this end.
fn answer_of(end: RunEnd) -> Answer
    ensures { (s : State) → EndsAs result (status_of (end_of end s)) }
{
    match end {
        RunEnd::Halt => Answer::Done,
        RunEnd::Panic => Answer::Panicked,
        RunEnd::Fault(_) => Answer::Faulted,
        RunEnd::OutOfGas => Answer::OutOfGas,
        RunEnd::Unanswered(_) => Answer::Unanswered,
        RunEnd::BadReply { .. } => Answer::BadReply,
    }
}
