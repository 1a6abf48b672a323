//! The command `exec`: objects are linked, and the linked program is run.

ghost use Rattle.std.specs.Prelude.{◌≡◌, Some};
ghost use Rattle.polkatool_cmd.specs.Commands.{Exec};
ghost use Rattle.polkatool_cmd.specs.ExecRead.{exec_in};
ghost use Rattle.polkatool_cmd.specs.Answers.{ResultsIn};

use crate::answer::Answer;
use crate::commands::ExecCommand;
use crate::link_objects::{link_bundle, read_objects};
use crate::run::{bad_reply_line, finish, read_replies, start};
use crate::run_fault::RunFault;
use link_core::LinkFault;
use outside::{Folder, Sink};
use std::alloc::Global;
use transcript::{Replies, ReplyFault};

/// Links objects, runs the linked program with the replies of a file, and puts the transcript of its run while it runs.
pub(crate) fn exec<F: Folder, O: Sink>(
    alloc: Global,
    command: &ExecCommand<'_>,
    files: &mut F,
    out: &mut O,
) -> Answer
    ensures results { ResultsIn (Some (Exec (exec_in command.now))) result
        (record {
          files = F.files files.old;
          reads = F.read_faults files.old;
          writes = F.write_faults files.old;
          out = O.bytes out.old;
          puts = O.faults out.old;
        })
        (record {
          files = F.files files.new;
          reads = F.read_faults files.new;
          writes = F.write_faults files.new;
          out = O.bytes out.new;
          puts = O.faults out.new;
        }) }
    ensures files { F.files files.new ≡ F.files files.old }
{
    let bundle = match read_objects(alloc, &command.input, files) {
        Ok(bundle) => bundle,
        Err(answer) => return answer,
    };
    let lines = match read_replies(alloc, command.settings.replies, bundle.len(), files) {
        Ok(lines) => lines,
        Err(answer) => return answer,
    };
    let replies = match Replies::read(alloc, lines.as_slice()) {
        Ok(replies) => replies,
        Err(ReplyFault::BadLine(line)) => return Answer::Refused(bad_reply_line(line)),
        Err(ReplyFault::Memory) => return Answer::Memory,
    };
    let linked = match link_bundle(alloc, &command.input, &bundle) {
        Ok(linked) => linked,
        Err(LinkFault::Bad(fault)) => return Answer::Refused(fault),
        Err(LinkFault::Memory) => return Answer::Memory,
    };
    match start(alloc, linked.container(), &command.settings) {
        Ok(mut machine) => finish(alloc, &mut machine, &replies, out),
        Err(RunFault::Bad(fault)) => Answer::Refused(fault),
        Err(RunFault::Memory) => Answer::Memory,
    }
}
