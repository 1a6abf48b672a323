ghost use Rattle.polkatool_cmd.specs.Commands.{command_of};
ghost use Rattle.polkatool_cmd.specs.Answers.{ResultsIn, KeepsFiles};

use crate::answer::Answer;
use crate::check::check_blob;
use crate::commands::Command;
use crate::disassemble::disassemble_blob;
use crate::exec::exec;
use crate::generate::generate;
use crate::link_objects::link;
use crate::run::run;
use crate::words::{Words, command_of};
use outside::{Folder, Sink};
use std::alloc::Global;

/// Does what the words ask for, but for the line on err.
pub(crate) fn answer_to<F: Folder, O: Sink>(
    alloc: Global,
    words: &Words,
    files: &mut F,
    out: &mut O,
) -> Answer
    ensures results { ResultsIn (command_of words.now) result
        (record {
          files = F.files files.old;
          reads = F.read_faults files.old;
          writes = F.write_faults files.old;
          out = O.bytes out.old;
          puts = O.faults out.old;
        })
        (record {
          files = F.files files.new;
          reads = F.read_faults files.new;
          writes = F.write_faults files.new;
          out = O.bytes out.new;
          puts = O.faults out.new;
        }) }
    ensures others { KeepsFiles (command_of words.now) (F.files files.old) (F.files files.new) }
{
    match command_of(words) {
        Some(Command::Link(command)) => link(alloc, &command, files, out),
        Some(Command::Run(command)) => run(alloc, &command, files, out),
        Some(Command::Exec(command)) => exec(alloc, &command, files, out),
        Some(Command::Check(blob)) => check_blob(alloc, blob, files, out),
        Some(Command::Disassemble(blob)) => disassemble_blob(alloc, blob, files, out),
        Some(Command::Generate(command)) => generate(alloc, &command, out),
        None => Answer::Usage,
    }
}
