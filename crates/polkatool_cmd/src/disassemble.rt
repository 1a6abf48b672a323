//! From the bytes of a container to the text of its program.

ghost use Rattle.std.specs.Prelude.{◌≡◌, ◌≤◌, ◌^◌, Some, None, length};
ghost use Rattle.disasm.specs.Disassembly.{disassembly};
ghost use Rattle.polkatool_cmd.specs.Commands.{Disassemble};
ghost use Rattle.polkatool_cmd.specs.Answers.{ResultsIn};
ghost use Rattle.polkatool_cmd.specs.Blobs.{WritesText};

use crate::answer::Answer;
use crate::blob::{container_in, read_blob};
use blob_codec::Container;
use disasm::disassemble;
use outside::{Folder, Sink};
use std::alloc::Global;

/// Puts the text of the program of one file.
pub(crate) fn disassemble_blob<F: Folder, O: Sink>(
    alloc: Global,
    blob: &str,
    files: &mut F,
    out: &mut O,
) -> Answer
    ensures results { ResultsIn (Some (Disassemble blob.now)) result
        (record {
          files = F.files files.old;
          reads = F.read_faults files.old;
          writes = F.write_faults files.old;
          out = O.bytes out.old;
          puts = O.faults out.old;
        })
        (record {
          files = F.files files.new;
          reads = F.read_faults files.new;
          writes = F.write_faults files.new;
          out = O.bytes out.new;
          puts = O.faults out.new;
        }) }
    ensures files { F.files files.new ≡ F.files files.old }
{
    let file = match read_blob(alloc, blob, files) {
        Ok(file) => file,
        Err(answer) => return answer,
    };
    match container_in(file.as_slice()) {
        Ok(container) => write_text(&container, out),
        Err(fault) => Answer::Refused(fault),
    }
}

/// Puts the text of the program of a container.
fn write_text<O: Sink>(container: &Container<'_>, out: &mut O) -> Answer
    requires { length container.now.program.code.bytes ≤ 2 ^ 32 }
    ensures { WritesText None (disassembly container.now.program) result
        (record { text = O.bytes out.old; puts = O.faults out.old })
        (record { text = O.bytes out.new; puts = O.faults out.new }) }
{
    match disassemble(&container.program(), out) {
        Ok(()) => Answer::Done,
        Err(_) => Answer::FileFault,
    }
}
