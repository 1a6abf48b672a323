//! The top call: a list of arguments, a folder and two sinks give a status.
//!
//! `specs/Commands.antt` says which arguments are a command, `specs/LinkWords.antt` which are a link, `specs/RunWords.antt`
//! which are a run, `specs/ExecWords.antt` which are an exec and `specs/GenerateWords.antt` which are a generation, `specs/Faults.antt` which files are too large,
//! `specs/BlobFaults.antt` why what a file holds is no container, `specs/RunFaults.antt` and `specs/CheckFaults.antt` why a container isn't run or is no checked one, and
//! `specs/Answers.antt`, `specs/LinkAnswers.antt` and `specs/GenerateAnswers.antt` the result of each command and how it is reported. `link_core` says
//! why objects aren't linked.
#![tactic(auto)]

ghost use Rattle.polkatool_cmd.specs.Commands.{command_of};
ghost use Rattle.polkatool_cmd.specs.Answers.{Concludes, KeepsFiles};

mod answer;
mod argument;
mod blob;
mod check;
mod command;
mod commands;
mod disassemble;
mod exec;
mod exec_words;
mod fault_codes;
mod fault_names;
mod generate;
mod generate_words;
mod items;
mod laws;
mod line;
mod link_input;
mod link_objects;
mod link_words;
mod report;
mod run;
mod run_fault;
mod run_words;
mod status;
mod values;
mod words;

use command::answer_to;
pub use laws::commands_complete;
use outside::{Folder, Sink};
pub use report::out_of_memory;
use report::report;
pub use status::Status;
use std::alloc::Global;
pub use words::Words;

/// Carries out the command of the arguments, with the folder and standard output `out`, and reports on standard error
/// `err` what went wrong.
///
/// The arguments are `link` and, in any order, `-o OUT`, `-e NAME` and `-i NAME=NUMBER` or `-i NAME=sbrk` any number of times,
/// `--stack N`, and OBJ once or more: the objects in the files OBJ are linked into the file OUT with the entries of these
/// names, `main` without any, and the map is written to `out`. Or they are `run` and, in any order, BLOB, `--entry I`,
/// `--gas N`, `--arg HEX` and `--replies FILE`: the container in the file BLOB is run from entry I, by default 0, with gas
/// N, by default 10,000,000, with the bytes that the digits HEX spell as its argument, by default none, and with the lines
/// of FILE as replies to its host calls, by default none; the transcript of the run is written to `out` while it runs.
/// Or they are `exec` with the options of `link` but `-o`, those of `run`, and OBJ once or more: the objects are linked, and
/// the linked program is run as by `run`. Or they are `check BLOB`: if the container's program has no fault, `ok` and a line
/// feed are written to `out`. Or `disassemble BLOB`: the text of the program is written to `out`, whatever a check would say. Or
/// `gen SEED COUNT`: an object of COUNT random instructions is made and linked, its program is run with gas COUNT + 2, and the
/// line of the run is written to `out`. All other arguments are a usage error, for which no memory is taken.
pub fn polkatool<F: Folder, O: Sink, E: Sink>(
    alloc: Global,
    words: &Words,
    files: &mut F,
    out: &mut O,
    err: &mut E,
) -> Status
    ensures concludes { Concludes (command_of words.now) result
        (record {
          files = F.files files.old;
          reads = F.read_faults files.old;
          writes = F.write_faults files.old;
          out = O.bytes out.old;
          puts = O.faults out.old;
        })
        (record {
          files = F.files files.new;
          reads = F.read_faults files.new;
          writes = F.write_faults files.new;
          out = O.bytes out.new;
          puts = O.faults out.new;
        })
        (record { text = E.bytes err.old; puts = E.faults err.old })
        (record { text = E.bytes err.new; puts = E.faults err.new }) }
    ensures others { KeepsFiles (command_of words.now) (F.files files.old) (F.files files.new) }
{
    let answer = answer_to(alloc, words, files, out);
    report(answer, err)
}
