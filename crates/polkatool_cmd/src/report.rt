//! How an answer is reported: by its status and a line on standard error.

ghost use Rattle.std.specs.Prelude.{◌≡◌};
ghost use Rattle.polkatool_cmd.specs.Lines.{refused_line as refused_line_of};
ghost use Rattle.polkatool_cmd.specs.Answers.{Puts, Reports};

use crate::answer::Answer;
use crate::fault_names::fault_name;
use crate::line::{Line, push_field};
use crate::status::Status;
use arrayvec::ArrayString;
use elf_objects::Fault;
use outside::Sink;

const USAGE: &str = "polkatool: bad command line\n";

const FILE_FAULT: &str = "polkatool: file fault\n";

const OUT_OF_MEMORY: &str = "polkatool: out of memory\n";

/// Reports on standard error that an allocation failed, for a caller that has no memory for the arguments. It takes no
/// memory.
pub fn out_of_memory<E: Sink>(err: &mut E) -> Status
    ensures { Reports Answer.Memory result
        (record { text = E.bytes err.old; puts = E.faults err.old })
        (record { text = E.bytes err.new; puts = E.faults err.new }) }
{
    report(Answer::Memory, err)
}

/// Puts the line of an answer on err, if it has one. It takes no memory.
pub(crate) fn report<E: Sink>(answer: Answer, err: &mut E) -> Status
    ensures { Reports answer result
        (record { text = E.bytes err.old; puts = E.faults err.old })
        (record { text = E.bytes err.new; puts = E.faults err.new }) }
{
    match answer {
        Answer::Done => Status::Done,
        Answer::Panicked => Status::Panicked,
        Answer::Faulted => Status::Faulted,
        Answer::OutOfGas => Status::OutOfGas,
        Answer::Unanswered => Status::Unanswered,
        Answer::BadReply => Status::BadReply,
        Answer::Refused(fault) => put_line(refused_line(&fault).as_str(), Status::Refused, err),
        Answer::Usage => put_line(USAGE, Status::Usage, err),
        Answer::FileFault => put_line(FILE_FAULT, Status::FileFault, err),
        Answer::Memory => put_line(OUT_OF_MEMORY, Status::Memory, err),
    }
}

/// Puts a line, and answers the status where it was put.
fn put_line<E: Sink>(line: &str, status: Status, err: &mut E) -> Status
    ensures { Puts line.now status result
        (record { text = E.bytes err.old; puts = E.faults err.old })
        (record { text = E.bytes err.new; puts = E.faults err.new }) }
{
    match err.put(line.as_bytes()) {
        Ok(()) => status,
        Err(_) => Status::FileFault,
    }
}

/// The line of a refusal, which is kept on the stack.
#[tactic(auto, unfolding(crate::specs::Lines::refused_line))]
fn refused_line(fault: &Fault) -> Line
    ensures { result.bytes ≡ refused_line_of fault.now }
{
    let mut line = ArrayString::new();
    push_field("refused ", u64::from(fault.code), &mut line);
    line.push_str(" ");
    line.push_str(fault_name(fault.code));
    push_field(" object=", u64::from(fault.object), &mut line);
    push_field(" section=", u64::from(fault.section), &mut line);
    push_field(" offset=", fault.offset, &mut line);
    line.push_str("\n");
    line
}
