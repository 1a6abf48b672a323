//! How a call of a running machine is answered.

ghost use Rattle.std.specs.Prelude.{◌≤◌, length};
ghost use Rattle.transcript.specs.WritingRuns.{AnswersCall, RepliesTo};

use crate::replies::Replies;
use crate::run_end::RunEnd;
use crate::writing_runs::WriteRunFault;
use inner_machines::{Nest, Served, calls_panic};
use pvm_machine::Machine;

/// What comes of a call.
#[derive(Clone, Copy, Debug, PartialEq, Eq)]
pub(crate) enum Reaction {
    /// The run goes on. The number of replies given up to now.
    GoesOn(u32),
    /// The run ends.
    Ends(RunEnd),
}

/// Answers the call with a number that a machine has made: one on inner machines by these, and any other by the next reply.
///
/// # Errors
/// `Memory`: an allocation fails, at a call that makes an inner machine or pages of one. Nothing changed.
pub(crate) fn answer(
    nest: &mut Nest,
    replies: &Replies,
    given: u32,
    machine: &mut Machine<'_>,
    number: u64,
) -> Result<Reaction, WriteRunFault>
    requires { given ≤ length replies.now }
    ensures { AnswersCall number replies.now given nest.old machine.old result nest.new machine.new }
{
    calls_panic();
    match nest.serve(machine, number) {
        Served::Done => Ok(Reaction::GoesOn(given)),
        Served::Panic => Ok(Reaction::Ends(RunEnd::Panic)),
        Served::OutOfGas => Ok(Reaction::Ends(RunEnd::OutOfGas)),
        Served::NotMine => Ok(reply(replies, given, machine, number)),
        Served::Memory => Err(WriteRunFault::Memory),
    }
}

/// Answers a call by the reply after the given number of them. With none left it ends the run.
fn reply(replies: &Replies, given: u32, machine: &mut Machine<'_>, number: u64) -> Reaction
    requires { given ≤ length replies.now }
    ensures { RepliesTo number replies.now given machine.old result machine.new }
{
    if given == replies.len() {
        return Reaction::Ends(RunEnd::Unanswered(number));
    }
    let line = given + 1;
    match replies.answer(given, machine) {
        Ok(()) => Reaction::GoesOn(line),
        Err(address) => Reaction::Ends(RunEnd::BadReply { line, address }),
    }
}
