//! A machine is run to its end, with answers to its calls and with its transcript.

ghost use Rattle.std.specs.Prelude.{◌≡◌};
ghost use Rattle.pvm_machine.specs.Ran.{run_with};
ghost use Rattle.transcript.specs.Hosts.{answering, start_host};
ghost use Rattle.transcript.specs.declared.writing_runs.WriteRunFault.TheVariants.{Failed as Fails};
ghost use Rattle.transcript.specs.WritingRuns.{RunsOut, WritesRun};

use crate::calls::{Reaction, answer};
use crate::lines::{end_lines, event_line};
use crate::replies::Replies;
use crate::run_end::RunEnd;
use inner_machines::Nest;
use outside::{Failed, Sink};
use pvm_machine::{Exit, Machine};
use std::alloc::Global;

/// Why a run has no whole transcript.
#[derive(Clone, Copy, Debug, PartialEq, Eq)]
pub enum WriteRunFault {
    /// A put failed.
    Failed,
    /// An allocation failed.
    Memory,
}

impl From<Failed> for WriteRunFault {
    ghost from_gives = { λ _ fault. fault ≡ Fails };

    fn from(_: Failed) -> WriteRunFault {
        WriteRunFault::Failed
    }
}

/// Runs a machine to its end, with its inner machines, which it makes by its calls, and with replies to its other calls.
/// It puts the transcript: the line of a call before it is answered, and at last the lines of the end and of the gas that
/// is left.
///
/// # Errors
/// A put fails, after a prefix of the transcript. Or an allocation fails: at an `sbrk` that would map pages, where the
/// lines of the calls before it were put; or at a call that makes an inner machine or pages of one, where its line was put
/// too.
pub fn write_run<S: Sink>(
    alloc: Global,
    machine: &mut Machine<'_>,
    replies: &Replies,
    out: &mut S,
) -> Result<RunEnd, WriteRunFault>
    ensures { WritesRun (run_with answering (start_host replies.now) machine.old) machine.new result
        (record { text = S.bytes out.old; puts = S.faults out.old })
        (record { text = S.bytes out.new; puts = S.faults out.new }) }
{
    let end = run_out(alloc, machine, replies, out)?;
    end_lines(out, &end, machine)?;
    Ok(end)
}

/// Runs a machine to its end, and puts the line of each call before it is answered.
fn run_out<S: Sink>(
    alloc: Global,
    machine: &mut Machine<'_>,
    replies: &Replies,
    out: &mut S,
) -> Result<RunEnd, WriteRunFault>
    ensures { RunsOut (run_with answering (start_host replies.now) machine.old) machine.new result
        (record { text = S.bytes out.old; puts = S.faults out.old })
        (record { text = S.bytes out.new; puts = S.faults out.new }) }
{
    let mut nest = Nest::new(alloc);
    let mut given = 0;
    loop {
        match machine.run() {
            Exit::Halt => return Ok(RunEnd::Halt),
            Exit::Panic => return Ok(RunEnd::Panic),
            Exit::Fault(address) => return Ok(RunEnd::Fault(address)),
            Exit::OutOfGas => return Ok(RunEnd::OutOfGas),
            Exit::Host(number) => {
                event_line(out, number, machine)?;
                match answer(&mut nest, replies, given, machine, number)? {
                    Reaction::GoesOn(now) => given = now,
                    Reaction::Ends(end) => return Ok(end),
                }
            }
            Exit::Memory => return Err(WriteRunFault::Memory),
        }
    }
}
