//! The command `gen`: an object of random words is made and linked, and its program is run.

ghost use Rattle.std.specs.Prelude.{◌≡◌, ◌+◌, ◌*◌, ◌≤◌, ◌<◌, ◌^◌, ◌++◌, [], length, true, None, Ok, IfOk};
ghost use Rattle.arrayvec.specs.ArrayString.{array_string_len};
ghost use Rattle.blob_check.specs.Starts.{is_start};
ghost use Rattle.link_core.specs.Faults.{input_of};
ghost use Rattle.link_core.specs.Linked.{HoldsLinked, IsLinked};
ghost use Rattle.pvm_machine.specs.Started.{started};
ghost use Rattle.blob_codec.specs.Reading.{container_of};
ghost use Rattle.polkatool_cmd.specs.GenerateAnswers.{generated_files, generated_wanted, GenerateResultsIn};
ghost use Rattle.polkatool_cmd.specs.GenerateRead.{generate_in};
ghost use Rattle.polkatool_cmd.specs.Blobs.{SpellsContainer, WritesText};
ghost use Rattle.polkatool_cmd.specs.Lines.{generated_line, value_field};

use crate::answer::Answer;
use crate::commands::GenerateCommand;
use crate::line::{LINE_LEN, Line, push_field};
use crate::link_input::DEFAULT_ENTRY;
use crate::link_words::DEFAULT_STACK;
use arrayvec::ArrayString;
use blob_codec::Container;
use disasm::push_hex;
use generated::generated;
use generated_runs::{generated_halts, generated_has_no_fault};
use link_core::{Bundle, LinkFault, Linked, first_fault_is_one, linked_is_checked};
use outside::Sink;
use pvm_machine::{Exit, Machine, StartFault};
use std::alloc::{AllocError, Global};
use symbols::Wanted;

/// Makes an object, links it and runs its program, and puts the line of the run.
pub(crate) fn generate<O: Sink>(alloc: Global, command: &GenerateCommand, out: &mut O) -> Answer
    ensures { GenerateResultsIn (generate_in command.now) result
        (record { text = O.bytes out.old; puts = O.faults out.old })
        (record { text = O.bytes out.new; puts = O.faults out.new }) }
{
    let Ok(linked) = link_generated(alloc, command) else {
        return Answer::Memory;
    };
    let container = linked_container(linked.container());
    run_generated(alloc, command, &container, out)
}

/// Makes an object and links it. It has no fault.
fn link_generated(alloc: Global, command: &GenerateCommand) -> Result<Linked, AllocError>
    ensures { IfOk result (HoldsLinked (input_of (generated_files (generate_in command.now)) generated_wanted)) }
{
    generated_has_no_fault();
    first_fault_is_one();
    let bundle = bundle_of(alloc, command)?;
    let mut wanted = Wanted::new(alloc, DEFAULT_STACK);
    wanted.entry(DEFAULT_ENTRY)?;
    match link_core::link(alloc, &bundle, &wanted) {
        Ok(linked) => Ok(linked),
        Err(LinkFault::Memory) => Err(AllocError),
        Err(LinkFault::Bad(_)) => unreachable!(),
    }
}

/// The bundle of the generated object alone.
fn bundle_of(alloc: Global, command: &GenerateCommand) -> Result<Bundle, AllocError>
    ensures { IfOk result (λ bundle. bundle ≡ generated_files (generate_in command.now)) }
{
    let object = generated(alloc, command.seed, command.count)?;
    let mut bundle = Bundle::new(alloc);
    bundle.add(object.as_slice())?;
    Ok(bundle)
}

/// The container of a link's bytes.
fn linked_container(bytes: &[u8]) -> Container<'_>
    requires { SpellsContainer bytes.now }
    ensures { container_of bytes.now ≡ Ok result }
{
    match Container::read(bytes) {
        Ok(container) => container,
        Err(_) => unreachable!(),
    }
}

/// Runs the program of the generated object, which halts, and puts the line of its run.
fn run_generated<O: Sink>(
    alloc: Global,
    command: &GenerateCommand,
    container: &Container<'_>,
    out: &mut O,
) -> Answer
    requires { IsLinked (input_of (generated_files (generate_in command.now)) generated_wanted) container.now }
    ensures { GenerateResultsIn (generate_in command.now) result
        (record { text = O.bytes out.old; puts = O.faults out.old })
        (record { text = O.bytes out.new; puts = O.faults out.new }) }
{
    let gas = u64::from(command.count) + 2;
    linked_is_checked();
    generated_has_no_fault();
    generated_halts();
    let Ok(mut machine) = start(alloc, container, gas) else {
        return Answer::Memory;
    };
    match machine.run() {
        Exit::Halt => {
            let code = container.program().code().len();
            let line = line(command, code, gas - machine.gas(), machine.registers());
            put_line(line.as_bytes(), out)
        }
        Exit::Memory => Answer::Memory,
        Exit::Panic | Exit::Fault(_) | Exit::OutOfGas | Exit::Host(_) => unreachable!(),
    }
}

/// The machine at the start of a generated program, without an argument.
fn start<'a>(alloc: Global, container: &Container<'a>, gas: u64) -> Result<Machine<'a>, AllocError>
    requires { is_start container.now.program.code 0 ≡ true }
    ensures { IfOk result (λ machine. machine ≡ started container.now 0 [] gas) }
{
    match Machine::start(alloc, container, 0, &[], gas) {
        Ok(machine) => Ok(machine),
        Err(StartFault::Memory) => Err(AllocError),
        Err(StartFault::ArgumentTooLarge | StartFault::BadEntry) => unreachable!(),
    }
}

/// The line of a run that halted.
#[tactic(auto, unfolding(crate::specs::Lines::generated_line))]
fn line(command: &GenerateCommand, code: u64, gas: u64, registers: &[u64; 13]) -> Line
    ensures { result.bytes ≡ generated_line command.now.seed command.now.count code gas registers.now }
{
    let mut line = ArrayString::new();
    push_field("gen seed=", command.seed, &mut line);
    push_field(" count=", u64::from(command.count), &mut line);
    push_field(" code=", code, &mut line);
    push_field(" gas=", gas, &mut line);
    line.push_str(" end=halt");
    push_value(" a2=", registers[9], &mut line);
    push_value(" a3=", registers[10], &mut line);
    push_value(" a4=", registers[11], &mut line);
    push_value(" a5=", registers[12], &mut line);
    line.push_str("\n");
    line
}

/// Adds a label and a value in sixteen hexadecimal digits to a line.
fn push_value(label: &str, value: u64, line: &mut Line)
    requires { array_string_len line.old + length label.now + 16 ≤ LINE_LEN }
    ensures text { line.new.bytes ≡ line.old.bytes ++ value_field label.now value }
    ensures len { array_string_len line.new ≡ array_string_len line.old + length label.now + 16 }
{
    line.push_str(label);
    push_hex(8, value, line);
}

/// Puts a line.
fn put_line<O: Sink>(line: &[u8], out: &mut O) -> Answer
    ensures { WritesText None line.now result
        (record { text = O.bytes out.old; puts = O.faults out.old })
        (record { text = O.bytes out.new; puts = O.faults out.new }) }
{
    match out.put(line) {
        Ok(()) => Answer::Done,
        Err(_) => Answer::FileFault,
    }
}
