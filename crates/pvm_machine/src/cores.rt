ghost use Rattle.std.specs.Prelude.{ℕ, ◌≡◌, ◌≢◌, ◌≤◌, ◌<◌, IfOk, OnErr, MatchOption, replicate};
ghost use Rattle.std.specs.Borrow.{sem};
ghost use Rattle.machine_state.specs.Memory.{no_memory};
ghost use Rattle.machine_state.specs.State.{register, with_register};
ghost use Rattle.machine_state.specs.Heap.{sbrk};
ghost use Rattle.machine_state.specs.Output.{output_range};
ghost use Rattle.machine_state.specs.Start.{pages_of};
ghost use Rattle.pvm_machine.specs.Machine.{machine_on, HeapFits};
ghost use Rattle.pvm_machine.specs.Lending.{LendsCoreMemory};
ghost use Rattle.pvm_machine.specs.Stepped.{AreSteps, Costs, IsStep, Keeps};
ghost use Rattle.pvm_machine.specs.Ran.{IsRun, last_answer};

use crate::answers::{Exit, Step};
use crate::instructions::{Outcome, Registers, act_at};
use crate::start_memory::pages;
use blob_codec::Program;
use page_memory::{MapFault, Memory, Mode, stores_keep_pages};
use pvm_ops::Code;
use std::alloc::{AllocError, Global};
use std::marker::Model;

/// The state of a machine beside its program: thirteen registers of 64 bits, a memory of pages, the position in the code
/// of the next instruction, and the gas that is left. It knows where its heap ends, below which address that may grow, and
/// how many pages the memory may have when it grows.
#[derive(Drop)]
pub struct Core {
    registers: Registers,
    memory: Memory,
    counter: u64,
    gas: u64,
    heap_top: u64,
    heap_bound: u64,
    frame_limit: u32,
}

impl Model for Core {
    ghost use Rattle.pvm_machine.specs.Machine.{Core, core_code};

    ghost Value = { Core };

    ghost coded = { core_code };

    ghost view = { λ c. record { counter = c.counter; state = record { registers = c.registers; memory = c.memory; heap_top = c.heap_top; heap_bound = c.heap_bound; frame_limit = c.frame_limit }; gas = c.gas } };
}

/// Runs a program on a core, step by step, until a step does not answer `Next`, and returns its answer. A core without a
/// heap, whose heap bound is 0, never answers `Memory`, and keeps the number of its pages.
pub fn run_core(program: &Program<'_>, core: &mut Core) -> Exit
    requires { HeapFits core.old.state }
    ensures steps { AreSteps (machine_on program.now.table program.now.code core.old) (machine_on program.now.table program.now.code core.new) (last_answer result) }
    ensures run { IsRun (machine_on program.now.table program.now.code core.old) (machine_on program.now.table program.now.code core.new) (last_answer result) }
    ensures keeps { Keeps (machine_on program.now.table program.now.code core.old) (machine_on program.now.table program.now.code core.new) }
    ensures memory { core.old.state.heap_bound ≡ 0 → result ≢ Exit.Memory }
{
    core.run(program, &program.code())
}

impl Core {
    /// A core at a position, with registers of 0, and without pages, gas or a heap.
    pub fn new(alloc: Global, counter: u64) -> Core
        ensures { result ≡ record { counter = counter; state = record { registers = replicate 13 0; memory = no_memory; heap_top = 0; heap_bound = 0; frame_limit = 0 }; gas = 0 } }
    {
        Core {
            registers: [0; 13],
            memory: Memory::new(alloc),
            counter,
            gas: 0,
            heap_top: 0,
            heap_bound: 0,
            frame_limit: 0,
        }
    }

    /// A core with registers and a memory, at a position.
    pub(crate) fn with_parts(registers: Registers, memory: Memory, counter: u64) -> Core
        ensures { result ≡ record { counter = counter; state = record { registers = registers; memory = memory; heap_top = 0; heap_bound = 0; frame_limit = 0 }; gas = 0 } }
    {
        Core {
            registers,
            memory,
            counter,
            gas: 0,
            heap_top: 0,
            heap_bound: 0,
            frame_limit: 0,
        }
    }

    /// Executes the instruction of a program at the counter, if there is gas for it. Only an `sbrk` allocates; if that
    /// fails, nothing changes and no gas is spent.
    pub(crate) fn step(&mut self, program: &Program<'_>, code: &Code<'_>) -> Step
        requires { HeapFits self.old.state }
        ensures step { IsStep (machine_on program.now.table code.now self.old) (machine_on program.now.table code.now self.new) result }
        ensures costs { Costs result self.old.gas self.new.gas }
        ensures keeps { Keeps (machine_on program.now.table code.now self.old) (machine_on program.now.table code.now self.new) }
    {
        if self.gas == 0 {
            return Step::OutOfGas;
        }
        stores_keep_pages();
        self.gas -= 1;
        let at = self.counter;
        let (outcome, next) = act_at(code, program, at, &mut self.registers, &mut self.memory);
        // Most steps go on. Tested alone, this lets the compiler go on from where the outcome is made.
        if let Outcome::Next = outcome {
            self.counter = next;
            return Step::Next;
        }
        match outcome {
            Outcome::Next => {
                self.counter = next;
                Step::Next
            }
            Outcome::Jump(target) => {
                self.counter = target;
                Step::Next
            }
            Outcome::Halt => Step::Halt,
            Outcome::Panic => Step::Panic,
            Outcome::Fault(page) => Step::Fault(page),
            Outcome::Call(number) => {
                self.counter = next;
                Step::Host(number)
            }
            Outcome::Sbrk(register, size) => match self.grow(size) {
                Ok(value) => {
                    self.registers[usize::from(register)] = value;
                    self.counter = next;
                    Step::Next
                }
                Err(_) => {
                    self.gas += 1;
                    Step::Memory
                }
            },
        }
    }

    /// Makes steps until one does not answer `Next`, and returns its answer.
    // A function of its own, so that the steps have the processor's registers to themselves.
    #[inline(never)]
    pub(crate) fn run(&mut self, program: &Program<'_>, code: &Code<'_>) -> Exit
        requires { HeapFits self.old.state }
        ensures steps { AreSteps (machine_on program.now.table code.now self.old) (machine_on program.now.table code.now self.new) (last_answer result) }
        ensures run { IsRun (machine_on program.now.table code.now self.old) (machine_on program.now.table code.now self.new) (last_answer result) }
        ensures keeps { Keeps (machine_on program.now.table code.now self.old) (machine_on program.now.table code.now self.new) }
        ensures memory { self.old.state.heap_bound ≡ 0 → result ≢ Exit.Memory }
    {
        stores_keep_pages();
        loop {
            if let Some(exit) = last(self.step(program, code)) {
                return exit;
            }
        }
    }

    /// Moves the heap's end, as `sbrk` does, and returns what its register takes: the heap's old end, or 0 if it may not
    /// grow by that much.
    ///
    /// # Errors
    /// An allocation fails, and nothing changed. That happens only if pages are mapped.
    // Apart from the other instructions, which are many more.
    #[inline(never)]
    fn grow(&mut self, size: u64) -> Result<u64, AllocError>
        requires { HeapFits self.old.state }
        ensures ok { IfOk result (λ value. (at : ℕ) → record self.old { state = sbrk self.old.state at size } ≡ record self.new { state = with_register self.new.state at value }) }
        ensures err { OnErr result (self.new ≡ self.old) }
        ensures maps { OnErr result ((at : ℕ) → pages_of self.old.state.heap_top < pages_of (sbrk self.old.state at size).heap_top) }
    {
        let top = self.heap_top;
        if size == 0 {
            return Ok(top);
        }
        if size > self.heap_bound || top > self.heap_bound - size {
            return Ok(0);
        }
        let first = pages(top as usize);
        let count = pages((top + size) as usize) - first;
        match self
            .memory
            .map(first, count, Mode::Writable, self.frame_limit)
        {
            Ok(()) => {
                self.heap_top = top + size;
                Ok(top)
            }
            Err(MapFault::Full) => Ok(0),
            Err(MapFault::Memory) => Err(AllocError),
        }
    }

    /// The value of a register.
    pub fn register(&self, at: u8) -> u64
        requires { at ≤ 12 }
        ensures { result ≡ register self.now.state at }
    {
        self.registers[at as usize]
    }

    /// The values of all registers.
    pub fn registers(&self) -> &[u64; 13]
        ensures { result.now ≡ self.now.state.registers }
    {
        &self.registers
    }

    /// Sets a register.
    pub fn set_register(&mut self, at: u8, value: u64)
        requires { at ≤ 12 }
        ensures { self.new ≡ record self.old { state = with_register self.old.state at value } }
    {
        self.registers[at as usize] = value;
    }

    /// The memory.
    pub fn memory(&self) -> &Memory
        ensures { result.now ≡ self.now.state.memory }
    {
        &self.memory
    }

    /// The memory, to be changed. The core keeps the memory that the caller leaves; all else is as before.
    pub fn memory_mut(&mut self) -> &mut Memory
        ensures* writes_back { sem 𝓛 (LendsCoreMemory self.entry result) }
        ensures memory { result.now ≡ self.old.state.memory }
    {
        &mut self.memory
    }

    /// The position of the next instruction in the code.
    pub fn counter(&self) -> u64
        ensures { result ≡ self.now.counter }
    {
        self.counter
    }

    /// Sets the position of the next instruction.
    pub fn set_counter(&mut self, value: u64)
        ensures { self.new ≡ record self.old { counter = value } }
    {
        self.counter = value;
    }

    /// The gas that is left.
    pub fn gas(&self) -> u64
        ensures { result ≡ self.now.gas }
    {
        self.gas
    }

    /// Sets the gas that is left.
    pub fn set_gas(&mut self, value: u64)
        ensures { self.new ≡ record self.old { gas = value } }
    {
        self.gas = value;
    }

    /// The address of the heap's end.
    pub fn heap_top(&self) -> u64
        ensures { result ≡ self.now.state.heap_top }
    {
        self.heap_top
    }

    /// Sets the heap's end.
    pub fn set_heap_top(&mut self, value: u64)
        ensures { self.new ≡ record self.old { state = record self.old.state { heap_top = value } } }
    {
        self.heap_top = value;
    }

    /// The greatest address at which the heap may end, or 0 without a heap.
    pub fn heap_bound(&self) -> u64
        ensures { result ≡ self.now.state.heap_bound }
    {
        self.heap_bound
    }

    /// Sets the greatest address at which the heap may end.
    pub fn set_heap_bound(&mut self, value: u64)
        ensures { self.new ≡ record self.old { state = record self.old.state { heap_bound = value } } }
    {
        self.heap_bound = value;
    }

    /// The number of pages that the memory may have when the heap grows.
    pub fn frame_limit(&self) -> u32
        ensures { result ≡ self.now.state.frame_limit }
    {
        self.frame_limit
    }

    /// Sets the number of pages that the memory may have when the heap grows.
    pub fn set_frame_limit(&mut self, value: u32)
        ensures { self.new ≡ record self.old { state = record self.old.state { frame_limit = value } } }
    {
        self.frame_limit = value;
    }

    /// The address and the length of the output, as `Machine::output_range` says.
    pub(crate) fn output_range(&self) -> Option<(u32, u32)>
        ensures { result ≡ output_range self.now.state.registers self.now.state.memory }
    {
        self.memory.pages_have_numbers();
        let at = self.registers[7];
        let len = self.registers[8];
        if len == 0 || len > 1 << 32 || at > (1 << 32) - len {
            return None;
        }
        if self.memory.refused(at, len, false).is_some() {
            return None;
        }
        Some((at as u32, len as u32))
    }
}

/// The answer of a run whose last step has this one, and nothing for a step that is not the last.
fn last(step: Step) -> Option<Exit>
    ensures { MatchOption result (step ≡ Step.Next) (λ exit. step ≡ last_answer exit) }
{
    match step {
        Step::Next => None,
        Step::Halt => Some(Exit::Halt),
        Step::Panic => Some(Exit::Panic),
        Step::Fault(page) => Some(Exit::Fault(page)),
        Step::OutOfGas => Some(Exit::OutOfGas),
        Step::Host(number) => Some(Exit::Host(number)),
        Step::Memory => Some(Exit::Memory),
    }
}
