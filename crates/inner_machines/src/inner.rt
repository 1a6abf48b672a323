ghost use Rattle.std.specs.Prelude.{◌≡◌, ◌+◌, ◌≤◌, ◌^◌, ◌∷◌, true, None, length};
ghost use Rattle.page_memory.specs.Access.{least_refused};
ghost use Rattle.pvm_machine.specs.Ran.{last_answer};
ghost use Rattle.inner_machines.specs.Calls.{worked, words_at, with_words, or_empty};
ghost use Rattle.blob_codec.specs.Reading.{program_of};
ghost use Rattle.pvm_machine.specs.Machine.{machine_on};
ghost use Rattle.pvm_machine.specs.Stepped.{all_steps, Keeps};
ghost use Rattle.std.specs.FinMap as map;
ghost use Rattle.std.specs.Borrow.{sem};
ghost use Rattle.machine_state.specs.Memory.{no_memory};
ghost use Rattle.inner_machines.specs.Views.{IsSpelled};
ghost use Rattle.inner_machines.specs.Lending.{LendsMemory};

use crate::words::{load_registers, put_word, store_registers};
use blob_codec::Program;
use page_memory::Memory;
use pvm_machine::{Core, Exit, run_core};
use std::alloc::Global;
use std::marker::Model;

/// An inner machine: the bytes of its program, and a core that has its memory and its counter. The core's registers
/// and gas are those of its last run, and mean nothing.
#[derive(Drop)]
pub(crate) struct Inner {
    program: Vec<u8>,
    core: Core,
}

impl Model for Inner {
    ghost use Rattle.inner_machines.specs.Inner.{Inner, inner_code};
    ghost use Rattle.inner_machines.specs.Views.{IsSpelled};

    ghost Value = { Inner };

    ghost coded = { inner_code };

    ghost view = { λ i. record { program = i.program.items; memory = i.core.state.memory; counter = i.core.counter } };

    ghost invariant = { λ i. IsSpelled i.program.items };
}

impl Inner {
    /// A machine of a program without a page.
    pub(crate) fn new(alloc: Global, program: Vec<u8>, counter: u64) -> Inner
        requires { IsSpelled program.items }
        ensures { result ≡ record { program = program.items; memory = no_memory; counter = counter } }
    {
        Inner {
            program,
            core: Core::new(alloc, counter),
        }
    }

    /// How many bytes its program has.
    pub(crate) fn program_len(&self) -> usize
        ensures { result ≡ length self.now.program }
    {
        self.program.len()
    }

    /// The position of its next instruction.
    pub(crate) fn counter(&self) -> u64
        ensures { result ≡ self.now.counter }
    {
        self.core.counter()
    }

    /// Its memory.
    pub(crate) fn memory(&self) -> &Memory
        ensures { result.now ≡ self.now.memory }
    {
        self.core.memory()
    }

    /// Its memory, to be changed.
    pub(crate) fn memory_mut(&mut self) -> &mut Memory
        ensures* writes_back { sem 𝓛 (LendsMemory self.entry result) }
        ensures memory { result.now ≡ self.old.memory }
    {
        self.core.memory_mut()
    }

    /// Runs the machine with an amount of gas, and with the thirteen registers that are in a memory after the gas at an
    /// address, until a step doesn't go on. Writes the gas left and the registers there. Returns how the run ended, and the
    /// gas left.
    pub(crate) fn work(&mut self, outer: &mut Memory, at: u32, gas: u64) -> (Exit, u64)
        requires fits { at + 112 ≤ 2 ^ 32 }
        requires free { least_refused outer.old true at 112 ≡ None }
        ensures exit { (worked self.old (words_at outer.old (at + 8) 13) gas).answer ≡ last_answer result.0 }
        ensures left { (worked self.old (words_at outer.old (at + 8) 13) gas).machine.gas ≡ result.1 }
        ensures less { result.1 ≤ gas }
        ensures words { let r = worked self.old (words_at outer.old (at + 8) 13) gas in outer.new ≡ with_words outer.old at (r.machine.gas ∷ r.machine.state.registers) }
        ensures inner { let r = worked self.old (words_at outer.old (at + 8) 13) gas in self.new ≡ record self.old { memory = r.machine.state.memory; counter = r.machine.counter } }
        ensures frames { map.len self.new.memory ≡ map.len self.old.memory }
    {
        have_thirteen(self.core.registers());
        load_registers(&mut self.core, outer, at + 8);
        self.core.set_gas(gas);
        self.core.set_heap_top(0);
        self.core.set_heap_bound(0);
        self.core.set_frame_limit(0);
        let exit = run_on(&self.program, &mut self.core);
        have_thirteen(self.core.registers());
        let left = self.core.gas();
        put_word(outer, at, left);
        store_registers(&self.core, outer, at + 8);
        (exit, left)
    }
}

/// An array of registers has thirteen.
fn have_thirteen(registers: &[u64; 13])
    ensures { length registers.now ≡ 13 }
{
    let _first = registers[0];
}

/// Runs the program that bytes spell on a core without a heap, as `run_core` says.
fn run_on(program: &[u8], core: &mut Core) -> Exit
    requires spelled { IsSpelled program.now }
    requires no_heap { core.old.state.heap_bound ≡ 0 }
    ensures steps { let p = or_empty (program_of program.now) in record { machine = machine_on p.table p.code core.new; answer = last_answer result } ≡ all_steps (machine_on p.table p.code core.old) }
    ensures keeps { let p = or_empty (program_of program.now) in Keeps (machine_on p.table p.code core.old) (machine_on p.table p.code core.new) }
{
    match Program::read(program) {
        Ok(program) => run_core(&program, core),
        Err(_) => Exit::Panic,
    }
}
