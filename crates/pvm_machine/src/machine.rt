ghost use Rattle.std.specs.Prelude.{ℕ, ◌≡◌, ◌≤◌, ◌<◌, ◌+◌, ◌-◌, ◌*◌, ◌^◌, ◌↔◌, false, length, IfOk, Err};
ghost use Rattle.std.specs.Borrow.{sem};
ghost use Rattle.std.specs.FinMap as map;
ghost use Rattle.machine_state.specs.State.{register, with_register};
ghost use Rattle.machine_state.specs.Output.{output_range};
ghost use Rattle.blob_check.specs.Starts.{is_start};
ghost use Rattle.pvm_machine.specs.Stepped.{AreSteps, Costs, IsStep, Keeps};
ghost use Rattle.pvm_machine.specs.Ran.{IsRun, last_answer};
ghost use Rattle.machine_state.specs.Start.{start_registers};
ghost use Rattle.pvm_machine.specs.Started.{started};
ghost use Rattle.pvm_machine.specs.Lending.{LendsMemory};

use crate::answers::{Exit, StartFault, Step};
use crate::cores::Core;
use crate::instructions::Registers;
use crate::start_memory::{FRAME_LIMIT, heap_bound, heap_top, start_memory};
use blob_check::is_start;
use blob_codec::{Container, Program};
use page_memory::Memory;
use pvm_ops::Code;
use std::alloc::Global;
use std::marker::Model;

/// The most bytes that an argument may have.
const MAX_ARGUMENT: usize = 0x100_0000;

/// A machine that runs the program of a container, whose bytes it borrows.
///
/// It has thirteen registers of 64 bits (0 is ra, 1 sp, 2 to 4 t0 to t2, 5 and 6 s0 and s1, 7 to 12 a0 to a5), the
/// position in the code of the next instruction, a memory of pages, and the gas that is left, of which each
/// instruction costs one. It knows where its heap ends, below which address that may grow, and how many pages the memory
/// may have.
#[derive(Drop)]
pub struct Machine<'a> {
    program: Program<'a>,
    code: Code<'a>,
    core: Core,
}

impl<'a> Model for Machine<'a> {
    ghost use Rattle.std.specs.Prelude.{◌≤◌, ◌-◌, ◌^◌};
    ghost use Rattle.pvm_machine.specs.Machine.{Machine, machine_on, machine_code};

    ghost Value = { Machine };

    ghost coded = { machine_code };

    ghost view = { λ m. machine_on m.program.table m.code m.core };

    // so no page of the heap is below 2^16 or above 2^32
    ghost invariant = { λ m. (2 ^ 16 ≤ m.core.state.heap_top) × (m.core.state.heap_bound ≤ 2 ^ 32 - 2 ^ 16) };
}

impl<'a> Machine<'a> {
    /// A machine at the entry with a number, from 0, with the argument in its memory and so much gas. Its memory is that
    /// of the standard start: read-only data from 2^16 on, writable data with the zero pages, the stack below
    /// 0xfefe0000, and the argument from 0xfeff0000 on.
    ///
    /// # Errors
    /// `ArgumentTooLarge` for more than 2^24 bytes, then `BadEntry` where no block starts at position 5 `entry`.
    pub fn start(
        alloc: Global,
        container: &Container<'a>,
        entry: u32,
        argument: &[u8],
        gas: u64,
    ) -> Result<Machine<'a>, StartFault>
        ensures started { IfOk result (λ m. m ≡ started container.now entry argument.now gas) }
        ensures frames { IfOk result (λ m. map.len m.state.memory ≤ 131072) }
        ensures argument { (result ≡ Err StartFault.ArgumentTooLarge) ↔ (2 ^ 24 < length argument.now) }
        ensures entry { (result ≡ Err StartFault.BadEntry) ↔ ((length argument.now ≤ 2 ^ 24) × (is_start container.now.program.code (5 * entry) ≡ false)) }
    {
        if argument.len() > MAX_ARGUMENT {
            return Err(StartFault::ArgumentTooLarge);
        }
        let program = container.program();
        let code = program.code();
        let counter = 5 * u64::from(entry);
        if !is_start(&code, counter) {
            return Err(StartFault::BadEntry);
        }
        let memory = start_memory(alloc, container, argument)?;
        let mut core = Core::with_parts(start_registers(argument.len()), memory, counter);
        core.set_gas(gas);
        core.set_heap_top(heap_top(container));
        core.set_heap_bound(heap_bound(container));
        core.set_frame_limit(FRAME_LIMIT);
        Ok(Machine {
            program,
            code,
            core,
        })
    }

    /// Does the instruction at the counter, where there is gas for it. Only an `sbrk` allocates; where that fails, nothing
    /// changes and no gas is spent.
    pub fn step(&mut self) -> Step
        ensures step { IsStep self.old self.new result }
        ensures costs { Costs result self.old.gas self.new.gas }
        ensures keeps { Keeps self.old self.new }
    {
        self.core.step(&self.program, &self.code)
    }

    /// Makes steps until one does not answer `Next`, and gives its answer.
    pub fn run(&mut self) -> Exit
        ensures steps { AreSteps self.old self.new (last_answer result) }
        ensures run { IsRun self.old self.new (last_answer result) }
        ensures keeps { Keeps self.old self.new }
    {
        self.core.run(&self.program, &self.code)
    }

    /// The value of a register.
    pub fn register(&self, at: u8) -> u64
        requires { at ≤ 12 }
        ensures { result ≡ register self.now.state at }
    {
        self.core.register(at)
    }

    /// The values of all registers.
    pub fn registers(&self) -> &[u64; 13]
        ensures { result.now ≡ self.now.state.registers }
    {
        self.core.registers()
    }

    /// Sets a register.
    pub fn set_register(&mut self, at: u8, value: u64)
        requires { at ≤ 12 }
        ensures { self.new ≡ record self.old { state = with_register self.old.state at value } }
    {
        self.core.set_register(at, value);
    }

    /// The memory.
    pub fn memory(&self) -> &Memory
        ensures { result.now ≡ self.now.state.memory }
    {
        self.core.memory()
    }

    /// The memory, to be changed. What the caller leaves is the machine's memory; the rest of the machine stays.
    pub fn memory_mut(&mut self) -> &mut Memory
        ensures* writes_back { sem 𝓛 (LendsMemory self.entry result) }
        ensures memory { result.now ≡ self.old.state.memory }
    {
        self.core.memory_mut()
    }

    /// Sets how many pages the memory may have when the heap grows.
    pub fn set_frame_limit(&mut self, limit: u32)
        ensures { self.new ≡ record self.old { state = record self.old.state { frame_limit = limit } } }
    {
        self.core.set_frame_limit(limit);
    }

    /// The gas that is left.
    pub fn gas(&self) -> u64
        ensures { result ≡ self.now.gas }
    {
        self.core.gas()
    }

    /// Takes an amount of the gas.
    pub fn spend(&mut self, amount: u64)
        requires { amount ≤ self.old.gas }
        ensures { self.new ≡ record self.old { gas = self.old.gas - amount } }
    {
        let gas = self.core.gas();
        self.core.set_gas(gas - amount);
    }

    /// The position of the next instruction in the code.
    pub fn counter(&self) -> u64
        ensures { result ≡ self.now.counter }
    {
        self.core.counter()
    }

    /// The address and the length of the output, which a0 and a1 name. There is none if a1 is 0, if the bytes do not end
    /// at 2^32 or before, or if one of them may not be read.
    pub fn output_range(&self) -> Option<(u32, u32)>
        ensures { result ≡ output_range self.now.state.registers self.now.state.memory }
    {
        self.core.output_range()
    }
}

/// The registers at a start, with the length of the argument: ra has the number that halts, sp the end of the stack,
/// and a0 and a1 the address and the length of the argument.
fn start_registers(len: usize) -> Registers
    ensures { result ≡ start_registers len }
{
    let mut registers = [0; 13];
    registers[0] = 0xffff_0000;
    registers[1] = 0xfefe_0000;
    registers[7] = 0xfeff_0000;
    registers[8] = len as u64;
    registers
}
