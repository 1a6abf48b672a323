ghost use Rattle.std.specs.Prelude.{◌≡◌, ◌+◌, ◌<◌, ◌≤◌, ◌^◌, ◌↔◌, ◌≢◌, true, Some, None, Err, IsSome, IfNone, IfOk, OnOk, OnErr, MatchOption, length, slice_set};
ghost use Rattle.std.specs.Option.{option_copied};
ghost use Rattle.std.specs.FinMap as map;
ghost use Rattle.inner_machines.specs.Inner.{Inner, no_inners, machines, most_machines, frames, most_frames};
ghost use Rattle.inner_machines.specs.Calls.{nested, expunge_call, pages_call, peek_call, poke_call, machine_call, invoke_call, worked, words_at, with_worked, reported_by, place_for, new_inner, is_mapping, has_pages, with_changed_pages};
ghost use Rattle.page_memory.specs.Access.{least_refused};
ghost use Rattle.pvm_machine.specs.Ran.{last_answer};
ghost use Rattle.pvm_machine.specs.Outcomes.{with_registers};
ghost use Rattle.inner_machines.specs.Views.{IsSpelled, Works};
ghost use Rattle.inner_machines.specs.Served.{Leaves, MakesMachine, MayRunOut, under_gas, left_by};

use crate::answer::Served;
use crate::changes::{change, means_pages};
use crate::copies::{allows, bytes_of, copy, spells};
use crate::inner::Inner;
use crate::slots::Slots;
use crate::words::word;
use page_memory::{MapFault, Memory};
use pvm_machine::{Exit, Machine};
use std::alloc::{AllocError, Global};
use std::marker::Model;

/// The result of a call that names no machine.
const WHO: u64 = 0xffff_ffff_ffff_fffc;

/// The result of a call that was done.
const OK: u64 = 0;

/// The result of a call that names a range which the machine has not.
const OOB: u64 = 0xffff_ffff_ffff_fffd;

/// The result of a call for which there is no room.
const FULL: u64 = 0xffff_ffff_ffff_fffb;

/// The result of a call whose arguments mean nothing.
const HUH: u64 = 0xffff_ffff_ffff_fff7;

/// The most bytes that the programs of inner machines have together.
const MOST_PROGRAM_BYTES: u32 = 0x400_0000;

/// The most pages that all machines of a run have together.
const MOST_FRAMES: u32 = 131_072;

/// The inner machines of a run, at most 1,024 at a time. Together their programs have at most 2^26 bytes.
#[derive(Drop)]
pub struct Nest {
    slots: Slots,
    frames: u32,
    program_bytes: u32,
    alloc: Global,
}

impl Model for Nest {
    ghost use Rattle.inner_machines.specs.Inner.{Inners, inners_code};
    ghost use Rattle.inner_machines.specs.Views.{IsCounted};

    ghost Value = { Inners };

    ghost coded = { inners_code };

    ghost view = { λ n. n.slots };

    ghost invariant = { λ n. IsCounted n.slots n.frames n.program_bytes };
}

impl Nest {
    /// No machine.
    pub fn new(alloc: Global) -> Nest
        ensures { result ≡ no_inners }
    {
        Nest {
            slots: Slots::new(alloc),
            frames: 0,
            program_bytes: 0,
            alloc,
        }
    }

    /// Serves a call on inner machines, whose arguments are in the registers 7 to 10 of the machine that calls. After
    /// every answer but `Done` nothing changed. An allocation fails only at the calls 8 and 11.
    pub fn serve(&mut self, outer: &mut Machine<'_>, number: u64) -> Served
        ensures leaves { Leaves (left_by number outer.old self.old) outer.old self.old outer.new self.new result }
        ensures memory { result ≡ Served.Memory → MayRunOut number }
        ensures room { result ≡ Served.Memory → number ≡ 8 → MakesMachine outer.old.state self.old }
    {
        match number {
            8 => self.machine(outer),
            9 => self.peek(outer),
            10 => self.poke(outer),
            11 => self.pages(outer),
            12 => self.invoke(outer),
            13 => self.expunge(outer),
            _ => Served::NotMine,
        }
    }

    /// The number of machines.
    pub fn machines(&self) -> u32
        ensures value { result ≡ machines self.now }
        ensures bound { result ≤ most_machines }
    {
        self.slots.count()
    }

    /// How many pages the machines have together.
    pub fn frames(&self) -> u32
        ensures value { result ≡ frames self.now }
        ensures bound { result ≤ most_frames }
    {
        self.frames
    }

    /// Takes the machine with a number away.
    fn remove(&mut self, number: u64) -> Option<Inner>
        ensures found { result ≡ map.get self.old number }
        ensures gone { self.new ≡ map.remove self.old number }
        ensures same { IfNone result (self.new ≡ self.old) }
    {
        match self.slots.remove(number) {
            Some(inner) => {
                self.frames -= inner.memory().frames();
                self.program_bytes -= inner.program_len() as u32;
                Some(inner)
            }
            None => None,
        }
    }

    /// Puts a result into register 7 of the machine that calls, which may have the pages that the inner ones leave.
    fn answer(&self, outer: &mut Machine<'_>, word: u64) -> Served
        ensures done { result ≡ Served.Done }
        ensures outer { outer.new ≡ record outer.old { state = (nested outer.old.state (slice_set outer.old.state.registers 7 word) self.now).state } }
    {
        outer.set_register(7, word);
        outer.set_frame_limit(MOST_FRAMES - self.frames());
        Served::Done
    }

    /// The call `expunge`.
    fn expunge(&mut self, outer: &mut Machine<'_>) -> Served
        ensures leaves { Leaves (under_gas outer.old self.old (expunge_call outer.old.state self.old)) outer.old self.old outer.new self.new result }
        ensures answered { result ≢ Served.Memory }
    {
        let number = outer.register(7);
        match self.remove(number) {
            Some(inner) => self.answer(outer, inner.counter()),
            None => self.answer(outer, WHO),
        }
    }

    /// The call `pages`.
    fn pages(&mut self, outer: &mut Machine<'_>) -> Served
        ensures { Leaves (under_gas outer.old self.old (pages_call outer.old.state self.old)) outer.old self.old outer.new self.new result }
    {
        let number = outer.register(7);
        let first = outer.register(8);
        let count = outer.register(9);
        let how = outer.register(10);
        let Some(inner) = self.slots.find(number) else {
            return self.answer(outer, WHO);
        };
        if !means_pages(inner.memory(), how, first, count) {
            return self.answer(outer, HUH);
        }
        let frames = outer.memory().frames();
        match self.change(number, how, first as u32, count as u32, frames) {
            Ok(()) => self.answer(outer, OK),
            Err(MapFault::Full) => self.answer(outer, FULL),
            Err(MapFault::Memory) => Served::Memory,
        }
    }

    /// Changes pages of the machine with a number. `Full` if with new zero pages all machines together, and the machine that
    /// calls, would have more than the limit.
    fn change(
        &mut self,
        number: u64,
        how: u64,
        first: u32,
        count: u32,
        outer: u32,
    ) -> Result<(), MapFault>
        requires known { how ≤ 4 }
        requires low { 16 ≤ first }
        requires high { first + count ≤ 2 ^ 20 }
        requires there { (inner : Inner) → map.get self.old number ≡ Some inner → 2 < how → has_pages inner.memory first count ≡ true }
        ensures full { (inner : Inner) → map.get self.old number ≡ Some inner → (result ≡ Err MapFault.Full) ↔ ((is_mapping how ≡ true) × (most_frames < outer + frames (with_changed_pages how first count self.old number inner))) }
        ensures changed { (inner : Inner) → map.get self.old number ≡ Some inner → OnOk result (self.new ≡ with_changed_pages how first count self.old number inner) }
        ensures stays { OnErr result (self.new ≡ self.old) }
    {
        let Some(inner) = self.slots.find_mut(number) else {
            return Ok(());
        };
        let before = inner.memory().frames();
        let others = u64::from(outer) + u64::from(self.frames - before);
        let changed = change(inner.memory_mut(), how, first, count, others);
        self.frames = self.frames - before + inner.memory().frames();
        changed
    }

    /// The call `peek`.
    fn peek(&mut self, outer: &mut Machine<'_>) -> Served
        ensures leaves { Leaves (under_gas outer.old self.old (peek_call outer.old.state self.old)) outer.old self.old outer.new self.new result }
        ensures answered { result ≢ Served.Memory }
    {
        let number = outer.register(7);
        let to = outer.register(8);
        let from = outer.register(9);
        let len = outer.register(10);
        if !allows(outer.memory(), true, to, len) {
            return Served::Panic;
        }
        let Some(inner) = self.slots.find(number) else {
            return self.answer(outer, WHO);
        };
        if !allows(inner.memory(), false, from, len) {
            return self.answer(outer, OOB);
        }
        copy(inner.memory(), from, outer.memory_mut(), to, len);
        self.answer(outer, OK)
    }

    /// The call `poke`.
    fn poke(&mut self, outer: &mut Machine<'_>) -> Served
        ensures leaves { Leaves (under_gas outer.old self.old (poke_call outer.old.state self.old)) outer.old self.old outer.new self.new result }
        ensures answered { result ≢ Served.Memory }
    {
        let number = outer.register(7);
        let from = outer.register(8);
        let to = outer.register(9);
        let len = outer.register(10);
        if !allows(outer.memory(), false, from, len) {
            return Served::Panic;
        }
        let Some(inner) = self.slots.find_mut(number) else {
            return self.answer(outer, WHO);
        };
        if !allows(inner.memory(), true, to, len) {
            return self.answer(outer, OOB);
        }
        copy(outer.memory(), from, inner.memory_mut(), to, len);
        self.answer(outer, OK)
    }

    /// The call `machine`. The range is copied only if it spells a program and there is room for it.
    fn machine(&mut self, outer: &mut Machine<'_>) -> Served
        ensures leaves { Leaves (under_gas outer.old self.old (machine_call outer.old.state self.old)) outer.old self.old outer.new self.new result }
        ensures memory { result ≡ Served.Memory → MakesMachine outer.old.state self.old }
    {
        let at = outer.register(7);
        let len = outer.register(8);
        let counter = outer.register(9);
        if !allows(outer.memory(), false, at, len) {
            return Served::Panic;
        }
        if !spells(outer.memory(), at, len) {
            return self.answer(outer, HUH);
        }
        let Some(number) = self.place_for(len) else {
            return self.answer(outer, FULL);
        };
        let Ok(bytes) = bytes_of(self.alloc, outer.memory(), at, len) else {
            return Served::Memory;
        };
        match self.place(number, bytes, counter) {
            Ok(()) => self.answer(outer, number),
            Err(_) => Served::Memory,
        }
    }

    /// The number for a machine whose program has so many bytes, if there is room for it.
    fn place_for(&self, len: u64) -> Option<u64>
        ensures { result ≡ place_for self.now len }
    {
        if len > u64::from(MOST_PROGRAM_BYTES - self.program_bytes) {
            return None;
        }
        self.slots.least_free()
    }

    /// Makes a machine of a program, with the number that there is for it.
    fn place(&mut self, number: u64, program: Vec<u8>, counter: u64) -> Result<(), AllocError>
        requires spelled { IsSpelled program.items }
        requires room { place_for self.old (length program.items) ≡ Some number }
        ensures added { OnOk result (self.new ≡ map.insert self.old number (new_inner program.items counter)) }
        ensures stays { OnErr result (self.new ≡ self.old) }
    {
        let len = program.len();
        self.slots
            .add(number, Inner::new(self.alloc, program, counter))?;
        self.program_bytes += len as u32;
        Ok(())
    }

    /// The call `invoke`.
    fn invoke(&mut self, outer: &mut Machine<'_>) -> Served
        ensures leaves { Leaves (under_gas outer.old self.old (invoke_call outer.old.state self.old)) outer.old self.old outer.new self.new result }
        ensures answered { result ≢ Served.Memory }
    {
        let number = outer.register(7);
        let at = outer.register(8);
        if !allows(outer.memory(), true, at, 112) {
            return Served::Panic;
        }
        let at = at as u32;
        let Some(_inner) = self.slots.find(number) else {
            return self.answer(outer, WHO);
        };
        let gas = word(outer.memory(), at);
        if gas > outer.gas() {
            return Served::OutOfGas;
        }
        let (exit, left) = self.work(number, outer.memory_mut(), at, gas);
        outer.spend(gas - left);
        report(outer, exit);
        outer.set_frame_limit(MOST_FRAMES - self.frames());
        Served::Done
    }

    /// The machine with a number works, as `Inner::work` says.
    fn work(&mut self, number: u64, outer: &mut Memory, at: u32, gas: u64) -> (Exit, u64)
        requires is_there { IsSome (map.get self.old number) }
        requires fits { at + 112 ≤ 2 ^ 32 }
        requires free { least_refused outer.old true at 112 ≡ None }
        ensures less { result.1 ≤ gas }
        ensures worked { (inner : Inner) → map.get self.old number ≡ Some inner → Works inner outer.old at gas outer.new result.0 result.1 }
        ensures inners { (inner : Inner) → map.get self.old number ≡ Some inner → self.new ≡ with_worked self.old number inner (worked inner (words_at outer.old (at + 8) 13) gas) }
    {
        let Some(inner) = self.slots.find_mut(number) else {
            return (Exit::Panic, 0);
        };
        inner.work(outer, at, gas)
    }
}

/// Sets registers 7 and 8 of the machine that calls by how an inner machine stopped.
fn report(outer: &mut Machine<'_>, exit: Exit)
    ensures { outer.new ≡ record outer.old { state = with_registers outer.old.state (reported_by outer.old.state.registers (last_answer exit)) } }
{
    match exit {
        Exit::Halt => outer.set_register(7, 0),
        Exit::Panic => outer.set_register(7, 1),
        Exit::Fault(page) => {
            outer.set_register(7, 2);
            outer.set_register(8, u64::from(page));
        }
        Exit::Host(number) => {
            outer.set_register(7, 3);
            outer.set_register(8, number);
        }
        Exit::OutOfGas => outer.set_register(7, 4),
        Exit::Memory => {}
    }
}
