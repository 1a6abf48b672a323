ghost use Rattle.std.specs.Prelude.{◌≡◌, ◌≤◌, ◌<◌, ◌%◌, ◌^◌, ◌+◌, false, IsTrue, slice_set};
ghost use Rattle.runs.specs.Machine.{Jump};
ghost use Rattle.runs.specs.Numbers.{named, jump_by};
ghost use Rattle.machine_state.specs.State.{State};
ghost use Rattle.machine_state.specs.Ends.{halt, panic};
ghost use Rattle.pvm_ops.specs.Opcodes.{is_known, form_of};
ghost use Rattle.pvm_ops.specs.Fetch.{IsHead, fetch_of, trap};
ghost use Rattle.blob_check.specs.Starts.{is_start};
ghost use Rattle.pvm_machine.specs.Effect.{branches, chosen};
ghost use Rattle.pvm_machine.specs.Step.{land};
ghost use Rattle.pvm_machine.specs.Outcomes.{outcome_of, put_as, Does, IsPlain, SameAfter};

use crate::accesses::{load, put_loaded, store};
use crate::operation::{Operation, decode};
use arithmetic::Condition;
use blob_check::is_start;
use blob_codec::Program;
use page_memory::Memory;
use pvm_ops::{Code, Form, Head, Instr, fetch_as, read_head, unknown_is_trap};

/// The registers of a machine.
pub(crate) type Registers = [u64; 13];

/// What an instruction came to, beside what it wrote.
#[derive(Clone, Copy, Debug, PartialEq, Eq)]
pub(crate) enum Outcome {
    /// It goes on to the instruction after it.
    Next,
    /// It goes to the block that starts at this position.
    Jump(u64),
    /// It ends the program.
    Halt,
    /// It panics, and wrote nothing.
    Panic,
    /// It accessed the page at this address, which it may not, and wrote nothing.
    Fault(u32),
    /// It calls the host by this number.
    Call(u64),
    /// The heap is to grow by a number of bytes, and a register to take its old end. Nothing is written yet.
    Sbrk(u8, u64),
}

/// A jump to a position, and a panic where no block starts there.
fn go(code: &Code<'_>, target: u64) -> Outcome
    ensures does { (s : State) → land (is_start code.now) (Jump target s) ≡ outcome_of result s }
    ensures plain { IsPlain result }
{
    if is_start(code, target) {
        Outcome::Jump(target)
    } else {
        Outcome::Panic
    }
}

/// A jump to a position where two numbers compare so.
fn branch(code: &Code<'_>, condition: Condition, x: u64, y: u64, target: u64) -> Outcome
    ensures does { (s : State) → land (is_start code.now) (branches condition x y target s) ≡ outcome_of result s }
    ensures plain { IsPlain result }
{
    if condition.holds(x, y) {
        go(code, target)
    } else {
        Outcome::Next
    }
}

/// The low 32 bits of a sum.
fn low_sum(x: u64, y: u64) -> u64
    ensures { result ≡ (x + y) % 2 ^ 32 }
{
    x.wrapping_add(y) % 0x1_0000_0000
}

/// The entry of the jump table that a number names: 2 names the first, 4 the second, and so on.
fn named(program: &Program<'_>, number: u64) -> Option<u64>
    ensures { result ≡ named program.now.table number }
{
    if number % 2 != 0 || number < 2 {
        return None;
    }
    let at = number / 2 - 1;
    if at < program.table_len() {
        Some(program.table_entry(at))
    } else {
        None
    }
}

/// A jump by a number of 32 bits: it halts, or goes to the position that the jump table has for the number.
fn go_by(code: &Code<'_>, program: &Program<'_>, number: u64) -> Outcome
    ensures does { (s : State) → land (is_start code.now) (jump_by halt panic program.now.table number s) ≡ outcome_of result s }
    ensures plain { IsPlain result }
{
    if number == 0xffff_0000 {
        return Outcome::Halt;
    }
    match named(program, number) {
        Some(target) => go(code, target),
        None => Outcome::Panic,
    }
}

/// The first of two values where a number compares so with 0, else the second.
fn chosen(condition: Condition, number: u64, x: u64, y: u64) -> u64
    ensures { result ≡ chosen condition number x y }
{
    if condition.holds(number, 0) { x } else { y }
}

/// A register takes a value.
pub(crate) fn put(registers: &mut Registers, at: u8, value: u64) -> Outcome
    requires { at ≤ 12 }
    ensures next { result ≡ Outcome.Next }
    ensures put { registers.new ≡ slice_set registers.old at value }
{
    registers[usize::from(at)] = value;
    Outcome::Next
}

/// A register takes a value as the program jumps, and stays where the jump panics.
fn put_as(outcome: Outcome, registers: &mut Registers, at: u8, value: u64) -> Outcome
    requires plain { IsPlain outcome }
    requires register { at ≤ 12 }
    ensures same { result ≡ outcome }
    ensures registers { registers.new ≡ put_as outcome registers.old at value }
{
    match outcome {
        Outcome::Next | Outcome::Jump(_) | Outcome::Halt => registers[usize::from(at)] = value,
        Outcome::Panic | Outcome::Fault(_) | Outcome::Call(_) | Outcome::Sbrk(_, _) => {}
    }
    outcome
}

/// Does an instruction at a position, as far as registers and memory go.
#[inline(always)]
#[tactic(auto, unfolding(crate::specs::Effect::effect))]
pub(crate) fn act(
    code: &Code<'_>,
    program: &Program<'_>,
    at: u64,
    instr: Instr,
    registers: &mut Registers,
    memory: &mut Memory,
) -> Outcome
    requires registers { (instr.a ≤ 12) × (instr.b ≤ 12) × (instr.d ≤ 12) }
    requires known { IsTrue (is_known instr.op) }
    ensures does { Does program.now.table code.now at instr registers.old memory.old result registers.new memory.new }
    ensures registers { SameAfter result registers.old registers.new }
    ensures memory { SameAfter result memory.old memory.new }
{
    let a = registers[instr.a as usize];
    let b = registers[instr.b as usize];
    match decode(instr.op) {
        Operation::Fallthrough => Outcome::Next,
        Operation::LoadImm | Operation::LoadImm64 => put(registers, instr.a, instr.x),
        Operation::Jump => go(code, at.wrapping_add(instr.x)),
        Operation::JumpInd => go_by(code, program, low_sum(a, instr.x)),
        Operation::LoadImmJump => {
            let outcome = go(code, at.wrapping_add(instr.y));
            put_as(outcome, registers, instr.a, instr.x)
        }
        Operation::BranchImm(condition) => {
            branch(code, condition, a, instr.x, at.wrapping_add(instr.y))
        }
        Operation::StoreImm(width) => store(memory, instr.x, width, instr.y),
        Operation::Load(width, extension) => {
            put_loaded(registers, instr.a, load(memory, instr.x, width, extension))
        }
        Operation::Store(width) => store(memory, instr.x, width, a),
        Operation::StoreImmInd(width) => store(memory, a.wrapping_add(instr.x), width, instr.y),
        Operation::StoreInd(width) => store(memory, b.wrapping_add(instr.x), width, a),
        Operation::LoadInd(width, extension) => {
            let loaded = load(memory, b.wrapping_add(instr.x), width, extension);
            put_loaded(registers, instr.a, loaded)
        }
        Operation::Unary(op) => put(registers, instr.d, op.apply(a)),
        Operation::Imm(op) => put(registers, instr.a, op.apply(b, instr.x)),
        Operation::ImmAlt(op) => put(registers, instr.a, op.apply(instr.x, b)),
        Operation::CmovImm(condition) => {
            put(registers, instr.a, chosen(condition, b, instr.x, a))
        }
        Operation::Branch(condition) => { branch(code, condition, a, b, at.wrapping_add(instr.x)) }
        Operation::LoadImmJumpInd => {
            let outcome = go_by(code, program, low_sum(b, instr.y));
            put_as(outcome, registers, instr.a, instr.x)
        }
        Operation::Register(op) => put(registers, instr.d, op.apply(a, b)),
        Operation::Cmov(condition) => {
            let d = registers[instr.d as usize];
            put(registers, instr.d, chosen(condition, b, a, d))
        }
        Operation::Trap => Outcome::Panic,
        Operation::Ecalli => Outcome::Call(instr.x),
        Operation::Sbrk => Outcome::Sbrk(instr.d, a),
    }
}

/// Does the instruction with a head that was read at a position, whose opcode has the given form. Returns the position
/// after it too.
// With the form known, the compiler keeps the arms of that form alone.
#[inline(always)]
fn act_as(
    code: &Code<'_>,
    program: &Program<'_>,
    at: u64,
    head: Head,
    form: Form,
    registers: &mut Registers,
    memory: &mut Memory,
) -> (Outcome, u64)
    requires read { IsHead code.now at head }
    requires known { IsTrue (is_known head.op) }
    requires form { form ≡ form_of head.op }
    ensures next { result.1 ≡ (fetch_of code.now at).next }
    ensures does { Does program.now.table code.now at (fetch_of code.now at).instr registers.old memory.old result.0 registers.new memory.new }
    ensures registers { SameAfter result.0 registers.old registers.new }
    ensures memory { SameAfter result.0 memory.old memory.new }
{
    let fetched = fetch_as(code, at, head, form);
    (
        act(code, program, at, fetched.instr, registers, memory),
        fetched.next,
    )
}

/// Does the trap at a position without an instruction.
#[inline(always)]
#[tactic(auto, unfolding(crate::specs::Effect::effect, crate::specs::Operations::operation_of))]
fn act_trap(
    code: &Code<'_>,
    program: &Program<'_>,
    at: u64,
    registers: &mut Registers,
    memory: &mut Memory,
) -> (Outcome, u64)
    requires { fetch_of code.now at ≡ record { instr = trap; next = at } }
    ensures next { result.1 ≡ (fetch_of code.now at).next }
    ensures does { Does program.now.table code.now at (fetch_of code.now at).instr registers.old memory.old result.0 registers.new memory.new }
    ensures registers { SameAfter result.0 registers.old registers.new }
    ensures memory { SameAfter result.0 memory.old memory.new }
{
    let _ = code;
    let _ = program;
    let _ = registers;
    let _ = memory;
    (Outcome::Panic, at)
}

/// Does the trap at a position with an unknown opcode.
#[inline(always)]
fn act_unknown(
    code: &Code<'_>,
    program: &Program<'_>,
    at: u64,
    head: Head,
    registers: &mut Registers,
    memory: &mut Memory,
) -> (Outcome, u64)
    requires read { IsHead code.now at head }
    requires unknown { is_known head.op ≡ false }
    ensures next { result.1 ≡ (fetch_of code.now at).next }
    ensures does { Does program.now.table code.now at (fetch_of code.now at).instr registers.old memory.old result.0 registers.new memory.new }
    ensures registers { SameAfter result.0 registers.old registers.new }
    ensures memory { SameAfter result.0 memory.old memory.new }
{
    unknown_is_trap(code, at, head);
    act_trap(code, program, at, registers, memory)
}

/// Does the instruction at a position, and returns the position after it too.
// The forms that programs have most come first.
#[inline(always)]
#[tactic(auto, unfolding(pvm_ops::specs::Opcodes::is_known, pvm_ops::specs::Opcodes::form_of))]
pub(crate) fn act_at(
    code: &Code<'_>,
    program: &Program<'_>,
    at: u64,
    registers: &mut Registers,
    memory: &mut Memory,
) -> (Outcome, u64)
    ensures next { result.1 ≡ (fetch_of code.now at).next }
    ensures does { Does program.now.table code.now at (fetch_of code.now at).instr registers.old memory.old result.0 registers.new memory.new }
    ensures registers { SameAfter result.0 registers.old registers.new }
    ensures memory { SameAfter result.0 memory.old memory.new }
{
    let Some(head) = read_head(code, at) else {
        return act_trap(code, program, at, registers, memory);
    };
    let op = head.op;
    if op >= 190 {
        return if op <= 230 {
            act_as(code, program, at, head, Form::RRR, registers, memory)
        } else {
            act_unknown(code, program, at, head, registers, memory)
        };
    }
    if op >= 120 {
        return if op <= 161 {
            act_as(code, program, at, head, Form::RRX, registers, memory)
        } else {
            act_from_162(code, program, at, head, registers, memory)
        };
    }
    if op >= 100 {
        return if op <= 111 {
            act_as(code, program, at, head, Form::RR, registers, memory)
        } else {
            act_unknown(code, program, at, head, registers, memory)
        };
    }
    if op >= 80 {
        return if op <= 90 {
            act_as(code, program, at, head, Form::RXO, registers, memory)
        } else {
            act_unknown(code, program, at, head, registers, memory)
        };
    }
    act_below_80(code, program, at, head, registers, memory)
}

/// The same with an opcode below those of the form RXO.
#[inline(always)]
#[tactic(auto, unfolding(pvm_ops::specs::Opcodes::is_known, pvm_ops::specs::Opcodes::form_of))]
fn act_below_80(
    code: &Code<'_>,
    program: &Program<'_>,
    at: u64,
    head: Head,
    registers: &mut Registers,
    memory: &mut Memory,
) -> (Outcome, u64)
    requires read { IsHead code.now at head }
    requires high { head.op < 80 }
    ensures next { result.1 ≡ (fetch_of code.now at).next }
    ensures does { Does program.now.table code.now at (fetch_of code.now at).instr registers.old memory.old result.0 registers.new memory.new }
    ensures registers { SameAfter result.0 registers.old registers.new }
    ensures memory { SameAfter result.0 memory.old memory.new }
{
    let op = head.op;
    if op >= 50 {
        return if op <= 62 {
            act_as(code, program, at, head, Form::RX, registers, memory)
        } else if op >= 70 && op <= 73 {
            act_as(code, program, at, head, Form::RXY, registers, memory)
        } else {
            act_unknown(code, program, at, head, registers, memory)
        };
    }
    match op {
        40 => act_as(code, program, at, head, Form::O, registers, memory),
        30..=33 => act_as(code, program, at, head, Form::XY, registers, memory),
        10 => act_as(code, program, at, head, Form::X, registers, memory),
        20 => act_as(code, program, at, head, Form::RE, registers, memory),
        0..=1 => act_as(code, program, at, head, Form::N, registers, memory),
        _ => act_unknown(code, program, at, head, registers, memory),
    }
}

/// The same with an opcode between those of the forms RRX and RRR.
#[inline(always)]
#[tactic(auto, unfolding(pvm_ops::specs::Opcodes::is_known, pvm_ops::specs::Opcodes::form_of))]
fn act_from_162(
    code: &Code<'_>,
    program: &Program<'_>,
    at: u64,
    head: Head,
    registers: &mut Registers,
    memory: &mut Memory,
) -> (Outcome, u64)
    requires read { IsHead code.now at head }
    requires low { 162 ≤ head.op }
    requires high { head.op < 190 }
    ensures next { result.1 ≡ (fetch_of code.now at).next }
    ensures does { Does program.now.table code.now at (fetch_of code.now at).instr registers.old memory.old result.0 registers.new memory.new }
    ensures registers { SameAfter result.0 registers.old registers.new }
    ensures memory { SameAfter result.0 memory.old memory.new }
{
    match head.op {
        170..=175 => act_as(code, program, at, head, Form::RRO, registers, memory),
        180 => act_as(code, program, at, head, Form::RRXY, registers, memory),
        _ => act_unknown(code, program, at, head, registers, memory),
    }
}
