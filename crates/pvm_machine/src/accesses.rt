ghost use Rattle.std.specs.Prelude.{◌≡◌, ◌≤◌, ◌*◌, ◌%◌, ◌^◌};
ghost use Rattle.machine_state.specs.State.{State, with_memory};
ghost use Rattle.numbers.specs.Words.{sign_extend};
ghost use Rattle.page_memory.specs.Access as access;
ghost use Rattle.page_memory.specs.Answers.{reported};
ghost use Rattle.page_memory.specs.Outcomes.{widened, stores};
ghost use Rattle.pvm_machine.specs.Effect.{bytes_of, has_sign};
ghost use Rattle.pvm_machine.specs.Outcomes.{outcome_of, refused_as, outcome_by, registers_by, word_by, SameAfter};

use crate::instructions::{Outcome, Registers, put};
use crate::operation::{Extension, Width};
use arithmetic::{Binary, Unary};
use page_memory::{Access, Memory};

/// The word that a register takes of the memory at an address, which is taken modulo 2^32.
#[inline]
pub(crate) fn load(
    memory: &Memory,
    address: u64,
    width: Width,
    extension: Extension,
) -> Result<u64, Access>
    ensures { result ≡ reported (word_by (widened (has_sign extension) (bytes_of width)) (access.load memory.now (address % 2 ^ 32) (bytes_of width))) }
{
    match read(memory, low_32(address), width) {
        Ok(number) => Ok(widen(number, width, extension)),
        Err(access) => Err(access),
    }
}

/// A register takes a word, and stays where its load was refused.
#[inline]
pub(crate) fn put_loaded(registers: &mut Registers, at: u8, loaded: Result<u64, Access>) -> Outcome
    requires { at ≤ 12 }
    ensures outcome { result ≡ outcome_by loaded }
    ensures registers { registers.new ≡ registers_by registers.old at loaded }
{
    match loaded {
        Ok(word) => put(registers, at, word),
        Err(access) => refused(access),
    }
}

/// The memory at an address, which is taken modulo 2^32, becomes the low bytes of a value.
#[inline]
pub(crate) fn store(memory: &mut Memory, address: u64, width: Width, value: u64) -> Outcome
    ensures does { (s : State) → stores (bytes_of width) address value (with_memory s memory.old) ≡ outcome_of result (with_memory s memory.new) }
    ensures kept { SameAfter result memory.old memory.new }
{
    match write(memory, low_32(address), width, value) {
        Ok(()) => Outcome::Next,
        Err(access) => refused(access),
    }
}

/// The end of a program whose access is refused.
fn refused(access: Access) -> Outcome
    ensures { result ≡ refused_as access }
{
    match access {
        Access::Low => Outcome::Panic,
        Access::Fault(page) => Outcome::Fault(page),
    }
}

/// The address that a word is.
fn low_32(word: u64) -> u32
    ensures { result ≡ word % 2 ^ 32 }
{
    (word % 0x1_0000_0000) as u32
}

/// The number of the bytes at an address.
#[inline]
fn read(memory: &Memory, at: u32, width: Width) -> Result<u64, Access>
    ensures { result ≡ reported (access.load memory.now at (bytes_of width)) }
{
    match width {
        Width::One => memory.read8(at),
        Width::Two => memory.read16(at),
        Width::Four => memory.read32(at),
        Width::Eight => memory.read64(at),
    }
}

/// Stores the low bytes of a value at an address.
#[inline]
fn write(memory: &mut Memory, at: u32, width: Width, value: u64) -> Result<(), Access>
    ensures answer { result ≡ reported (access.store_answer memory.old at (bytes_of width)) }
    ensures memory { memory.new ≡ access.store memory.old at (bytes_of width) value }
{
    match width {
        Width::One => memory.write8(at, value),
        Width::Two => memory.write16(at, value),
        Width::Four => memory.write32(at, value),
        Width::Eight => memory.write64(at, value),
    }
}

/// The word that loaded bytes fill.
#[inline]
fn widen(number: u64, width: Width, extension: Extension) -> u64
    ensures { result ≡ widened (has_sign extension) (bytes_of width) number }
{
    match extension {
        Extension::Plain => low_bytes(number, width),
        Extension::Signed => with_sign(number, width),
    }
}

/// The low bytes of a number.
#[inline]
fn low_bytes(number: u64, width: Width) -> u64
    ensures { result ≡ number % 2 ^ (8 * bytes_of width) }
{
    match width {
        Width::One => number % 0x100,
        Width::Two => number % 0x1_0000,
        Width::Four => number % 0x1_0000_0000,
        Width::Eight => number,
    }
}

/// The low bytes of a number, with their sign above them.
#[inline]
fn with_sign(number: u64, width: Width) -> u64
    ensures { result ≡ sign_extend (8 * bytes_of width) number }
{
    match width {
        Width::One => Unary::SignExtend8.apply(number),
        Width::Two => Unary::SignExtend16.apply(number),
        // a sum of 32 bits is a word with its sign
        Width::Four => Binary::Add32.apply(number, 0),
        Width::Eight => number,
    }
}
