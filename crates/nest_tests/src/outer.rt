ghost use Rattle.std.specs.Prelude.{◌<◌, ◌^◌, length};

use blob_codec::Container;
use inner_machines::{Nest, Served};
use pvm_machine::Machine;
use std::alloc::Global;
use std::process::Abort;
use std::test::*;

/// jump @5, jump_ind r0 0, with a stack of 2^16 bytes, its only pages
const OUTER: [u8; 26] = [
    0x00, 0x00, 0x00, 0x00, 0x00, 0x00, 0x00, 0x00, 0x00, 0x00, 0x01, 0x0b, 0x00, 0x00, 0x00, 0x00,
    0x01, 0x07, 0x28, 0x05, 0x00, 0x00, 0x00, 0x32, 0x00, 0x21,
];

/// where the stack begins
pub const STACK: u64 = 0xfefd_0000;

/// where the gas and the registers of an inner machine are
pub const WORDS: u64 = 0xfefd_0200;

/// store_u8 of r7 at 0x1_1000, then trap
pub const STORES: [u8; 10] = [0x00, 0x01, 0x06, 0x3b, 0x07, 0x00, 0x10, 0x01, 0x00, 0x21];

/// no code
pub const EMPTY: [u8; 3] = [0x00, 0x00, 0x00];

pub const OK: u64 = 0;

pub const OOB: u64 = 0xffff_ffff_ffff_fffd;

pub const WHO: u64 = 0xffff_ffff_ffff_fffc;

pub const FULL: u64 = 0xffff_ffff_ffff_fffb;

pub const HUH: u64 = 0xffff_ffff_ffff_fff7;

/// A machine that calls, and its inner machines.
#[derive(Drop)]
pub struct Caller {
    pub outer: Machine<'static>,
    pub nest: Nest,
}

impl Caller {
    /// A machine with gas 1000 whose stack begins with a program, and no inner machine.
    pub fn with(alloc: Global, program: &[u8]) -> Result<Caller, Fail>
        requires { length program.now < 2 ^ 16 }
    {
        let container = Container::read(&OUTER)?;
        let mut outer = Machine::start(alloc, &container, 0, &[], 1000)?;
        outer.memory_mut().copy_in(STACK as u32, program)?;
        Ok(Caller {
            outer,
            nest: Nest::new(alloc),
        })
    }

    /// Serves a call with these arguments in registers 7 to 10, and returns its answer with registers 7 and 8.
    pub fn call(&mut self, number: u64, arguments: [u64; 4]) -> (Served, u64, u64) {
        self.outer.set_register(7, arguments[0]);
        self.outer.set_register(8, arguments[1]);
        self.outer.set_register(9, arguments[2]);
        self.outer.set_register(10, arguments[3]);
        let served = self.nest.serve(&mut self.outer, number);
        (served, self.outer.register(7), self.outer.register(8))
    }

    /// Makes the same call once more if an allocation failed, which changed nothing.
    pub fn call_to_the_end(
        &mut self,
        rt: &impl Abort,
        number: u64,
        arguments: [u64; 4],
    ) -> (Served, u64, u64) {
        let before = self.counts();
        let (served, seventh, eighth) = self.call(number, arguments);
        if served != Served::Memory {
            return (served, seventh, eighth);
        }
        assert_eq!(rt; (seventh, eighth), (arguments[0], arguments[1]));
        assert_eq!(rt; self.counts(), before);
        self.call(number, arguments)
    }

    /// The gas, and how many pages the outer machine has, how many inner machines there are, and how many pages they have.
    fn counts(&self) -> (u64, u32, u32, u32) {
        (
            self.outer.gas(),
            self.outer.memory().frames(),
            self.nest.machines(),
            self.nest.frames(),
        )
    }
}
