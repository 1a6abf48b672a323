//! A case or more for every opcode that is built: one instruction is done on registers that were set before, and the
//! values are worked out by hand from the tables of the Gray Paper and of the RISC-V manual.

use crate::programs::push_program;
use blob_codec::Container;
use pvm_machine::{Machine, Step};
use std::alloc::Global;
use std::process::Abort;
use std::test::*;

/// -1, and the greatest natural number.
const ONES: u64 = 0xffff_ffff_ffff_ffff;

/// -2^31 as a word, which is also what 2^31 is as a result of 32 bits.
const LEAST_32: u64 = 0xffff_ffff_8000_0000;

/// -2^63 as a word.
const LEAST: u64 = 0x8000_0000_0000_0000;

/// -7.
const MINUS_SEVEN: u64 = 0xffff_ffff_ffff_fff9;

/// -3.
const MINUS_THREE: u64 = 0xffff_ffff_ffff_fffd;

/// The number by which a program returns.
const RETURN: u64 = 0xffff_0000;

/// Registers 7, 8 and 9.
type Three = (u64, u64, u64);

/// The result of a step: its answer, the position of the machine, and registers 7, 8 and 9.
type After = (Step, u64, Three);

/// Executes the instruction at the start of a code, with registers 7, 8 and 9 set. A `fallthrough` comes after it.
fn after(rt: &impl Abort, alloc: Global, instr: &[u8], registers: Three) -> Result<After, Fail> {
    assert!(rt; instr.len() <= 10);
    // no data, no zero pages and no stack
    let mut bytes = vec![in alloc; 0; 11]?;
    push_program(&mut bytes, instr)?;
    let container = Container::read(bytes.as_slice())?;
    let mut machine = Machine::start(alloc, &container, 0, &[], 1)?;
    machine.set_register(7, registers.0);
    machine.set_register(8, registers.1);
    machine.set_register(9, registers.2);
    let answer = machine.step();
    let left = (
        machine.register(7),
        machine.register(8),
        machine.register(9),
    );
    Ok((answer, machine.counter(), left))
}

/// An opcode, register 8, and what register 7 takes.
const UNARY: [(u8, u64, u64); 17] = [
    (100, 5, 5),
    (102, 0x8000_0001_0000_0100, 3),
    (103, 0x8000_0001_0000_0100, 1),
    (104, 1, 63),
    (104, 0, 64),
    (105, 1, 31),
    (105, 0xffff_ffff_0000_0000, 32),
    (106, 8, 3),
    (106, 0, 64),
    (107, 8, 3),
    (107, 0x1_0000_0000, 32),
    (108, 0x80, 0xffff_ffff_ffff_ff80),
    (108, 0x817f, 0x7f),
    (109, 0x8000, 0xffff_ffff_ffff_8000),
    (109, 0x8001_7fff, 0x7fff),
    (110, 0x1_8000, 0x8000),
    (111, 0x102_0304_0506_0708, 0x807_0605_0403_0201),
];

#[test]
fn two_registers(rt: HostRuntime) -> Result<(), Fail> {
    for row in UNARY {
        see_unary(&rt, rt.alloc(), row)?;
    }
    Ok(())
}

fn see_unary(rt: &impl Abort, alloc: Global, row: (u8, u64, u64)) -> Result<(), Fail> {
    let (op, value, want) = row;
    let found = after(rt, alloc, &[op, 0x87], (1, value, 2))?;
    assert_eq!(rt;
        found,
        (Step::Next, 2, (want, value, 2)),
        "opcode {op} of {value:x}"
    );
    Ok(())
}

/// An opcode, register 8, an immediate, and what register 7 takes.
const IMMEDIATE_32: [(u8, u64, i8, u64); 26] = [
    (131, 0x7fff_ffff, 1, LEAST_32),
    (132, 0x1234, -16, 0x1230),
    (133, 15, -1, 0xffff_ffff_ffff_fff0),
    (134, 0x100, 15, 0x10f),
    (135, 0x4000_0001, 2, 0xffff_ffff_8000_0002),
    (136, 1, -1, 1),
    (136, ONES, 1, 0),
    (137, ONES, 1, 1),
    (137, 1, -1, 0),
    (138, 1, 31, LEAST_32),
    (138, 1, 33, 2),
    (139, LEAST_32, 4, 0x800_0000),
    (139, LEAST_32, 32, LEAST_32),
    (140, 0x8000_0000, 4, 0xffff_ffff_f800_0000),
    (140, 0x7000_0000, 36, 0x700_0000),
    (141, 1, 0, ONES),
    (141, 0x8000_0000, 0, LEAST_32),
    (142, ONES, 1, 1),
    (142, 1, -1, 0),
    (143, 1, -1, 1),
    (143, ONES, 1, 0),
    (144, 31, 1, LEAST_32),
    (144, 33, 1, 2),
    (145, 28, -1, 15),
    (145, 32, -1, ONES),
    (146, 36, -128, 0xffff_ffff_ffff_fff8),
];

#[test]
fn immediates_of_32_bits(rt: HostRuntime) -> Result<(), Fail> {
    for row in IMMEDIATE_32 {
        see_immediate(&rt, rt.alloc(), row)?;
    }
    Ok(())
}

/// An opcode, register 8, an immediate, and what register 7 takes.
const IMMEDIATE_64: [(u8, u64, i8, u64); 16] = [
    (149, ONES, 2, 1),
    (150, 3, -2, 0xffff_ffff_ffff_fffa),
    (151, 3, 63, LEAST),
    (151, 3, 65, 6),
    (152, LEAST, 63, 1),
    (152, LEAST, 64, LEAST),
    (153, LEAST, 63, ONES),
    (154, 7, 5, 0xffff_ffff_ffff_fffe),
    (155, 63, 3, LEAST),
    (155, 65, 3, 6),
    (156, 60, -1, 15),
    (157, 68, -128, 0xffff_ffff_ffff_fff8),
    (158, 4, 3, LEAST),
    (159, 4, 3, 0x3000_0000_0000_0000),
    (160, 4, 3, LEAST_32),
    (161, 4, 3, 0x3000_0000),
];

#[test]
fn immediates_of_64_bits(rt: HostRuntime) -> Result<(), Fail> {
    for row in IMMEDIATE_64 {
        see_immediate(&rt, rt.alloc(), row)?;
    }
    Ok(())
}

fn see_immediate(rt: &impl Abort, alloc: Global, row: (u8, u64, i8, u64)) -> Result<(), Fail> {
    let (op, value, x, want) = row;
    let found = after(rt, alloc, &[op, 0x87, x.cast_unsigned()], (1, value, 2))?;
    assert_eq!(rt;
        found,
        (Step::Next, 3, (want, value, 2)),
        "opcode {op} of {value:x} and {x}"
    );
    Ok(())
}

/// An opcode, registers 7 and 8, and what register 9 takes.
const BINARY_32: [(u8, u64, u64, u64); 19] = [
    (190, 0x7fff_ffff, 1, LEAST_32),
    (191, 0, 1, ONES),
    (192, 0x1_0000, 0x8000, LEAST_32),
    (193, 0xffff_ffff, 2, 0x7fff_ffff),
    (193, 5, 0x1_0000_0000, ONES),
    (194, MINUS_SEVEN, 2, MINUS_THREE),
    (194, 0x8000_0000, ONES, LEAST_32),
    (194, 1, 0, ONES),
    (194, 5, 0x1_0000_0000, ONES),
    (195, 0xffff_ffff, 16, 15),
    (195, 0x8000_0001, 0, 0xffff_ffff_8000_0001),
    (196, MINUS_SEVEN, 2, ONES),
    (196, 0x8000_0000, ONES, 0),
    (196, 0x1_8000_0001, 0, 0xffff_ffff_8000_0001),
    (197, 1, 31, LEAST_32),
    (197, 1, 32, 1),
    (198, 0x8000_0000, 32, LEAST_32),
    (198, 16, 36, 1),
    (199, 0x8000_0000, 4, 0xffff_ffff_f800_0000),
];

#[test]
fn three_registers_of_32_bits(rt: HostRuntime) -> Result<(), Fail> {
    for row in BINARY_32 {
        see_binary(&rt, rt.alloc(), row)?;
    }
    Ok(())
}

/// An opcode, registers 7 and 8, and what register 9 takes.
const BINARY_64: [(u8, u64, u64, u64); 19] = [
    (200, ONES, 2, 1),
    (201, 1, 2, ONES),
    (202, 3, 5, 15),
    (202, 0x1_0000_0000, 0x1_0000_0000, 0),
    (203, ONES, 2, 0x7fff_ffff_ffff_ffff),
    (203, 5, 0, ONES),
    (204, MINUS_SEVEN, 2, MINUS_THREE),
    (204, LEAST, ONES, LEAST),
    (204, 5, 0, ONES),
    (205, ONES, 10, 5),
    (205, 5, 0, 5),
    (206, MINUS_SEVEN, 2, ONES),
    (206, LEAST, ONES, 0),
    (206, MINUS_SEVEN, 0, MINUS_SEVEN),
    (207, 3, 63, LEAST),
    (207, 3, 64, 3),
    (208, LEAST, 63, 1),
    (209, LEAST, 63, ONES),
    (209, LEAST, 64, LEAST),
];

#[test]
fn three_registers_of_64_bits(rt: HostRuntime) -> Result<(), Fail> {
    for row in BINARY_64 {
        see_binary(&rt, rt.alloc(), row)?;
    }
    Ok(())
}

/// An opcode, registers 7 and 8, and what register 9 takes.
const BITS: [(u8, u64, u64, u64); 26] = [
    (210, 12, 10, 8),
    (211, 12, 10, 6),
    (212, 12, 10, 14),
    (213, ONES, 1, ONES),
    (213, ONES, ONES, 0),
    (214, ONES, ONES, 0xffff_ffff_ffff_fffe),
    (215, ONES, ONES, ONES),
    (215, 1, ONES, 0),
    (216, 1, ONES, 1),
    (216, ONES, 1, 0),
    (217, 1, ONES, 0),
    (217, ONES, 1, 1),
    (220, 0x8000_0000_0000_0001, 1, 3),
    (220, 1, 68, 16),
    (221, 0x8000_0001, 1, 3),
    (221, 0x4000_0000, 33, LEAST_32),
    (222, 1, 1, LEAST),
    (223, 1, 1, LEAST_32),
    (223, 2, 33, 1),
    (224, 12, 10, 4),
    (225, 12, 10, MINUS_THREE),
    (226, 12, 10, MINUS_SEVEN),
    (227, 1, ONES, 1),
    (228, 1, ONES, ONES),
    (229, 1, ONES, ONES),
    (230, 1, ONES, 1),
];

#[test]
fn bits_comparisons_and_rotations_of_three_registers(rt: HostRuntime) -> Result<(), Fail> {
    for row in BITS {
        see_binary(&rt, rt.alloc(), row)?;
    }
    Ok(())
}

fn see_binary(rt: &impl Abort, alloc: Global, row: (u8, u64, u64, u64)) -> Result<(), Fail> {
    let (op, a, b, want) = row;
    let found = after(rt, alloc, &[op, 0x87, 9], (a, b, 2))?;
    assert_eq!(rt;
        found,
        (Step::Next, 3, (a, b, want)),
        "opcode {op} of {a:x} and {b:x}"
    );
    Ok(())
}

/// An opcode with its last byte, the registers before, and registers 7 and 9 after.
const MOVES: [(u8, u8, Three, (u64, u64)); 8] = [
    (147, 0xfd, (1, 0, 2), (MINUS_THREE, 2)),
    (147, 0xfd, (1, 1, 2), (1, 2)),
    (148, 0xfd, (1, 0, 2), (1, 2)),
    (148, 0xfd, (1, 1, 2), (MINUS_THREE, 2)),
    (218, 9, (5, 0, 2), (5, 5)),
    (218, 9, (5, 1, 2), (5, 2)),
    (219, 9, (5, 0, 2), (5, 2)),
    (219, 9, (5, 1, 2), (5, 5)),
];

#[test]
fn conditional_moves(rt: HostRuntime) -> Result<(), Fail> {
    for row in MOVES {
        see_move(&rt, rt.alloc(), row)?;
    }
    Ok(())
}

fn see_move(rt: &impl Abort, alloc: Global, row: (u8, u8, Three, (u64, u64))) -> Result<(), Fail> {
    let (op, last, registers, (a, d)) = row;
    let found = after(rt, alloc, &[op, 0x87, last], registers)?;
    let b = registers.1;
    assert_eq!(rt; found, (Step::Next, 3, (a, b, d)), "opcode {op} with {b}");
    Ok(())
}

/// The numbers that branches compare. The second is in register 8, or is a byte of the code.
const COMPARED: [(u64, u64, u8); 3] = [(1, 1, 1), (1, ONES, 0xff), (ONES, 1, 1)];

/// An opcode, and at which of these numbers a branch to its own position is taken.
const BRANCHES_ON_IMMEDIATES: [(u8, [bool; 3]); 10] = [
    (81, [true, false, false]),
    (82, [false, true, true]),
    (83, [false, true, false]),
    (84, [true, true, false]),
    (85, [true, false, true]),
    (86, [false, false, true]),
    (87, [false, false, true]),
    (88, [true, false, true]),
    (89, [true, true, false]),
    (90, [false, true, false]),
];

#[test]
fn branches_with_an_immediate(rt: HostRuntime) -> Result<(), Fail> {
    for (op, taken) in BRANCHES_ON_IMMEDIATES {
        for at in 0..3usize {
            let (a, _, x) = COMPARED[at];
            let next = if taken[at] { 0 } else { 3 };
            see_branch(&rt, rt.alloc(), &[op, 0x17, x], (a, 2, 3), next)?;
        }
    }
    Ok(())
}

/// An opcode, and at which of these numbers a branch to its own position is taken.
const BRANCHES_ON_REGISTERS: [(u8, [bool; 3]); 6] = [
    (170, [true, false, false]),
    (171, [false, true, true]),
    (172, [false, true, false]),
    (173, [false, false, true]),
    (174, [true, false, true]),
    (175, [true, true, false]),
];

#[test]
fn branches_of_two_registers(rt: HostRuntime) -> Result<(), Fail> {
    for (op, taken) in BRANCHES_ON_REGISTERS {
        for at in 0..3usize {
            let (a, b, _) = COMPARED[at];
            let next = if taken[at] { 0 } else { 2 };
            see_branch(&rt, rt.alloc(), &[op, 0x87], (a, b, 3), next)?;
        }
    }
    Ok(())
}

/// Asserts where a branch leaves the machine, which changes no register.
fn see_branch(
    rt: &impl Abort,
    alloc: Global,
    instr: &[u8],
    registers: Three,
    next: u64,
) -> Result<(), Fail> {
    let found = after(rt, alloc, instr, registers)?;
    assert_eq!(rt; found, (Step::Next, next, registers), "{registers:?}");
    Ok(())
}

/// An instruction, the registers before, and what a step leaves.
type Row = (&'static [u8], Three, After);

/// -3 in one byte, and a word of eight.
const IMMEDIATES: [Row; 2] = [
    (
        &[51, 7, 0xfd],
        (1, 2, 3),
        (Step::Next, 3, (MINUS_THREE, 2, 3)),
    ),
    (
        &[20, 7, 0x08, 0x07, 0x06, 0x05, 0x04, 0x03, 0x02, 0x81],
        (1, 2, 3),
        (Step::Next, 10, (0x8102_0304_0506_0708, 2, 3)),
    ),
];

/// Registers before a jump.
const BEFORE: Three = (1, RETURN, 3);

const WRAPS: Three = (1, RETURN + 0x1_0000_0001, 3);

const LESS: Three = (1, RETURN + 1, 3);

const TRAPS_AND_JUMPS: [Row; 7] = [
    (&[0], BEFORE, (Step::Panic, 0, BEFORE)),
    (&[1], BEFORE, (Step::Next, 1, BEFORE)),
    // to the block after it, and to where none starts
    (&[40, 2], BEFORE, (Step::Next, 2, BEFORE)),
    (&[40, 1], BEFORE, (Step::Panic, 0, BEFORE)),
    // by a number: the one that returns, as a sum modulo 2^32 too, and one that names nothing
    (&[50, 8], BEFORE, (Step::Halt, 0, BEFORE)),
    (&[50, 8, 0xff], WRAPS, (Step::Halt, 0, WRAPS)),
    (&[50, 7], BEFORE, (Step::Panic, 0, BEFORE)),
];

const JUMPS_THAT_WRITE: [Row; 6] = [
    // to its own position, and to where no block starts, which writes nothing
    (&[80, 0x17, 5], BEFORE, (Step::Next, 0, (5, RETURN, 3))),
    (&[80, 0x17, 5, 1], BEFORE, (Step::Panic, 0, BEFORE)),
    // by a number of another register, and of the one that is written, which is read first
    (&[180, 0x87, 1, 5], BEFORE, (Step::Halt, 0, (5, RETURN, 3))),
    (&[180, 0x88, 1, 5], BEFORE, (Step::Halt, 0, (1, 5, 3))),
    (&[180, 0x88, 1, 5, 0xff], LESS, (Step::Halt, 0, (1, 5, 3))),
    (&[180, 0x78, 1, 5], BEFORE, (Step::Panic, 0, BEFORE)),
];

#[test]
fn immediates_traps_and_jumps(rt: HostRuntime) -> Result<(), Fail> {
    for row in IMMEDIATES {
        see(&rt, rt.alloc(), row)?;
    }
    for row in TRAPS_AND_JUMPS {
        see(&rt, rt.alloc(), row)?;
    }
    for row in JUMPS_THAT_WRITE {
        see(&rt, rt.alloc(), row)?;
    }
    Ok(())
}

fn see(rt: &impl Abort, alloc: Global, row: Row) -> Result<(), Fail> {
    let (instr, registers, want) = row;
    assert_eq!(rt; after(rt, alloc, instr, registers)?, want, "{instr:?}");
    Ok(())
}
