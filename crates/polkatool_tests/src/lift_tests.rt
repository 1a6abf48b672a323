//! The operations of small objects of code alone.

use crate::object_file::code_alone;
use crate::phases::lift_main;
use lift_blocks::{LiftFault, Lifted, SourceOp};
use rv_decode::{AluImm, Reg, RvOp};
use std::process::Abort;
use std::test::*;

/// A call of the word at 12, an addition, a return, and an addition at the end of the section.
const WORDS: [u32; 4] = [
    0x00c0_00ef, // jal ra, 12
    0x0015_0513, // addi a0, a0, 1
    0x0000_8067, // jalr x0, 0(ra)
    0x0025_0513, // addi a0, a0, 2
];

/// The same, with a jump into the middle of a word.
const FAULTY: [u32; 4] = [0x0060_006f, 0x0015_0513, 0x0000_8067, 0x0025_0513];

/// `addi a0, a0, imm`.
fn add(imm: i32) -> SourceOp {
    SourceOp::Plain(RvOp::OpImm {
        op: AluImm::Addi,
        rd: Reg::R(7),
        rs1: Reg::R(7),
        imm,
    })
}

#[test]
fn a_call_and_the_end_of_a_section(rt: HostRuntime) -> Result<(), Fail> {
    let file = code_alone(rt.alloc(), &WORDS)?;
    let lifted = lift_main(&rt, rt.alloc(), &file)??.lifted;
    see_lifted(&rt, &lifted);
    Ok(())
}

fn see_lifted(rt: &impl Abort, lifted: &Lifted) {
    assert_eq!(rt; lifted.len(), 5);
    assert_eq!(rt; lifted.entries(), 1);
    assert_eq!(rt; lifted.map().len(), 1);
    let call = SourceOp::Jal {
        rd: Reg::R(0),
        link: 2,
        target: 3,
    };
    let back = SourceOp::Jalr {
        rd: Reg::Zero,
        rs1: Reg::R(0),
        imm: 0,
        link: 0,
    };
    for (at, op, begins) in [
        (0, call, true),
        (1, add(1), true),
        (2, back, false),
        (3, add(2), true),
        (4, SourceOp::Plain(RvOp::Trap), false),
    ] {
        see_operation(rt, lifted, at, op, begins);
    }
    assert_eq!(rt; lifted.entry(0), 0);
    assert_eq!(rt; lifted.needed(0), 1);
}

fn see_operation(rt: &impl Abort, lifted: &Lifted, at: u32, op: SourceOp, begins: bool) {
    assert!(rt; at < lifted.len());
    assert_eq!(rt; lifted.operation(at), op, "at {at}");
    assert_eq!(rt; lifted.begins(at), begins, "at {at}");
}

#[test]
fn a_jump_into_a_word_is_the_first_fault(rt: HostRuntime) -> Result<(), Fail> {
    let file = code_alone(rt.alloc(), &FAULTY)?;
    match lift_main(&rt, rt.alloc(), &file)? {
        Err(LiftFault::Bad(fault)) => {
            assert_eq!(rt; (fault.code, fault.object), (30, 0));
            assert_eq!(rt; (fault.section, fault.offset), (1, 0));
        }
        Ok(_) | Err(LiftFault::Memory) => assert!(rt; false),
    }
    Ok(())
}
