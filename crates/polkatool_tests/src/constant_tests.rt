//! Constants of one register that are joined, and those that are not.

use crate::object_file::code_alone;
use crate::phases::lift_main;
use lower::lower;
use std::alloc::Global;
use std::process::Abort;
use std::test::*;

const LUI: u32 = 0x1234_5537; // lui a0, 0x12345

const ADD: u32 = 0x6785_0513; // addi a0, a0, 0x678

const RETURN: u32 = 0x0000_8067; // jalr x0, 0(ra)

/// Words, and the opcodes and immediates of the instructions of their first block.
type Row = (&'static [u32], &'static [(u8, u64)]);

const ROWS: [Row; 10] = [
    (&[LUI, ADD, RETURN], &[(51, 0x1234_5678), (50, 0)]),
    // beq a0, a0, -4: the addition begins a block
    (&[LUI, ADD, 0xfea5_0ee3], &[(51, 0x1234_5000), (1, 0)]),
    // slli a0, a0, 12
    (
        &[LUI, 0x00c5_1513, RETURN],
        &[(20, 0x0123_4500_0000), (50, 0)],
    ),
    // addi a0, x0, -1; the second with srli a0, a0, 32
    (&[0xfff0_0513, RETURN], &[(51, u64::MAX), (50, 0)]),
    (
        &[0xfff0_0513, 0x0205_5513, RETURN],
        &[(20, 0xffff_ffff), (50, 0)],
    ),
    // addi a0, x0, 5
    (&[LUI, ADD, 0x0050_0513, RETURN], &[(51, 5), (50, 0)]),
    // fence; addi x0, x0, 0; lui a1, 0x12345
    (
        &[LUI, 0x0ff0_000f, ADD, RETURN],
        &[(51, 0x1234_5000), (149, 0x678), (50, 0)],
    ),
    (
        &[LUI, 0x0000_0013, ADD, RETURN],
        &[(51, 0x1234_5000), (149, 0x678), (50, 0)],
    ),
    (
        &[LUI, 0x1234_55b7, ADD, RETURN],
        &[(51, 0x1234_5000), (51, 0x1234_5000), (149, 0x678), (50, 0)],
    ),
    // and a0, a0, a1
    (
        &[LUI, 0x00b5_7533, RETURN],
        &[(51, 0x1234_5000), (210, 0), (50, 0)],
    ),
];

#[test]
fn constants_are_joined(rt: HostRuntime) -> Result<(), Fail> {
    for (words, instrs) in ROWS {
        see_first_block(&rt, rt.alloc(), words, instrs)?;
    }
    Ok(())
}

fn see_first_block(
    rt: &impl Abort,
    alloc: Global,
    words: &[u32],
    instrs: &[(u8, u64)],
) -> Result<(), Fail> {
    let file = code_alone(alloc, words)?;
    let lifted = lift_main(rt, alloc, &file)??.lifted;
    let blocks = lower(alloc, &lifted)?;
    assert!(rt; blocks.len() > 0);
    let block = blocks.block(0);
    assert_eq!(rt; block.len(), instrs.len(), "of {words:?}");
    for (instr, (op, x)) in block.iter().zip(instrs) {
        assert_eq!(rt; (instr.op, instr.x), (*op, *x), "of {words:?}");
    }
    Ok(())
}
