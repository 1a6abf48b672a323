ghost use Rattle.std.specs.Prelude.{◌<◌};

use super::*;
use blob_codec::Program;
use pvm_ops::Code;
use std::process::Abort;
use std::test::*;

#[test]
fn blocks_start_at_the_front_and_after_jumps(rt: HostRuntime) -> Result<(), Fail> {
    // jump @5, load_imm r7 5, jump_ind r0 0
    let bytes = [0x28, 0x05, 0x00, 0x00, 0x00, 0x33, 0x07, 0x05, 0x32, 0x00];
    let code = Code::new(&bytes, &[0x21, 0x01]);
    for (at, want) in [
        (0, true),
        (1, false),
        (5, true),
        (8, false),
        (10, false),
        (u64::MAX, false),
    ] {
        assert_eq!(rt; is_start(&code, at), want, "at {at}");
    }
    Ok(())
}

#[test]
fn a_block_follows_the_longest_instruction(rt: HostRuntime) -> Result<(), Fail> {
    // fallthrough with 24 bytes of operands, and then trap
    let mut bytes = [0; 27];
    bytes[0] = 1;
    assert!(rt; is_start(&Code::new(&bytes, &[0x01, 0x00, 0x00, 0x02]), 25));
    // no instruction takes more, so that none leads to the next position
    assert!(rt; !is_start(&Code::new(&bytes, &[0x01, 0x00, 0x00, 0x04]), 26));
    // no block starts at an opcode that is unknown
    bytes[25] = 2;
    assert!(rt; !is_start(&Code::new(&bytes, &[0x01, 0x00, 0x00, 0x02]), 25));
    Ok(())
}

/// A mask with marks at two positions.
fn two_marks(first: usize, second: usize) -> [u8; 14]
    requires first { first < 112 }
    requires second { second < 112 }
{
    let mut mask = [0; 14];
    mask[first / 8] |= 1u8 << (first % 8);
    mask[second / 8] |= 1u8 << (second % 8);
    mask
}

#[test]
fn the_nearest_mark_decides_in_a_long_code(rt: HostRuntime) {
    // fallthrough all over, so that each marked position ends a block
    let bytes = [1; 112];
    for from in 0..72usize {
        for gap in 1..=40usize {
            let at = from + gap;
            let mask = two_marks(from, at);
            let code = Code::new(&bytes, &mask);
            assert_eq!(rt;
                is_start(&code, at as u64),
                gap <= 25,
                "at {at}, a mark at {from}"
            );
            let len = at + 1;
            let code = Code::new(&bytes[..len], &mask[..len.div_ceil(8)]);
            assert_eq!(rt;
                is_start(&code, at as u64),
                gap <= 25,
                "at the end {at}, a mark at {from}"
            );
        }
    }
}

#[test]
fn a_mark_in_between_leads_nowhere(rt: HostRuntime) {
    for at in 1..112usize {
        // load_imm right before, and fallthrough further back
        let mut bytes = [1; 112];
        bytes[at - 1] = 51;
        let mask = [255; 14];
        assert!(rt; !is_start(&Code::new(&bytes, &mask), at as u64), "at {at}");
    }
}

/// What a check answers of the program that the bytes are.
fn answers(rt: &impl Abort, bytes: &[u8], want: Option<CheckFault>) {
    let Ok(program) = Program::read(bytes) else {
        assert!(rt; false, "no program");
        return;
    };
    assert_eq!(rt; check(program).err(), want);
}

#[test]
fn checks_programs(rt: HostRuntime) {
    let rt = &rt;
    // jump @5, load_imm r7 5, jump_ind r0 0
    let program = [0, 1, 10, 0x28, 5, 0, 0, 0, 0x33, 7, 5, 0x32, 0, 0x21, 0x01];
    answers(rt, &program, None);
    // the same with a table that leads to position 5
    let with_table = [
        1, 1, 10, 5, 0x28, 5, 0, 0, 0, 0x33, 7, 5, 0x32, 0, 0x21, 0x01,
    ];
    answers(rt, &with_table, None);
}

#[test]
fn reports_the_first_fault(rt: HostRuntime) {
    let rt = &rt;
    // no code; load_imm r7 0 at position 1 alone
    answers(rt, &[0, 1, 0], Some(CheckFault::NoFirst));
    answers(rt, &[0, 1, 2, 0x33, 7, 2], Some(CheckFault::NoFirst));
    // fallthrough, an unknown opcode, and a byte that no instruction starts at or that is one
    answers(
        rt,
        &[0, 1, 3, 1, 0xff, 0, 7],
        Some(CheckFault::UnknownOpcode(1)),
    );
    answers(
        rt,
        &[0, 1, 3, 1, 0xff, 0, 3],
        Some(CheckFault::UnknownOpcode(1)),
    );
    // a jump into itself, and one before the code
    answers(rt, &[0, 1, 2, 0x28, 1, 1], Some(CheckFault::BadTarget(0)));
    answers(
        rt,
        &[0, 1, 2, 0x28, 0xff, 1],
        Some(CheckFault::BadTarget(0)),
    );
    // load_imm_jump r7 0 @4, whose target is in its second field, and trap
    answers(
        rt,
        &[0, 1, 4, 0x50, 0x17, 0, 3, 1],
        Some(CheckFault::BadTarget(0)),
    );
    // load_imm r7 0, alone and with a table
    answers(rt, &[0, 1, 2, 0x33, 7, 1], Some(CheckFault::OpenEnd(0)));
    answers(rt, &[1, 1, 2, 9, 0x33, 7, 1], Some(CheckFault::OpenEnd(0)));
    // trap, with tables that lead past it
    answers(rt, &[1, 1, 1, 5, 0, 1], Some(CheckFault::BadEntry(0)));
    answers(rt, &[3, 1, 1, 0, 1, 2, 0, 1], Some(CheckFault::BadEntry(1)));
}
