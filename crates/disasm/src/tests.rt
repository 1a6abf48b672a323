use super::*;
use blob_codec::{Program, write_program};
use outside::MemorySink;
use std::process::Abort;
use std::test::*;

/// The program that the bytes are has this text.
fn is_text(rt: &(impl Abort + AllocGlobal), bytes: &[u8], want: &str) -> Result<(), Fail> {
    let Ok(program) = Program::read(bytes) else {
        assert!(rt; false, "no program");
        return Ok(());
    };
    assert!(rt; program.code().len() < 1000);
    let mut out = MemorySink::new(rt.alloc(), 2000)?;
    assert!(rt; disassemble(&program, &mut out).is_ok());
    assert_eq!(rt; out.bytes(), want.as_bytes());
    Ok(())
}

#[test]
fn prints_a_program(rt: HostRuntime) -> Result<(), Fail> {
    let rt = &rt;
    let program = [0, 1, 10, 0x28, 5, 0, 0, 0, 0x33, 7, 5, 0x32, 0, 0x21, 0x01];
    let text = "code 10 table 0 width 1
00000000 2805000000 jump @5
00000005 330705 load_imm r7 5
00000008 3200 jump_ind r0 0
";
    is_text(rt, &program, text)?;
    is_text(rt, &[0, 0, 0], "code 0 table 0 width 0\n")?;
    // no instruction is marked at the first byte
    is_text(
        rt,
        &[0, 1, 2, 7, 0, 2],
        "code 2 table 0 width 1\n00000001 00 trap\n",
    )
}

/// A program with a table of two entries, and an instruction of each form but that of a jump.
fn forms() -> [u8; 58] {
    [
        2, 2, 45, 5, 0, 0x2c, 1, // two entries of two bytes, 45 bytes of code
        0x00, 0x0a, 0xff, 0x14, 0x03, 0xef, 0xcd, 0xab, 0x89, 0x67, 0x45, 0x23, 0x01, // N, X, RE
        0x20, 0x01, 0x05, 0xff, 0x47, 0x11, 0x08, 0x02, 0x52, 0x17, 0x02, 0xeb, // XY, RXY, RXO
        0x64, 0xc2, 0x95, 0x87, 0x03, 0xab, 0x87, 0xe1, // RR, RRX, RRO
        0xb4, 0x90, 0x01, 0x02, 0x04, 0xc8, 0x87, 0x09, // RRXY, RRR
        0x33, 0x07, 0xff, 0x01, // RX, and an unknown opcode
        0x0b, 0x20, 0x22, 0x4a, 0x42, 0x0a, // the mask
    ]
}

#[test]
fn prints_each_form(rt: HostRuntime) -> Result<(), Fail> {
    let text = "code 45 table 2 width 2
00000000 00 trap
00000001 0aff ecalli -1
00000003 1403efcdab8967452301 load_imm_64 r3 81985529216486895
0000000d 200105ff store_imm_u32 5 -1
00000011 47110802 store_imm_ind_u16 r1 8 2
00000015 521702eb branch_ne_imm r7 2 @0
00000019 64c2 move_reg r2 r12
0000001b 958703 add_imm_64 r7 r8 3
0000001e ab87e1 branch_ne r7 r8 @-1
00000021 b490010204 load_imm_jump_ind r0 r9 2 4
00000026 c88709 add_64 r9 r7 r8
00000029 3307 load_imm r7 0
0000002b ff01 unknown
table 0 5
table 1 300
";
    is_text(&rt, &forms(), text)
}

#[test]
fn puts_a_long_text_in_pieces(rt: HostRuntime) -> Result<(), Fail> {
    let rt = &rt;
    // a thousand traps, each with a line of 17 bytes after the first line of 26
    let bytes = write_program(rt.alloc(), &[], 1, &[0; 1000], &[0xff; 125])?;
    let Ok(program) = Program::read(bytes.as_slice()) else {
        assert!(rt; false, "no program");
        return Ok(());
    };
    assert!(rt; program.code().len() == 1000);
    let mut out = MemorySink::new(rt.alloc(), 20_000)?;
    assert!(rt; disassemble(&program, &mut out).is_ok());
    assert_eq!(rt; out.bytes().len(), 17_026);
    assert!(rt; out.bytes().ends_with(b"\n000003e7 00 trap\n"));
    let mut failing = MemorySink::new(rt.alloc(), 20_000)?;
    failing.fail(1)?;
    assert!(rt; disassemble(&program, &mut failing).is_err());
    let front = failing.bytes().len();
    assert!(rt; front > 0 && out.bytes().starts_with(failing.bytes()));
    Ok(())
}
