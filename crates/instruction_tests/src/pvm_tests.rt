//! Instructions of the PVM: their spelling, what is fetched, their names, and lists of blocks.

ghost use Rattle.std.specs.Prelude.{◌≡◌, ◌<◌, ◌≤◌, ◌+◌, ◌/◌, length as len_of, IsTrue};
ghost use Rattle.pvm_ops.specs.Opcodes.{is_known};
ghost use Rattle.pvm_ops.specs.Spelling.{IsEncodable};

use pvm_ops::{
    Blocks, Bytes8, Code, Fetched, Form, Instr, encode_into, fetch, form, known, length, name,
};
use std::process::Abort;
use std::test::Fail;

const TRAP: Instr = Instr {
    op: 0,
    a: 0,
    b: 0,
    d: 0,
    x: 0,
    y: 0,
};

/// An instruction is written as these bytes, and fetched from them.
fn is_spelled(
    rt: &(impl Abort + AllocGlobal),
    instr: Instr,
    offset_len: u8,
    bytes: &[u8],
) -> Result<(), Fail>
    requires known { IsTrue (is_known instr.op) }
    requires encodable { IsEncodable instr offset_len }
    requires short { len_of bytes.now ≤ 11 }
{
    let mut out = Bytes8::new(rt.alloc());
    encode_into(&instr, offset_len, &mut out)?;
    assert_eq!(rt; out.as_slice(), bytes);
    assert_eq!(rt; length(&instr, offset_len) as usize, bytes.len());
    let mask = [1, 0];
    let code = Code::new(bytes, &mask[..bytes.len().div_ceil(8)]);
    let fetched = Fetched {
        instr,
        next: bytes.len() as u64,
    };
    assert_eq!(rt; fetch(&code, 0), fetched);
    Ok(())
}

#[tactic(auto, unfolding(pvm_ops::specs::Opcodes::is_known, pvm_ops::specs::Opcodes::form_of))]
#[test]
fn spells_immediates(rt: HostRuntime) -> Result<(), Fail> {
    let rt = &rt;
    is_spelled(rt, TRAP, 0, &[0x00])?;
    is_spelled(rt, Instr { op: 1, ..TRAP }, 4, &[0x01])?;
    is_spelled(
        rt,
        Instr {
            op: 10,
            x: 100,
            ..TRAP
        },
        4,
        &[0x0a, 0x64],
    )?;
    is_spelled(
        rt,
        Instr {
            op: 10,
            x: 128,
            ..TRAP
        },
        4,
        &[0x0a, 0x80, 0x00],
    )?;
    is_spelled(
        rt,
        Instr {
            op: 20,
            a: 3,
            x: 0x0123_4567_89ab_cdef,
            ..TRAP
        },
        4,
        &[0x14, 0x03, 0xef, 0xcd, 0xab, 0x89, 0x67, 0x45, 0x23, 0x01],
    )?;
    is_spelled(
        rt,
        Instr {
            op: 32,
            x: 0x2_0000,
            y: 0xffff_ffff_ffff_ffff,
            ..TRAP
        },
        4,
        &[0x20, 0x03, 0x00, 0x00, 0x02, 0xff],
    )?;
    is_spelled(rt, Instr { op: 30, ..TRAP }, 4, &[0x1e, 0x00])?;
    Ok(())
}

#[tactic(auto, unfolding(pvm_ops::specs::Opcodes::is_known, pvm_ops::specs::Opcodes::form_of))]
#[test]
fn spells_one_register(rt: HostRuntime) -> Result<(), Fail> {
    let rt = &rt;
    is_spelled(rt, Instr { op: 50, ..TRAP }, 4, &[0x32, 0x00])?;
    is_spelled(
        rt,
        Instr {
            op: 51,
            a: 7,
            x: 5,
            ..TRAP
        },
        4,
        &[0x33, 0x07, 0x05],
    )?;
    is_spelled(
        rt,
        Instr {
            op: 51,
            a: 9,
            x: 0x2_0000,
            ..TRAP
        },
        4,
        &[0x33, 0x09, 0x00, 0x00, 0x02],
    )?;
    is_spelled(
        rt,
        Instr {
            op: 51,
            a: 7,
            x: 0x1234_5678,
            ..TRAP
        },
        4,
        &[0x33, 0x07, 0x78, 0x56, 0x34, 0x12],
    )?;
    is_spelled(
        rt,
        Instr {
            op: 51,
            a: 7,
            x: 0x1234_5000,
            ..TRAP
        },
        4,
        &[0x33, 0x07, 0x00, 0x50, 0x34, 0x12],
    )?;
    is_spelled(
        rt,
        Instr {
            op: 62,
            a: 12,
            x: 0xffff_ffff_8000_0000,
            ..TRAP
        },
        4,
        &[0x3e, 0x0c, 0x00, 0x00, 0x00, 0x80],
    )?;
    is_spelled(
        rt,
        Instr {
            op: 71,
            a: 1,
            x: 0xffff_ffff_ffff_ffff,
            y: 300,
            ..TRAP
        },
        4,
        &[0x47, 0x11, 0xff, 0x2c, 0x01],
    )?;
    Ok(())
}

#[tactic(auto, unfolding(pvm_ops::specs::Opcodes::is_known, pvm_ops::specs::Opcodes::form_of))]
#[test]
fn spells_more_registers(rt: HostRuntime) -> Result<(), Fail> {
    let rt = &rt;
    is_spelled(
        rt,
        Instr {
            op: 100,
            a: 12,
            d: 2,
            ..TRAP
        },
        4,
        &[0x64, 0xc2],
    )?;
    is_spelled(
        rt,
        Instr {
            op: 101,
            a: 7,
            d: 7,
            ..TRAP
        },
        4,
        &[0x65, 0x77],
    )?;
    is_spelled(
        rt,
        Instr {
            op: 136,
            a: 7,
            b: 8,
            x: 1,
            ..TRAP
        },
        4,
        &[0x88, 0x87, 0x01],
    )?;
    is_spelled(
        rt,
        Instr {
            op: 149,
            a: 5,
            ..TRAP
        },
        4,
        &[0x95, 0x05],
    )?;
    is_spelled(
        rt,
        Instr {
            op: 149,
            a: 7,
            b: 7,
            x: 0x678,
            ..TRAP
        },
        4,
        &[0x95, 0x77, 0x78, 0x06],
    )?;
    is_spelled(
        rt,
        Instr {
            op: 154,
            a: 7,
            b: 7,
            ..TRAP
        },
        4,
        &[0x9a, 0x77],
    )?;
    is_spelled(
        rt,
        Instr {
            op: 180,
            b: 9,
            x: 2,
            ..TRAP
        },
        4,
        &[0xb4, 0x90, 0x01, 0x02],
    )?;
    is_spelled(
        rt,
        Instr {
            op: 180,
            a: 7,
            b: 7,
            x: 2,
            y: 4,
            ..TRAP
        },
        4,
        &[0xb4, 0x77, 0x01, 0x02, 0x04],
    )?;
    is_spelled(
        rt,
        Instr {
            op: 200,
            a: 7,
            b: 8,
            d: 9,
            ..TRAP
        },
        4,
        &[0xc8, 0x87, 0x09],
    )?;
    is_spelled(
        rt,
        Instr {
            op: 230,
            a: 12,
            b: 12,
            d: 12,
            ..TRAP
        },
        4,
        &[0xe6, 0xcc, 0x0c],
    )?;
    Ok(())
}

#[tactic(auto, unfolding(pvm_ops::specs::Opcodes::is_known, pvm_ops::specs::Opcodes::form_of))]
#[test]
fn spells_offsets(rt: HostRuntime) -> Result<(), Fail> {
    let rt = &rt;
    is_spelled(
        rt,
        Instr {
            op: 40,
            x: 5,
            ..TRAP
        },
        4,
        &[0x28, 0x05, 0x00, 0x00, 0x00],
    )?;
    is_spelled(
        rt,
        Instr {
            op: 40,
            x: 0xffff_ffff_ffff_fffe,
            ..TRAP
        },
        1,
        &[0x28, 0xfe],
    )?;
    is_spelled(rt, Instr { op: 40, ..TRAP }, 0, &[0x28])?;
    is_spelled(
        rt,
        Instr {
            op: 80,
            x: 2,
            y: 6,
            ..TRAP
        },
        1,
        &[0x50, 0x10, 0x02, 0x06],
    )?;
    is_spelled(
        rt,
        Instr {
            op: 80,
            x: 2,
            y: 9,
            ..TRAP
        },
        4,
        &[0x50, 0x10, 0x02, 0x09, 0x00, 0x00, 0x00],
    )?;
    is_spelled(
        rt,
        Instr {
            op: 80,
            a: 3,
            y: 3,
            ..TRAP
        },
        1,
        &[0x50, 0x03, 0x03],
    )?;
    is_spelled(
        rt,
        Instr {
            op: 81,
            a: 7,
            y: 258,
            ..TRAP
        },
        2,
        &[0x51, 0x07, 0x02, 0x01],
    )?;
    is_spelled(
        rt,
        Instr {
            op: 171,
            a: 7,
            b: 8,
            x: 0xffff_ffff_ffff_ff7f,
            ..TRAP
        },
        2,
        &[0xab, 0x87, 0x7f, 0xff],
    )?;
    is_spelled(
        rt,
        Instr {
            op: 171,
            a: 7,
            b: 8,
            x: 0xffff_ffff_ffff_ff82,
            ..TRAP
        },
        1,
        &[0xab, 0x87, 0x82],
    )?;
    is_spelled(
        rt,
        Instr {
            op: 175,
            b: 12,
            x: 0xffff_ffff_ff80_0000,
            ..TRAP
        },
        3,
        &[0xaf, 0xc0, 0x00, 0x00, 0x80],
    )?;
    Ok(())
}

/// Compares the instruction at a position of a code with a mask.
fn is_fetched(rt: &impl Abort, bytes: &[u8], mask: &[u8], at: u64, instr: Instr, next: u64)
    requires { len_of mask.now ≡ (len_of bytes.now + 7) / 8 }
{
    assert_eq!(rt; fetch(&Code::new(bytes, mask), at), Fetched { instr, next });
}

#[test]
fn fetches_what_the_encoder_does_not_write(rt: HostRuntime) {
    let rt = &rt;
    let capped = Instr {
        op: 51,
        a: 12,
        x: 5,
        ..TRAP
    };
    is_fetched(rt, &[0x33, 0x0f, 0x05], &[1], 0, capped, 3);
    let negative = Instr {
        op: 51,
        a: 7,
        x: 0xffff_ffff_ffff_ff80,
        ..TRAP
    };
    is_fetched(rt, &[0x33, 0x07, 0x80], &[1], 0, negative, 3);
    let long_field = Instr {
        op: 180,
        a: 7,
        b: 7,
        x: 0x0403_0201,
        y: 5,
        ..TRAP
    };
    is_fetched(
        rt,
        &[0xb4, 0x77, 0x0f, 1, 2, 3, 4, 5],
        &[1],
        0,
        long_field,
        8,
    );
    is_fetched(rt, &[0x33], &[1], 0, Instr { op: 51, ..TRAP }, 1);
    let long = Instr {
        op: 51,
        a: 7,
        x: 0x0101_0101,
        ..TRAP
    };
    let mut bytes = [1u8; 30];
    bytes[0] = 0x33;
    bytes[1] = 0x07;
    is_fetched(rt, &bytes, &[1, 0, 0, 0], 0, long, 25);
}

#[test]
fn fetches_a_trap_where_there_is_no_instruction(rt: HostRuntime) {
    let rt = &rt;
    let bytes = [0x28, 5, 0, 0, 0, 0x33, 7, 5, 0x32, 0, 2];
    let mask = [0x21, 0x05];
    is_fetched(
        rt,
        &bytes,
        &mask,
        5,
        Instr {
            op: 51,
            a: 7,
            x: 5,
            ..TRAP
        },
        8,
    );
    is_fetched(rt, &bytes, &mask, 8, Instr { op: 50, ..TRAP }, 10);
    is_fetched(rt, &bytes, &mask, 1, TRAP, 1);
    is_fetched(rt, &bytes, &mask, 10, TRAP, 10);
    is_fetched(rt, &bytes, &mask, 11, TRAP, 11);
    is_fetched(rt, &bytes, &mask, u64::MAX, TRAP, u64::MAX);
}

/// The instruction at a position in the midst of a long code ends at the next mark, at the end of the code, or 25 bytes on.
#[test]
fn passes_operands_in_a_long_code(rt: HostRuntime) {
    let bytes = [1; 112];
    for at in 40..72usize {
        for gap in 1..=40usize {
            let end = at + gap;
            let want = end.min(at + 25) as u64;
            let mut mask = [0; 14];
            mask[at / 8] |= 1u8 << (at % 8);
            let code = Code::new(&bytes[..end], &mask[..end.div_ceil(8)]);
            assert_eq!(rt;
                fetch(&code, at as u64).next,
                want,
                "at {at}, the end at {end}"
            );
            mask[end / 8] |= 1u8 << (end % 8);
            let code = Code::new(&bytes, &mask);
            assert_eq!(rt;
                fetch(&code, at as u64).next,
                want,
                "at {at}, a mark at {end}"
            );
        }
    }
}

/// Bytes of all kinds, with and without their highest bit.
fn patterned() -> [u8; 128] {
    let mut bytes = [0; 128];
    for (i, byte) in bytes.iter_mut().enumerate() {
        *byte = (i * 37 % 256) as u8;
    }
    bytes
}

/// What is fetched at a position of a code of such bytes, which has the opcode there and ends before another.
fn fetched_of(op: u8, at: usize, end: usize) -> Instr
    requires before { at < end }
    requires within { end ≤ 128 }
{
    let mut bytes = patterned();
    bytes[at] = op;
    let mut mask = [0; 16];
    mask[at / 8] |= 1u8 << (at % 8);
    fetch(
        &Code::new(&bytes[..end], &mask[..end.div_ceil(8)]),
        at as u64,
    )
    .instr
}

/// The immediate of some of such bytes, from the highest down, where zeros follow the code that ends before another.
fn plain_immediate(at: usize, len: usize, end: usize) -> u64
    requires near { at < 1000 }
    requires few { len ≤ 8 }
    requires within { end ≤ 128 }
{
    let bytes = patterned();
    let mut value = 0;
    for i in (0..len).rev() {
        let byte = if at + i < end { bytes[at + i] } else { 0 };
        let above = if i + 1 == len && byte >= 128 {
            u64::MAX
        } else {
            value
        };
        value = above << 8 | u64::from(byte);
    }
    value
}

#[test]
fn fetches_immediates_up_to_the_end_of_a_long_code(rt: HostRuntime) {
    let bytes = patterned();
    for at in 64..80usize {
        for after in 0..=40usize {
            let end = at + 1 + after;
            let few = after.min(24);
            let load = fetched_of(51, at, end);
            let want = plain_immediate(at + 2, few.saturating_sub(1).min(4), end);
            assert_eq!(rt; load.x, want, "load_imm at {at} of {end}");
            let wide = fetched_of(20, at, end);
            assert_eq!(rt;
                wide.x,
                plain_immediate(at + 2, 8, end),
                "load_imm_64 at {at} of {end}"
            );
            let store = fetched_of(30, at, end);
            let len = if after > 0 {
                usize::from(bytes[at + 1] % 8).min(4)
            } else {
                0
            };
            assert_eq!(rt;
                store.x,
                plain_immediate(at + 2, len, end),
                "store_imm_u8 at {at} of {end}"
            );
            let left = few.saturating_sub(len).saturating_sub(1).min(4);
            let want = plain_immediate(at + 2 + len, left, end);
            assert_eq!(rt; store.y, want, "store_imm_u8 at {at} of {end}");
        }
    }
}

#[test]
fn borrows_a_code(rt: HostRuntime) {
    let bytes = [0x28, 5, 0, 0, 0, 0x33, 7, 5, 0x32, 0];
    let code = Code::new(&bytes, &[0x21, 0x01]);
    assert_eq!(rt; code.len(), 10);
    assert_eq!(rt; code.bytes(), bytes.as_slice());
    for at in 0..20 {
        assert_eq!(rt; code.marked(at), matches!(at, 0 | 5 | 8), "at {at}");
    }
}

#[test]
fn names_the_ends_of_ranges(rt: HostRuntime) {
    let rows = [
        (0, Form::N, "trap"),
        (1, Form::N, "fallthrough"),
        (10, Form::X, "ecalli"),
        (20, Form::RE, "load_imm_64"),
        (30, Form::XY, "store_imm_u8"),
        (33, Form::XY, "store_imm_u64"),
        (40, Form::O, "jump"),
        (50, Form::RX, "jump_ind"),
        (62, Form::RX, "store_u64"),
        (70, Form::RXY, "store_imm_ind_u8"),
        (73, Form::RXY, "store_imm_ind_u64"),
        (80, Form::RXO, "load_imm_jump"),
        (90, Form::RXO, "branch_gt_s_imm"),
        (100, Form::RR, "move_reg"),
        (111, Form::RR, "reverse_bytes"),
        (120, Form::RRX, "store_ind_u8"),
        (131, Form::RRX, "add_imm_32"),
        (149, Form::RRX, "add_imm_64"),
        (161, Form::RRX, "rot_r_32_imm_alt"),
        (170, Form::RRO, "branch_eq"),
        (175, Form::RRO, "branch_ge_s"),
        (180, Form::RRXY, "load_imm_jump_ind"),
        (190, Form::RRR, "add_32"),
        (210, Form::RRR, "and"),
        (230, Form::RRR, "min_u"),
    ];
    for (op, want_form, want_name) in rows {
        assert!(rt; known(op), "at {op}");
        assert_eq!(rt; form(op), want_form, "at {op}");
        assert_eq!(rt; name(op), want_name, "at {op}");
    }
    let unknown = [
        2, 9, 11, 19, 21, 29, 34, 39, 41, 49, 63, 69, 74, 79, 91, 99, 112, 119, 162, 169, 176, 179,
        181, 189, 231, 255,
    ];
    for op in unknown {
        assert!(rt; !known(op), "at {op}");
    }
}

#[test]
fn lists_blocks(rt: HostRuntime) -> Result<(), Fail> {
    let mut blocks = Blocks::new(rt.alloc());
    blocks.begin()?;
    blocks.push(TRAP)?;
    blocks.begin()?;
    blocks.push(Instr {
        op: 51,
        a: 7,
        x: 5,
        ..TRAP
    })?;
    blocks.push(Instr { op: 40, ..TRAP })?;
    blocks.aim(0);
    blocks.add_entry(1)?;
    blocks.add_needed(0)?;
    assert_eq!(rt; blocks.len(), 2);
    assert_eq!(rt; blocks.block(0), [TRAP].as_slice());
    assert_eq!(rt; blocks.block(1).len(), 2);
    assert_eq!(rt; blocks.target(0), None);
    assert_eq!(rt; blocks.target(1), Some(0));
    assert_eq!(rt; blocks.entries(), [1].as_slice());
    assert_eq!(rt; blocks.needed(), [0].as_slice());
    Ok(())
}

#[test]
fn grows_a_list_of_bytes(rt: HostRuntime) -> Result<(), Fail> {
    let mut bytes = Bytes8::new(rt.alloc());
    bytes.push(1)?;
    bytes.append(&[2, 3])?;
    assert_eq!(rt; bytes.len(), 3);
    assert_eq!(rt; bytes.as_slice(), [1, 2, 3].as_slice());
    Ok(())
}
