ghost use Rattle.std.specs.Prelude.{◌≡◌, ◌≤◌, ◌++◌, OnOk, OnErr, IsTrue, length as len_of};
ghost use Rattle.numbers.specs.Bytes.{little};
ghost use Rattle.pvm_ops.specs.Opcodes.{is_known};
ghost use Rattle.pvm_ops.specs.Spelling.{least_len, spelling, IsEncodable};

use crate::bytes::Bytes8;
use crate::forms::Form;
use crate::instr::Instr;
use crate::opcodes::form;
use crate::words::extended;
use std::alloc::AllocError;

/// How many bytes an instruction takes, at most 25, where its offset takes `offset_len` of them.
#[tactic(auto, unfolding(crate::specs::Spelling::spelling), using(crate::proofs::Lengths::lengths))]
pub fn length(instr: &Instr, offset_len: u8) -> u32
    requires known { IsTrue (is_known instr.now.op) }
    requires encodable { IsEncodable instr.now offset_len }
    ensures value { result ≡ len_of (spelling instr.now offset_len) }
    ensures bounds { (1 ≤ result) × (result ≤ 25) }
{
    let x = u32::from(least_len(instr.x));
    let y = u32::from(least_len(instr.y));
    let offset = u32::from(offset_len);
    match form(instr.op) {
        Form::N => 1,
        Form::X => 1 + x,
        Form::RE => 10,
        Form::XY | Form::RXY => 2 + x + y,
        Form::O => 1 + offset,
        Form::RX | Form::RRX => 2 + x,
        Form::RXO => 2 + x + offset,
        Form::RR => 2,
        Form::RRO => 2 + offset,
        Form::RRXY => 3 + x + y,
        Form::RRR => 3,
    }
}

/// Appends the bytes of an instruction, its immediates in the least number of bytes and its offset in `offset_len`.
///
/// `offset_len` counts for nothing in a form without an offset. If an allocation fails, nothing is appended.
#[tactic(auto, unfolding(crate::specs::Spelling::spelling), using(crate::proofs::Lengths::spellings))]
pub fn encode_into(instr: &Instr, offset_len: u8, out: &mut Bytes8) -> Result<(), AllocError>
    requires known { IsTrue (is_known instr.now.op) }
    requires encodable { IsEncodable instr.now offset_len }
    ensures ok { OnOk result (out.new ≡ out.old ++ spelling instr.now offset_len) }
    ensures err { OnErr result (out.new ≡ out.old) }
{
    let Instr { op, a, b, d, x, y } = *instr;
    let lx = least_len(x);
    let ly = least_len(y);
    match form(op) {
        Form::N => out.push(op),
        Form::X => append_with(&[op], x, lx, out),
        Form::RE => append_with(&[op, a], x, 8, out),
        Form::XY => append_with_two(&[op, lx], x, lx, y, ly, out),
        Form::O => append_with(&[op], x, offset_len, out),
        Form::RX => append_with(&[op, a], x, lx, out),
        Form::RXY => append_with_two(&[op, a + 16 * lx], x, lx, y, ly, out),
        Form::RXO => append_with_two(&[op, a + 16 * lx], x, lx, y, offset_len, out),
        Form::RR => out.append_few(&[op, d + 16 * a]),
        Form::RRX => append_with(&[op, a + 16 * b], x, lx, out),
        Form::RRO => append_with(&[op, a + 16 * b], x, offset_len, out),
        Form::RRXY => append_with_two(&[op, a + 16 * b, lx], x, lx, y, ly, out),
        Form::RRR => out.append_few(&[op, a + 16 * b, d]),
    }
}

/// The least number of bytes whose sign extension is the immediate.
#[tactic(auto, unfolding(crate::specs::Spelling::least_len))]
fn least_len(value: u64) -> u8
    ensures value { result ≡ least_len value }
    ensures bound { result ≤ 4 }
{
    if value == 0 {
        0
    } else if extended(value % 0x100, 0x80, 0xffff_ffff_ffff_ff00) == value {
        1
    } else if extended(value % 0x1_0000, 0x8000, 0xffff_ffff_ffff_0000) == value {
        2
    } else if extended(value % 0x100_0000, 0x80_0000, 0xffff_ffff_ff00_0000) == value {
        3
    } else {
        4
    }
}

/// Appends some bytes and then two numbers, each in its number of bytes, or nothing.
#[inline(always)]
fn append_with_two(
    head: &[u8],
    x: u64,
    x_len: u8,
    y: u64,
    y_len: u8,
    out: &mut Bytes8,
) -> Result<(), AllocError>
    requires x_fits { x_len ≤ 8 }
    requires y_fits { y_len ≤ 8 }
    ensures ok { OnOk result (out.new ≡ out.old ++ (head.now ++ (little x_len x ++ little y_len y))) }
    ensures err { OnErr result (out.new ≡ out.old) }
{
    let before = out.len();
    append_with(head, x, x_len, out)?;
    if let Err(refused) = append_low_bytes(y, y_len, out) {
        out.truncate(before);
        return Err(refused);
    }
    Ok(())
}

/// Appends some bytes and then a number in `x_len` bytes, or nothing.
#[inline(always)]
fn append_with(head: &[u8], x: u64, x_len: u8, out: &mut Bytes8) -> Result<(), AllocError>
    requires { x_len ≤ 8 }
    ensures ok { OnOk result (out.new ≡ out.old ++ (head.now ++ little x_len x)) }
    ensures err { OnErr result (out.new ≡ out.old) }
{
    let before = out.len();
    out.append_few(head)?;
    if let Err(refused) = append_low_bytes(x, x_len, out) {
        out.truncate(before);
        return Err(refused);
    }
    Ok(())
}

/// Appends the low `len` bytes of x, the lowest first.
#[inline(always)]
fn append_low_bytes(x: u64, len: u8, out: &mut Bytes8) -> Result<(), AllocError>
    requires { len ≤ 8 }
    ensures ok { OnOk result (out.new ≡ out.old ++ little len x) }
    ensures err { OnErr result (out.new ≡ out.old) }
{
    let bytes = x.to_le_bytes();
    out.append_few(&bytes[..usize::from(len)])
}
