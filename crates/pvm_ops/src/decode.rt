ghost use Rattle.std.specs.Prelude.{◌≡◌, ◌≤◌, ◌<◌, ◌+◌, ◌-◌, ◌^◌, min, slice_index, false, IsTrue, MatchOption};
ghost use Rattle.numbers.specs.Bytes.{number_of};
ghost use Rattle.pvm_ops.specs.Opcodes.{is_known, form_of};
ghost use Rattle.pvm_ops.specs.Listing.{is_marked};
ghost use Rattle.pvm_ops.specs.Fetch.{IsHead, bytes_from, immediate, fetch_of, operands, trap, low_register, high_register};

use crate::code::Code;
use crate::forms::Form;
use crate::instr::{Fetched, Head, Instr};
use crate::opcodes::form_if_known;
use crate::windows::{byte_in, window, window_in, word};
use crate::words::sign_extended;

/// The instruction at a position, and the position after it.
///
/// Where the position is not marked, is past the code or has an unknown opcode, the instruction is `trap`, and the
/// position after it is its own.
#[inline]
#[tactic(auto, unfolding(crate::specs::Fetch::fetch_of))]
pub fn fetch(code: &Code<'_>, at: u64) -> Fetched
    ensures value { result ≡ fetch_of code.now at }
    ensures registers { (result.instr.a ≤ 12) × (result.instr.b ≤ 12) × (result.instr.d ≤ 12) }
    ensures known { IsTrue (is_known result.instr.op) }
{
    let Some(head) = read_head(code, at) else {
        return missing(at);
    };
    let Some(form) = form_if_known(head.op) else {
        return missing(at);
    };
    fetch_as(code, at, head, form)
}

/// The head of the instruction at a position, which is there where the position is marked.
#[inline(always)]
#[tactic(auto, unfolding(crate::specs::Fetch::fetch_of))]
pub fn read_head(code: &Code<'_>, at: u64) -> Option<Head>
    ensures { MatchOption result (fetch_of code.now at ≡ record { instr = trap; next = at }) (λ head. IsHead code.now at head) }
{
    let (skip, word) = code.head(at)?;
    let op = opcode(code.bytes(), at as usize, word);
    Some(Head { op, skip, word })
}

/// The instruction with a head that was read at a position, and with the form of its opcode.
#[inline(always)]
#[tactic(auto, unfolding(crate::specs::Fetch::fetch_of))]
pub fn fetch_as(code: &Code<'_>, at: u64, head: Head, form: Form) -> Fetched
    requires read { IsHead code.now at head }
    requires known { IsTrue (is_known head.op) }
    requires form { form ≡ form_of head.op }
    ensures value { result ≡ fetch_of code.now at }
    ensures registers { (result.instr.a ≤ 12) × (result.instr.b ≤ 12) × (result.instr.d ≤ 12) }
    ensures op { result.instr.op ≡ head.op }
{
    let instr = operands(
        code.bytes(),
        at as usize,
        head.word,
        head.op,
        head.skip,
        form,
    );
    Fetched {
        instr,
        next: at + 1 + u64::from(head.skip),
    }
}

/// A position with an unknown opcode holds a trap. A law: it does nothing.
#[inline(always)]
#[tactic(auto, unfolding(crate::specs::Fetch::fetch_of))]
pub fn unknown_is_trap(code: &Code<'_>, at: u64, head: Head)
    requires read { IsHead code.now at head }
    requires unknown { is_known head.op ≡ false }
    ensures { fetch_of code.now at ≡ record { instr = trap; next = at } }
{
    let _ = code;
    let _ = at;
    let _ = head;
}

/// The opcode at a position, the lowest byte of the word there.
#[inline(always)]
fn opcode(bytes: &[u8], at: usize, word: u64) -> u8
    requires { word ≡ number_of (bytes_from bytes.now at 8) }
    ensures { result ≡ slice_index bytes.now at }
{
    byte_in(bytes, at, word, 0)
}

/// The trap wherever there is no instruction.
#[tactic(auto, unfolding(crate::specs::Opcodes::is_known))]
fn missing(at: u64) -> Fetched
    ensures value { result ≡ record { instr = trap; next = at } }
    ensures known { IsTrue (is_known result.instr.op) }
{
    Fetched {
        instr: bare(0),
        next: at,
    }
}

/// The instruction without operands.
fn bare(op: u8) -> Instr
    ensures { result ≡ record trap { op = op } }
{
    Instr {
        op,
        a: 0,
        b: 0,
        d: 0,
        x: 0,
        y: 0,
    }
}

/// The instruction of an opcode by its form, where `e` bytes of operands follow it. The word is that of the opcode and
/// the seven bytes after it.
#[inline(always)]
fn operands(bytes: &[u8], at: usize, word: u64, op: u8, e: u8, form: Form) -> Instr
    requires word { word ≡ number_of (bytes_from bytes.now at 8) }
    requires few { e ≤ 24 }
    requires near { at < 2 ^ 63 }
    ensures value { result ≡ operands bytes.now at op e form }
    ensures registers { (result.a ≤ 12) × (result.b ≤ 12) × (result.d ≤ 12) }
    ensures same { result.op ≡ op }
{
    let none = bare(op);
    let e = u32::from(e);
    let first = byte_in(bytes, at, word, 1);
    let low = low_register(first);
    let high = high_register(first);
    match form {
        Form::N => none,
        Form::X | Form::O => Instr {
            x: last_in(bytes, at, word, 1, e),
            ..none
        },
        Form::RE => Instr {
            a: low,
            x: long(bytes, at + 2),
            ..none
        },
        Form::XY => {
            let (x, y) = two(bytes, at, word, 2, u32::from(first) % 8, e, 1);
            Instr { x, y, ..none }
        }
        Form::RX => Instr {
            a: low,
            x: last_in(bytes, at, word, 2, e.saturating_sub(1)),
            ..none
        },
        Form::RXY | Form::RXO => {
            let (x, y) = two(bytes, at, word, 2, u32::from(first) / 16 % 8, e, 1);
            Instr {
                a: low,
                x,
                y,
                ..none
            }
        }
        Form::RR => Instr {
            d: low,
            a: high,
            ..none
        },
        Form::RRX | Form::RRO => {
            let x = last_in(bytes, at, word, 2, e.saturating_sub(1));
            Instr {
                a: low,
                b: high,
                x,
                ..none
            }
        }
        Form::RRXY => {
            let (x, y) = two(
                bytes,
                at,
                word,
                3,
                u32::from(byte_in(bytes, at, word, 2)) % 8,
                e,
                2,
            );
            Instr {
                a: low,
                b: high,
                x,
                y,
                ..none
            }
        }
        Form::RRR => Instr {
            a: low,
            b: high,
            d: whole_register(byte_in(bytes, at, word, 2)),
            ..none
        },
    }
}

/// The register that a byte names.
#[inline(always)]
fn whole_register(byte: u8) -> u8
    ensures value { result ≡ min 12 byte }
    ensures bound { result ≤ 12 }
{
    u32::from(byte).min(12) as u8
}

/// The register that the low half of a byte names.
#[inline(always)]
fn low_register(byte: u8) -> u8
    ensures value { result ≡ low_register byte }
    ensures bound { result ≤ 12 }
{
    (u32::from(byte) % 16).min(12) as u8
}

/// The register that the high half of a byte names.
#[inline(always)]
fn high_register(byte: u8) -> u8
    ensures value { result ≡ high_register byte }
    ensures bound { result ≤ 12 }
{
    (u32::from(byte) / 16).min(12) as u8
}

/// Two immediates after `place` bytes: one of `len` bytes, at most four, and one of what is left of `e` bytes without
/// `before` others.
#[inline(always)]
fn two(bytes: &[u8], at: usize, word: u64, place: u8, len: u32, e: u32, before: u32) -> (u64, u64)
    requires word { word ≡ number_of (bytes_from bytes.now at 8) }
    requires place { place ≤ 4 }
    requires near { at < 2 ^ 63 + 32 }
    ensures { let lx = min 4 len in
        result ≡ (immediate bytes.now (at + place) lx, immediate bytes.now (at + place + lx) (min 4 (e - lx - before))) }
{
    let lx = len.min(4);
    let left = e.saturating_sub(lx).saturating_sub(before);
    let behind = at + usize::from(place) + lx as usize;
    (
        short_in(bytes, at, word, place, lx),
        last(bytes, behind, left),
    )
}

/// The immediate of the bytes that are left after `place` bytes, of which no more than four count.
#[inline(always)]
fn last_in(bytes: &[u8], at: usize, word: u64, place: u8, left: u32) -> u64
    requires word { word ≡ number_of (bytes_from bytes.now at 8) }
    requires place { place ≤ 4 }
    ensures { result ≡ immediate bytes.now (at + place) (min 4 left) }
{
    short_in(bytes, at, word, place, left.min(4))
}

/// The immediate of at most four bytes after `place` bytes, extended by its sign.
#[inline(always)]
fn short_in(bytes: &[u8], at: usize, word: u64, place: u8, len: u32) -> u64
    requires word { word ≡ number_of (bytes_from bytes.now at 8) }
    requires place { place ≤ 4 }
    requires few { len ≤ 4 }
    ensures { result ≡ immediate bytes.now (at + place) len }
{
    sign_extended(window_in(bytes, at, word, place), len)
}

/// The immediate of the bytes that are left, of which no more than four count.
fn last(bytes: &[u8], at: usize, left: u32) -> u64
    requires near { at < 2 ^ 63 + 64 }
    ensures { result ≡ immediate bytes.now at (min 4 left) }
{
    short(bytes, at, left.min(4))
}

/// The immediate of at most four bytes at a position, extended by its sign.
fn short(bytes: &[u8], at: usize, len: u32) -> u64
    requires few { len ≤ 4 }
    requires near { at < 2 ^ 63 + 64 }
    ensures { result ≡ immediate bytes.now at len }
{
    sign_extended(window(bytes, at), len)
}

/// The immediate of eight bytes at a position.
fn long(bytes: &[u8], at: usize) -> u64
    requires { at < 2 ^ 63 + 64 }
    ensures { result ≡ immediate bytes.now at 8 }
{
    word(bytes, at)
}
