//! At most three instructions, and instructions by their forms.

ghost use Rattle.std.specs.Prelude.{◌≡◌, [], ◌∷◌};
ghost use Rattle.pvm_ops.specs.Fetch.{trap};
ghost use Rattle.lower.specs.Instructions.{rx, rr, rrx, rrr, xy, rxy};
ghost use Rattle.lower.specs.Plain.{three_of};

use pvm_ops::Instr;

/// The instructions of an operation, of which there are none to three. The first `count` of them are there, in this
/// order, and the others are all zero.
#[derive(Clone, Copy, Debug, PartialEq, Eq)]
pub struct Three {
    pub count: u8,
    pub first: Instr,
    pub second: Instr,
    pub third: Instr,
}

/// The instruction that is all zero.
pub(crate) fn trap() -> Instr
    ensures { result ≡ trap }
{
    Instr {
        op: 0,
        a: 0,
        b: 0,
        d: 0,
        x: 0,
        y: 0,
    }
}

pub(crate) fn none() -> Three
    ensures { result ≡ three_of [] }
{
    Three {
        count: 0,
        first: trap(),
        second: trap(),
        third: trap(),
    }
}

pub(crate) fn one(first: Instr) -> Three
    ensures { result ≡ three_of (first ∷ []) }
{
    Three {
        count: 1,
        first,
        second: trap(),
        third: trap(),
    }
}

pub(crate) fn two(first: Instr, second: Instr) -> Three
    ensures { result ≡ three_of (first ∷ second ∷ []) }
{
    Three {
        count: 2,
        first,
        second,
        third: trap(),
    }
}

pub(crate) fn all_three(first: Instr, second: Instr, third: Instr) -> Three
    ensures { result ≡ three_of (first ∷ second ∷ third ∷ []) }
{
    Three {
        count: 3,
        first,
        second,
        third,
    }
}

/// A register and an immediate.
pub(crate) fn rx(op: u8, a: u8, x: u64) -> Instr
    ensures { result ≡ rx op a x }
{
    Instr {
        op,
        a,
        b: 0,
        d: 0,
        x,
        y: 0,
    }
}

/// Two registers, the first of which is written.
pub(crate) fn rr(op: u8, d: u8, a: u8) -> Instr
    ensures { result ≡ rr op d a }
{
    Instr {
        op,
        a,
        b: 0,
        d,
        x: 0,
        y: 0,
    }
}

/// Two registers and an immediate.
pub(crate) fn rrx(op: u8, a: u8, b: u8, x: u64) -> Instr
    ensures { result ≡ rrx op a b x }
{
    Instr {
        op,
        a,
        b,
        d: 0,
        x,
        y: 0,
    }
}

/// Three registers, the first of which is written.
pub(crate) fn rrr(op: u8, d: u8, a: u8, b: u8) -> Instr
    ensures { result ≡ rrr op d a b }
{
    Instr {
        op,
        a,
        b,
        d,
        x: 0,
        y: 0,
    }
}

/// Two immediates.
pub(crate) fn xy(op: u8, x: u64, y: u64) -> Instr
    ensures { result ≡ xy op x y }
{
    Instr {
        op,
        a: 0,
        b: 0,
        d: 0,
        x,
        y,
    }
}

/// A register and two immediates.
pub(crate) fn rxy(op: u8, a: u8, x: u64, y: u64) -> Instr
    ensures { result ≡ rxy op a x y }
{
    Instr {
        op,
        a,
        b: 0,
        d: 0,
        x,
        y,
    }
}
