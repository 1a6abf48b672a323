/// One instruction. Fields that the form of its opcode does not use are 0.
///
/// Registers are numbers from 0 to 12. Immediates and offsets are signed numbers of 64 bits in two's complement. An
/// offset counts from the instruction's own position. It is `x` in a form that has no other immediate, else `y`.
#[derive(Clone, Copy, Debug, PartialEq, Eq)]
pub struct Instr {
    pub op: u8,
    pub a: u8,
    pub b: u8,
    pub d: u8,
    pub x: u64,
    pub y: u64,
}

/// An instruction, and the position after it.
#[derive(Clone, Copy, Debug, PartialEq, Eq)]
pub struct Fetched {
    pub instr: Instr,
    pub next: u64,
}

/// The head of an instruction, which is read before its operands: the opcode, how many bytes of operands follow it, and
/// the little-endian number of eight bytes, the opcode first.
#[derive(Clone, Copy, Debug, PartialEq, Eq)]
pub struct Head {
    pub op: u8,
    pub skip: u8,
    pub word: u64,
}
