/// How the operands of an opcode are laid out after it.
///
/// A register takes four bits of a byte, and the last of three registers a whole byte. An immediate or an offset takes up
/// to four bytes, little-endian and sign-extended. The letters of a form name its fields: R a register, X and Y
/// immediates, O an offset, E an immediate of eight bytes.
#[derive(Clone, Copy, Debug, PartialEq, Eq)]
pub enum Form {
    /// No operands.
    N,
    /// An immediate.
    X,
    /// A register and an immediate of eight bytes.
    RE,
    /// Two immediates; the first byte gives the length of the first.
    XY,
    /// An offset.
    O,
    /// A register and an immediate.
    RX,
    /// A register and two immediates; the first byte also gives the length of the first immediate.
    RXY,
    /// A register, an immediate and an offset; the first byte also gives the length of the immediate.
    RXO,
    /// Two registers, the destination first.
    RR,
    /// Two registers and an immediate.
    RRX,
    /// Two registers and an offset.
    RRO,
    /// Two registers and two immediates; the second byte gives the length of the first immediate.
    RRXY,
    /// Three registers, the destination last.
    RRR,
}
