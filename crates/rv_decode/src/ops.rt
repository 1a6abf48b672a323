/// A register of RV64E that an operation may name.
#[derive(Clone, Copy, Debug, PartialEq, Eq)]
pub enum Reg {
    /// x0, which reads as 0 and keeps nothing.
    Zero,
    /// A register by its number in the PVM, 0 to 12: x1 is 0, x2 is 1, and x5 to x15 are 2 to 12.
    R(u8),
}

/// Why a word has no operation. Where several reasons hold, the first of this list is given.
#[derive(Clone, Copy, Debug, PartialEq, Eq)]
pub enum WordFault {
    /// The word is none of RV64EM.
    BadWord,
    /// It names x3, x4 or one of x16 to x31.
    BadRegister,
    /// It is `ecall`.
    Ecall,
    /// It is a load into x0.
    LoadToZero,
}

/// When a branch is taken: the comparison of rs1 with rs2 by `beq`, `bne`, `blt`, `bge`, `bltu` and `bgeu`.
#[derive(Clone, Copy, Debug, PartialEq, Eq)]
pub enum Cond {
    Eq,
    Ne,
    Lt,
    Ge,
    Ltu,
    Geu,
}

/// How much a load reads, and how it is extended to 64 bits: the operation of the RISC-V unprivileged manual with this
/// name.
#[derive(Clone, Copy, Debug, PartialEq, Eq)]
pub enum LoadWidth {
    Lb,
    Lh,
    Lw,
    Ld,
    Lbu,
    Lhu,
    Lwu,
}

/// How much a store writes: the operation of the RISC-V unprivileged manual with this name.
#[derive(Clone, Copy, Debug, PartialEq, Eq)]
pub enum StoreWidth {
    Sb,
    Sh,
    Sw,
    Sd,
}

/// What is computed of a register and an immediate: the operation of the RISC-V unprivileged manual with this name.
#[derive(Clone, Copy, Debug, PartialEq, Eq)]
pub enum AluImm {
    Addi,
    Slti,
    Sltiu,
    Xori,
    Ori,
    Andi,
    Slli,
    Srli,
    Srai,
    Addiw,
    Slliw,
    Srliw,
    Sraiw,
}

/// What is computed of two registers: the operation of the RISC-V unprivileged manual with this name.
#[derive(Clone, Copy, Debug, PartialEq, Eq)]
pub enum Alu {
    Add,
    Sub,
    Sll,
    Slt,
    Sltu,
    Xor,
    Srl,
    Sra,
    Or,
    And,
    Mul,
    Mulh,
    Mulhsu,
    Mulhu,
    Div,
    Divu,
    Rem,
    Remu,
    Addw,
    Subw,
    Sllw,
    Srlw,
    Sraw,
    Mulw,
    Divw,
    Divuw,
    Remw,
    Remuw,
}

/// The operation of a word. Immediates, values and offsets are the signed numbers that the manual's formats I, S, B, U
/// and J give; an offset is in bytes, from the word's own place.
#[derive(Clone, Copy, Debug, PartialEq, Eq)]
pub enum RvOp {
    /// `lui`: the value, a multiple of 4096 from -2^31 below 2^31, into rd.
    Lui {
        rd: Reg,
        value: i64,
    },
    /// `auipc`: the word's own address and the value, a multiple of 4096 from -2^31 below 2^31, into rd.
    Auipc {
        rd: Reg,
        value: i64,
    },
    /// `jal`: a jump by an even offset from -2^20 below 2^20, with the next address into rd.
    Jal {
        rd: Reg,
        offset: i32,
    },
    /// `jalr`: a jump to rs1 and the immediate of 12 bits, with the next address into rd.
    Jalr {
        rd: Reg,
        rs1: Reg,
        imm: i32,
    },
    /// A jump, where the condition holds, by an even offset from -2^12 below 2^12.
    Branch {
        cond: Cond,
        rs1: Reg,
        rs2: Reg,
        offset: i32,
    },
    /// A load from rs1 and the immediate of 12 bits into rd, which isn't x0.
    Load {
        width: LoadWidth,
        rd: Reg,
        rs1: Reg,
        imm: i32,
    },
    /// A store of rs2 at rs1 and the immediate of 12 bits.
    Store {
        width: StoreWidth,
        rs1: Reg,
        rs2: Reg,
        imm: i32,
    },
    /// An operation on rs1 and the immediate into rd. The immediate has 12 bits; that of a shift is its amount, 0 to
    /// 63, and of `slliw`, `srliw` and `sraiw` 0 to 31.
    OpImm {
        op: AluImm,
        rd: Reg,
        rs1: Reg,
        imm: i32,
    },
    /// An operation on rs1 and rs2 into rd.
    Op {
        op: Alu,
        rd: Reg,
        rs1: Reg,
        rs2: Reg,
    },
    /// `fence`, which does nothing here.
    Fence,
    /// `ebreak` or `unimp`, which end a run by a panic.
    Trap,
}
