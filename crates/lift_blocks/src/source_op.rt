use rv_decode::{Cond, Reg, RvOp};

/// An operation. A target is the number of an operation in code order. A link is a number of the address map, and 0 where
/// rd is x0.
#[derive(Clone, Copy, Debug, PartialEq, Eq)]
pub enum SourceOp {
    /// No jump and no branch, with its operand after relocation.
    Plain(RvOp),
    /// A branch.
    Branch {
        cond: Cond,
        rs1: Reg,
        rs2: Reg,
        target: u32,
    },
    /// A jump to a target.
    Jal {
        rd: Reg,
        link: u32,
        target: u32,
    },
    /// A jump by a register.
    Jalr {
        rd: Reg,
        rs1: Reg,
        imm: i32,
        link: u32,
    },
    /// An `auipc` and the `jalr` after it, as compilers write a call.
    Pair {
        temp: Reg,
        rd: Reg,
        link: u32,
        target: u32,
    },
    /// A call of the host.
    Host(u32),
    /// A call that lets the heap grow.
    Sbrk,
}
