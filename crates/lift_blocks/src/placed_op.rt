use crate::site::Site;
use rv_decode::{Cond, Reg, RvOp};

/// An operation with places as targets. A link is a number of the address map, and 0 where rd is x0.
#[derive(Clone, Copy, Debug)]
pub(crate) enum PlacedOp {
    /// No jump and no branch, with its operand after relocation.
    Plain(RvOp),
    /// A branch.
    Branch {
        cond: Cond,
        rs1: Reg,
        rs2: Reg,
        target: Site,
    },
    /// A jump to a target.
    Jal {
        rd: Reg,
        link: u32,
        target: Site,
    },
    /// A jump by a register.
    Jalr {
        rd: Reg,
        rs1: Reg,
        imm: i32,
        link: u32,
    },
    /// An `auipc` and the `jalr` after it, as compilers write a call.
    Pair {
        temp: Reg,
        rd: Reg,
        link: u32,
        target: Site,
    },
    /// A call of the host.
    Host(u32),
    /// A call that lets the heap grow.
    Sbrk,
}
