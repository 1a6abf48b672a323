//! The instructions of each operation. Here rd is register 7, rs1 register 8 and rs2 register 9, where they aren't x0.
//! Opcodes are those of the Gray Paper's instruction tables.

ghost use Rattle.rv_decode.specs.Operations.{IsReg};
ghost use Rattle.lift_blocks.specs.Fits.{IsOperand};

use lower::{Three, lower_operation, operations_are_implemented};
use pvm_ops::Instr;
use rv_decode::{Alu, AluImm, LoadWidth, Reg, RvOp, StoreWidth};
use std::process::Abort;
use std::test::*;

/// The word of -1.
const ONES: u64 = 0xffff_ffff_ffff_ffff;

/// The word of -3.
const MINUS_THREE: u64 = 0xffff_ffff_ffff_fffd;

/// The word of -8.
const MINUS_EIGHT: u64 = 0xffff_ffff_ffff_fff8;

/// An instruction: its opcode, registers a, b and d, and its first immediate. The second is 0.
type Row = (u8, u8, u8, u8, u64);

/// Asserts that instructions are these and no others.
fn see(rt: &impl Abort, found: Three, want: &[Row]) {
    assert_eq!(rt; usize::from(found.count), want.len());
    let instrs = [found.first, found.second, found.third];
    for at in 0..3usize {
        let (op, a, b, d, x) = want.get(at).copied().unwrap_or((0, 0, 0, 0, 0));
        let wanted = Instr {
            op,
            a,
            b,
            d,
            x,
            y: 0,
        };
        assert_eq!(rt; instrs[at], wanted, "number {at} of {want:?}");
    }
}

fn of_two(op: Alu, rs1: Reg, rs2: Reg) -> Three
    requires first { IsReg rs1 }
    requires second { IsReg rs2 }
{
    lower_operation(&RvOp::Op {
        op,
        rd: Reg::R(7),
        rs1,
        rs2,
    })
}

/// Opcodes of two registers.
const BOTH: [(Alu, u8); 28] = [
    (Alu::Add, 200),
    (Alu::Sub, 201),
    (Alu::Sll, 207),
    (Alu::Slt, 217),
    (Alu::Sltu, 216),
    (Alu::Xor, 211),
    (Alu::Srl, 208),
    (Alu::Sra, 209),
    (Alu::Or, 212),
    (Alu::And, 210),
    (Alu::Mul, 202),
    (Alu::Mulh, 213),
    (Alu::Mulhsu, 215),
    (Alu::Mulhu, 214),
    (Alu::Div, 204),
    (Alu::Divu, 203),
    (Alu::Rem, 206),
    (Alu::Remu, 205),
    (Alu::Addw, 190),
    (Alu::Subw, 191),
    (Alu::Sllw, 197),
    (Alu::Srlw, 198),
    (Alu::Sraw, 199),
    (Alu::Mulw, 192),
    (Alu::Divw, 194),
    (Alu::Divuw, 193),
    (Alu::Remw, 196),
    (Alu::Remuw, 195),
];

#[test]
fn two_registers(rt: HostRuntime) {
    for (op, opcode) in BOTH {
        see(
            &rt,
            of_two(op, Reg::R(8), Reg::R(9)),
            &[(opcode, 8, 9, 7, 0)],
        );
    }
}

/// The second register is x0.
const FIRST: [(Alu, Row); 28] = [
    (Alu::Add, (100, 8, 0, 7, 0)),
    (Alu::Sub, (100, 8, 0, 7, 0)),
    (Alu::Sll, (100, 8, 0, 7, 0)),
    (Alu::Slt, (137, 7, 8, 0, 0)),
    (Alu::Sltu, (51, 7, 0, 0, 0)),
    (Alu::Xor, (100, 8, 0, 7, 0)),
    (Alu::Srl, (100, 8, 0, 7, 0)),
    (Alu::Sra, (100, 8, 0, 7, 0)),
    (Alu::Or, (100, 8, 0, 7, 0)),
    (Alu::And, (51, 7, 0, 0, 0)),
    (Alu::Mul, (51, 7, 0, 0, 0)),
    (Alu::Mulh, (51, 7, 0, 0, 0)),
    (Alu::Mulhsu, (51, 7, 0, 0, 0)),
    (Alu::Mulhu, (51, 7, 0, 0, 0)),
    (Alu::Div, (51, 7, 0, 0, ONES)),
    (Alu::Divu, (51, 7, 0, 0, ONES)),
    (Alu::Rem, (100, 8, 0, 7, 0)),
    (Alu::Remu, (100, 8, 0, 7, 0)),
    (Alu::Addw, (131, 7, 8, 0, 0)),
    (Alu::Subw, (131, 7, 8, 0, 0)),
    (Alu::Sllw, (131, 7, 8, 0, 0)),
    (Alu::Srlw, (131, 7, 8, 0, 0)),
    (Alu::Sraw, (131, 7, 8, 0, 0)),
    (Alu::Mulw, (51, 7, 0, 0, 0)),
    (Alu::Divw, (51, 7, 0, 0, ONES)),
    (Alu::Divuw, (51, 7, 0, 0, ONES)),
    (Alu::Remw, (131, 7, 8, 0, 0)),
    (Alu::Remuw, (131, 7, 8, 0, 0)),
];

#[test]
fn second_register_is_x0(rt: HostRuntime) {
    for (op, row) in FIRST {
        see(&rt, of_two(op, Reg::R(8), Reg::Zero), &[row]);
    }
}

/// The first register is x0.
const SECOND: [(Alu, &[Row]); 28] = [
    (Alu::Add, &[(100, 9, 0, 7, 0)]),
    (Alu::Sub, &[(154, 7, 9, 0, 0)]),
    (Alu::Sll, &[(51, 7, 0, 0, 0)]),
    (Alu::Slt, &[(143, 7, 9, 0, 0)]),
    (Alu::Sltu, &[(142, 7, 9, 0, 0)]),
    (Alu::Xor, &[(100, 9, 0, 7, 0)]),
    (Alu::Srl, &[(51, 7, 0, 0, 0)]),
    (Alu::Sra, &[(51, 7, 0, 0, 0)]),
    (Alu::Or, &[(100, 9, 0, 7, 0)]),
    (Alu::And, &[(51, 7, 0, 0, 0)]),
    (Alu::Mul, &[(51, 7, 0, 0, 0)]),
    (Alu::Mulh, &[(51, 7, 0, 0, 0)]),
    (Alu::Mulhsu, &[(51, 7, 0, 0, 0)]),
    (Alu::Mulhu, &[(51, 7, 0, 0, 0)]),
    (Alu::Div, &[(136, 7, 9, 0, 1), (154, 7, 7, 0, 0)]),
    (Alu::Divu, &[(136, 7, 9, 0, 1), (154, 7, 7, 0, 0)]),
    (Alu::Rem, &[(51, 7, 0, 0, 0)]),
    (Alu::Remu, &[(51, 7, 0, 0, 0)]),
    (Alu::Addw, &[(131, 7, 9, 0, 0)]),
    (Alu::Subw, &[(141, 7, 9, 0, 0)]),
    (Alu::Sllw, &[(51, 7, 0, 0, 0)]),
    (Alu::Srlw, &[(51, 7, 0, 0, 0)]),
    (Alu::Sraw, &[(51, 7, 0, 0, 0)]),
    (Alu::Mulw, &[(51, 7, 0, 0, 0)]),
    (
        Alu::Divw,
        &[(131, 7, 9, 0, 0), (136, 7, 7, 0, 1), (154, 7, 7, 0, 0)],
    ),
    (
        Alu::Divuw,
        &[(131, 7, 9, 0, 0), (136, 7, 7, 0, 1), (154, 7, 7, 0, 0)],
    ),
    (Alu::Remw, &[(51, 7, 0, 0, 0)]),
    (Alu::Remuw, &[(51, 7, 0, 0, 0)]),
];

#[test]
fn first_register_is_x0(rt: HostRuntime) {
    for (op, rows) in SECOND {
        see(&rt, of_two(op, Reg::Zero, Reg::R(9)), rows);
    }
}

/// Both registers are x0: the result is all ones for a quotient, and 0 for all others.
#[test]
fn both_registers_are_x0(rt: HostRuntime) {
    for (op, _) in BOTH {
        let value = match op {
            Alu::Div | Alu::Divu | Alu::Divw | Alu::Divuw => ONES,
            _ => 0,
        };
        see(
            &rt,
            of_two(op, Reg::Zero, Reg::Zero),
            &[(51, 7, 0, 0, value)],
        );
    }
}

fn immediate(op: AluImm, rs1: Reg, imm: i32) -> Three
    requires register { IsReg rs1 }
    requires operand { IsOperand op imm }
{
    lower_operation(&RvOp::OpImm {
        op,
        rd: Reg::R(7),
        rs1,
        imm,
    })
}

/// An operation with -3, on a register and on x0.
const BY_MINUS_THREE: [(AluImm, Row, Row); 7] = [
    (
        AluImm::Addi,
        (149, 7, 8, 0, MINUS_THREE),
        (51, 7, 0, 0, MINUS_THREE),
    ),
    (AluImm::Slti, (137, 7, 8, 0, MINUS_THREE), (51, 7, 0, 0, 0)),
    (AluImm::Sltiu, (136, 7, 8, 0, MINUS_THREE), (51, 7, 0, 0, 1)),
    (
        AluImm::Xori,
        (133, 7, 8, 0, MINUS_THREE),
        (51, 7, 0, 0, MINUS_THREE),
    ),
    (
        AluImm::Ori,
        (134, 7, 8, 0, MINUS_THREE),
        (51, 7, 0, 0, MINUS_THREE),
    ),
    (AluImm::Andi, (132, 7, 8, 0, MINUS_THREE), (51, 7, 0, 0, 0)),
    (
        AluImm::Addiw,
        (131, 7, 8, 0, MINUS_THREE),
        (51, 7, 0, 0, MINUS_THREE),
    ),
];

#[test]
fn immediates(rt: HostRuntime) {
    for (op, on_register, on_zero) in BY_MINUS_THREE {
        see(&rt, immediate(op, Reg::R(8), -3), &[on_register]);
        see(&rt, immediate(op, Reg::Zero, -3), &[on_zero]);
    }
}

/// A shift by 31. On x0 it gives 0.
const SHIFTS: [(AluImm, u8); 6] = [
    (AluImm::Slli, 151),
    (AluImm::Srli, 152),
    (AluImm::Srai, 153),
    (AluImm::Slliw, 138),
    (AluImm::Srliw, 139),
    (AluImm::Sraiw, 140),
];

#[test]
fn shifts(rt: HostRuntime) {
    for (op, opcode) in SHIFTS {
        see(&rt, immediate(op, Reg::R(8), 31), &[(opcode, 7, 8, 0, 31)]);
        see(&rt, immediate(op, Reg::Zero, 31), &[(51, 7, 0, 0, 0)]);
    }
}

fn load(width: LoadWidth, rs1: Reg) -> Three
    requires { IsReg rs1 }
{
    lower_operation(&RvOp::Load {
        width,
        rd: Reg::R(7),
        rs1,
        imm: -8,
    })
}

/// Opcodes of loads by a register, and from x0.
const LOADS: [(LoadWidth, u8, u8); 7] = [
    (LoadWidth::Lb, 125, 53),
    (LoadWidth::Lh, 127, 55),
    (LoadWidth::Lw, 129, 57),
    (LoadWidth::Ld, 130, 58),
    (LoadWidth::Lbu, 124, 52),
    (LoadWidth::Lhu, 126, 54),
    (LoadWidth::Lwu, 128, 56),
];

#[test]
fn loads(rt: HostRuntime) {
    for (width, by_register, from_zero) in LOADS {
        see(
            &rt,
            load(width, Reg::R(8)),
            &[(by_register, 7, 8, 0, MINUS_EIGHT)],
        );
        see(
            &rt,
            load(width, Reg::Zero),
            &[(from_zero, 7, 0, 0, MINUS_EIGHT)],
        );
    }
}

fn store(width: StoreWidth, rs1: Reg, rs2: Reg) -> Three
    requires first { IsReg rs1 }
    requires second { IsReg rs2 }
{
    lower_operation(&RvOp::Store {
        width,
        rs1,
        rs2,
        imm: 8,
    })
}

/// Opcodes of stores: of a register by a register and from x0, and of x0 by a register and from x0.
const STORES: [(StoreWidth, [u8; 4]); 4] = [
    (StoreWidth::Sb, [120, 59, 70, 30]),
    (StoreWidth::Sh, [121, 60, 71, 31]),
    (StoreWidth::Sw, [122, 61, 72, 32]),
    (StoreWidth::Sd, [123, 62, 73, 33]),
];

#[test]
fn stores(rt: HostRuntime) {
    for (width, ops) in STORES {
        see(
            &rt,
            store(width, Reg::R(8), Reg::R(9)),
            &[(ops[0], 9, 8, 0, 8)],
        );
        see(
            &rt,
            store(width, Reg::Zero, Reg::R(9)),
            &[(ops[1], 9, 0, 0, 8)],
        );
        see(
            &rt,
            store(width, Reg::R(8), Reg::Zero),
            &[(ops[2], 8, 0, 0, 8)],
        );
        see(
            &rt,
            store(width, Reg::Zero, Reg::Zero),
            &[(ops[3], 0, 0, 0, 8)],
        );
    }
}

#[test]
fn writes_to_x0_are_nothing(rt: HostRuntime) {
    let lui = RvOp::Lui {
        rd: Reg::Zero,
        value: 0x1000,
    };
    see(&rt, lower_operation(&lui), &[]);
    let auipc = RvOp::Auipc {
        rd: Reg::Zero,
        value: -0x1000,
    };
    see(&rt, lower_operation(&auipc), &[]);
    let add = RvOp::OpImm {
        op: AluImm::Addi,
        rd: Reg::Zero,
        rs1: Reg::R(8),
        imm: 1,
    };
    see(&rt, lower_operation(&add), &[]);
    let remainder = RvOp::Op {
        op: Alu::Rem,
        rd: Reg::Zero,
        rs1: Reg::R(8),
        rs2: Reg::R(9),
    };
    see(&rt, lower_operation(&remainder), &[]);
    see(&rt, lower_operation(&RvOp::Fence), &[]);
}

#[test]
fn constants_and_the_trap(rt: HostRuntime) {
    let upper = RvOp::Lui {
        rd: Reg::R(12),
        value: -0x8000_0000,
    };
    see(
        &rt,
        lower_operation(&upper),
        &[(51, 12, 0, 0, 0xffff_ffff_8000_0000)],
    );
    let address = RvOp::Auipc {
        rd: Reg::R(0),
        value: 0x1_0004,
    };
    see(&rt, lower_operation(&address), &[(51, 0, 0, 0, 0x1_0004)]);
    see(&rt, lower_operation(&RvOp::Trap), &[(0, 0, 0, 0, 0)]);
}

/// Nothing of this law is seen where a program runs: the test shows that it can be called.
#[test]
fn a_law_of_operations_is_there() {
    operations_are_implemented();
}
