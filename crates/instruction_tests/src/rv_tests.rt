//! Words of RV64EM and their operations and faults.

use rv_decode::{Alu, AluImm, Cond, LoadWidth, Reg, RvOp, StoreWidth, WordFault, decode};
use std::test::*;

// The words are those that an assembler gives for the operations.

fn op_imm(op: AluImm, rd: Reg, rs1: Reg, imm: i32) -> RvOp {
    RvOp::OpImm { op, rd, rs1, imm }
}

fn op(op: Alu) -> RvOp {
    RvOp::Op {
        op,
        rd: Reg::R(7),
        rs1: Reg::R(8),
        rs2: Reg::R(9),
    }
}

#[test]
fn decodes_upper_immediates(rt: HostRuntime) {
    let rows = [
        (
            0x1234_5537,
            RvOp::Lui {
                rd: Reg::R(7),
                value: 0x1234_5000,
            },
        ),
        (
            0x8000_02b7,
            RvOp::Lui {
                rd: Reg::R(2),
                value: -0x8000_0000,
            },
        ),
        (
            0x7fff_f137,
            RvOp::Lui {
                rd: Reg::R(1),
                value: 0x7fff_f000,
            },
        ),
        (
            0x0000_1037,
            RvOp::Lui {
                rd: Reg::Zero,
                value: 0x1000,
            },
        ),
        (
            0xffff_f517,
            RvOp::Auipc {
                rd: Reg::R(7),
                value: -0x1000,
            },
        ),
        (
            0x0000_0797,
            RvOp::Auipc {
                rd: Reg::R(12),
                value: 0,
            },
        ),
    ];
    for (word, want) in rows {
        assert_eq!(rt; decode(word), Ok(want), "at {word:x}");
    }
}

#[test]
fn decodes_jumps(rt: HostRuntime) {
    let rows = [
        (
            0x7fff_f0ef,
            RvOp::Jal {
                rd: Reg::R(0),
                offset: 1048574,
            },
        ),
        (
            0x8000_006f,
            RvOp::Jal {
                rd: Reg::Zero,
                offset: -1048576,
            },
        ),
        (
            0xffff_f06f,
            RvOp::Jal {
                rd: Reg::Zero,
                offset: -2,
            },
        ),
        (
            0x0010_02ef,
            RvOp::Jal {
                rd: Reg::R(2),
                offset: 2048,
            },
        ),
        (
            0xfff2_80e7,
            RvOp::Jalr {
                rd: Reg::R(0),
                rs1: Reg::R(2),
                imm: -1,
            },
        ),
        (
            0x7ff7_8067,
            RvOp::Jalr {
                rd: Reg::Zero,
                rs1: Reg::R(12),
                imm: 2047,
            },
        ),
        (
            0x0000_8067,
            RvOp::Jalr {
                rd: Reg::Zero,
                rs1: Reg::R(0),
                imm: 0,
            },
        ),
    ];
    for (word, want) in rows {
        assert_eq!(rt; decode(word), Ok(want), "at {word:x}");
    }
}

#[test]
fn decodes_branches(rt: HostRuntime) {
    let rows = [
        (
            0x7eb5_0fe3,
            RvOp::Branch {
                cond: Cond::Eq,
                rs1: Reg::R(7),
                rs2: Reg::R(8),
                offset: 4094,
            },
        ),
        (
            0x8002_9063,
            RvOp::Branch {
                cond: Cond::Ne,
                rs1: Reg::R(2),
                rs2: Reg::Zero,
                offset: -4096,
            },
        ),
        (
            0xfeb0_4fe3,
            RvOp::Branch {
                cond: Cond::Lt,
                rs1: Reg::Zero,
                rs2: Reg::R(8),
                offset: -2,
            },
        ),
        (
            0x0011_50e3,
            RvOp::Branch {
                cond: Cond::Ge,
                rs1: Reg::R(1),
                rs2: Reg::R(0),
                offset: 2048,
            },
        ),
        (
            0x0094_6463,
            RvOp::Branch {
                cond: Cond::Ltu,
                rs1: Reg::R(5),
                rs2: Reg::R(6),
                offset: 8,
            },
        ),
        (
            0x02f7_7063,
            RvOp::Branch {
                cond: Cond::Geu,
                rs1: Reg::R(11),
                rs2: Reg::R(12),
                offset: 32,
            },
        ),
    ];
    for (word, want) in rows {
        assert_eq!(rt; decode(word), Ok(want), "at {word:x}");
    }
}

#[test]
fn decodes_loads(rt: HostRuntime) {
    let rows = [
        (
            0x8001_0503,
            RvOp::Load {
                width: LoadWidth::Lb,
                rd: Reg::R(7),
                rs1: Reg::R(1),
                imm: -2048,
            },
        ),
        (
            0x7ff0_1583,
            RvOp::Load {
                width: LoadWidth::Lh,
                rd: Reg::R(8),
                rs1: Reg::Zero,
                imm: 2047,
            },
        ),
        (
            0x0006_a603,
            RvOp::Load {
                width: LoadWidth::Lw,
                rd: Reg::R(9),
                rs1: Reg::R(10),
                imm: 0,
            },
        ),
        (
            0x0081_3083,
            RvOp::Load {
                width: LoadWidth::Ld,
                rd: Reg::R(0),
                rs1: Reg::R(1),
                imm: 8,
            },
        ),
        (
            0xfff3_c303,
            RvOp::Load {
                width: LoadWidth::Lbu,
                rd: Reg::R(3),
                rs1: Reg::R(4),
                imm: -1,
            },
        ),
        (
            0x0014_d403,
            RvOp::Load {
                width: LoadWidth::Lhu,
                rd: Reg::R(5),
                rs1: Reg::R(6),
                imm: 1,
            },
        ),
        (
            0x0047_6783,
            RvOp::Load {
                width: LoadWidth::Lwu,
                rd: Reg::R(12),
                rs1: Reg::R(11),
                imm: 4,
            },
        ),
    ];
    for (word, want) in rows {
        assert_eq!(rt; decode(word), Ok(want), "at {word:x}");
    }
}

#[test]
fn decodes_stores(rt: HostRuntime) {
    let rows = [
        (
            0x80a1_0023,
            RvOp::Store {
                width: StoreWidth::Sb,
                rs1: Reg::R(1),
                rs2: Reg::R(7),
                imm: -2048,
            },
        ),
        (
            0x7eb0_1fa3,
            RvOp::Store {
                width: StoreWidth::Sh,
                rs1: Reg::Zero,
                rs2: Reg::R(8),
                imm: 2047,
            },
        ),
        (
            0xfe06_afa3,
            RvOp::Store {
                width: StoreWidth::Sw,
                rs1: Reg::R(10),
                rs2: Reg::Zero,
                imm: -1,
            },
        ),
        (
            0x0011_3423,
            RvOp::Store {
                width: StoreWidth::Sd,
                rs1: Reg::R(1),
                rs2: Reg::R(0),
                imm: 8,
            },
        ),
    ];
    for (word, want) in rows {
        assert_eq!(rt; decode(word), Ok(want), "at {word:x}");
    }
}

#[test]
fn decodes_operations_on_immediates(rt: HostRuntime) {
    let rows = [
        (0x0050_0513, op_imm(AluImm::Addi, Reg::R(7), Reg::Zero, 5)),
        (0xfff0_8093, op_imm(AluImm::Addi, Reg::R(0), Reg::R(0), -1)),
        (
            0x8001_0113,
            op_imm(AluImm::Addi, Reg::R(1), Reg::R(1), -2048),
        ),
        (
            0x7ff7_8293,
            op_imm(AluImm::Addi, Reg::R(2), Reg::R(12), 2047),
        ),
        (0xffd6_2593, op_imm(AluImm::Slti, Reg::R(8), Reg::R(9), -3)),
        (0xffd6_3593, op_imm(AluImm::Sltiu, Reg::R(8), Reg::R(9), -3)),
        (
            0xfff7_4693,
            op_imm(AluImm::Xori, Reg::R(10), Reg::R(11), -1),
        ),
        (
            0x4007_6693,
            op_imm(AluImm::Ori, Reg::R(10), Reg::R(11), 1024),
        ),
        (
            0x0ff7_7693,
            op_imm(AluImm::Andi, Reg::R(10), Reg::R(11), 255),
        ),
        (0xfff5_851b, op_imm(AluImm::Addiw, Reg::R(7), Reg::R(8), -1)),
        (0x0000_0013, op_imm(AluImm::Addi, Reg::Zero, Reg::Zero, 0)),
    ];
    for (word, want) in rows {
        assert_eq!(rt; decode(word), Ok(want), "at {word:x}");
    }
}

#[test]
fn decodes_shifts_by_immediates(rt: HostRuntime) {
    let rows = [
        (0x0005_9513, op_imm(AluImm::Slli, Reg::R(7), Reg::R(8), 0)),
        (0x03f5_9513, op_imm(AluImm::Slli, Reg::R(7), Reg::R(8), 63)),
        (0x0205_d513, op_imm(AluImm::Srli, Reg::R(7), Reg::R(8), 32)),
        (0x43f5_d513, op_imm(AluImm::Srai, Reg::R(7), Reg::R(8), 63)),
        (0x01f5_951b, op_imm(AluImm::Slliw, Reg::R(7), Reg::R(8), 31)),
        (0x0005_d51b, op_imm(AluImm::Srliw, Reg::R(7), Reg::R(8), 0)),
        (0x41f5_d51b, op_imm(AluImm::Sraiw, Reg::R(7), Reg::R(8), 31)),
    ];
    for (word, want) in rows {
        assert_eq!(rt; decode(word), Ok(want), "at {word:x}");
    }
}

#[test]
fn decodes_operations_on_registers(rt: HostRuntime) {
    let rows = [
        (0x00c5_8533, op(Alu::Add)),
        (0x40c5_8533, op(Alu::Sub)),
        (0x00c5_9533, op(Alu::Sll)),
        (0x00c5_a533, op(Alu::Slt)),
        (0x00c5_b533, op(Alu::Sltu)),
        (0x00c5_c533, op(Alu::Xor)),
        (0x00c5_d533, op(Alu::Srl)),
        (0x40c5_d533, op(Alu::Sra)),
        (0x00c5_e533, op(Alu::Or)),
        (0x00c5_f533, op(Alu::And)),
    ];
    for (word, want) in rows {
        assert_eq!(rt; decode(word), Ok(want), "at {word:x}");
    }
}

#[test]
fn decodes_multiplications(rt: HostRuntime) {
    let rows = [
        (0x02c5_8533, op(Alu::Mul)),
        (0x02c5_9533, op(Alu::Mulh)),
        (0x02c5_a533, op(Alu::Mulhsu)),
        (0x02c5_b533, op(Alu::Mulhu)),
        (0x02c5_c533, op(Alu::Div)),
        (0x02c5_d533, op(Alu::Divu)),
        (0x02c5_e533, op(Alu::Rem)),
        (0x02c5_f533, op(Alu::Remu)),
    ];
    for (word, want) in rows {
        assert_eq!(rt; decode(word), Ok(want), "at {word:x}");
    }
}

#[test]
fn decodes_operations_on_low_halves(rt: HostRuntime) {
    let rows = [
        (0x00c5_853b, op(Alu::Addw)),
        (0x40c5_853b, op(Alu::Subw)),
        (0x00c5_953b, op(Alu::Sllw)),
        (0x00c5_d53b, op(Alu::Srlw)),
        (0x40c5_d53b, op(Alu::Sraw)),
        (0x02c5_853b, op(Alu::Mulw)),
        (0x02c5_c53b, op(Alu::Divw)),
        (0x02c5_d53b, op(Alu::Divuw)),
        (0x02c5_e53b, op(Alu::Remw)),
        (0x02c5_f53b, op(Alu::Remuw)),
    ];
    for (word, want) in rows {
        assert_eq!(rt; decode(word), Ok(want), "at {word:x}");
    }
}

#[test]
fn decodes_fences_and_traps(rt: HostRuntime) {
    let rows = [
        (0x0ff0_000f, RvOp::Fence),
        (0x0210_000f, RvOp::Fence),
        (0xffff_8f8f, RvOp::Fence),
        (0x0010_0073, RvOp::Trap),
        (0xc000_1073, RvOp::Trap),
    ];
    for (word, want) in rows {
        assert_eq!(rt; decode(word), Ok(want), "at {word:x}");
    }
}

#[test]
fn refuses_bad_words(rt: HostRuntime) {
    // no word at all; functions that no operation has; fence.i, csrrw, amoadd.w, fadd.s, and a word of 16 bits
    let words = [
        0x0000_0000,
        0xffff_ffff,
        0x0000_9067,
        0x0000_a063,
        0x0000_7003,
        0x0000_4023,
        0x0405_9513,
        0x2005_d513,
        0x0205_951b,
        0x0000_251b,
        0x40c5_9533,
        0x04c5_8533,
        0x00c5_a53b,
        0x02c5_953b,
        0x0000_100f,
        0x3005_9573,
        0x00b6_252f,
        0x00c5_f553,
        0x0020_0073,
        0x0000_0001,
    ];
    for word in words {
        assert_eq!(rt; decode(word), Err(WordFault::BadWord), "at {word:x}");
    }
}

#[test]
fn refuses_registers(rt: HostRuntime) {
    // x3, x4 and x16 to x31, in each place that an operation has for one
    let words = [
        0x00c5_81b3,
        0x00c2_0533,
        0x0105_8533,
        0x0005_2183,
        0x0002_0003,
        0x01f5_3023,
        0x0125_0463,
        0x0080_01ef,
        0x0005_0267,
        0x0000_1837,
        0x0000_1e17,
        0x0015_091b,
    ];
    for word in words {
        assert_eq!(rt; decode(word), Err(WordFault::BadRegister), "at {word:x}");
    }
}

#[test]
fn refuses_calls_and_loads_to_zero(rt: HostRuntime) {
    assert_eq!(rt; decode(0x0000_0073), Err(WordFault::Ecall));
    // lb and lwu into x0
    assert_eq!(rt; decode(0x0005_0003), Err(WordFault::LoadToZero));
    assert_eq!(rt; decode(0x0005_6003), Err(WordFault::LoadToZero));
}

#[test]
fn reports_the_first_fault(rt: HostRuntime) {
    // a load of no width into x0 from x4, and a load into x0 from x4
    assert_eq!(rt; decode(0x0002_7003), Err(WordFault::BadWord));
    assert_eq!(rt; decode(0x0002_0003), Err(WordFault::BadRegister));
}
