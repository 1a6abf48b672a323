//! The instruction that has the effect of an operation, where neither of its registers is x0: its opcode, and what it
//! computes.

ghost use Rattle.std.specs.Prelude.{◌≡◌};
ghost use Rattle.lift_blocks.specs.Arithmetic.{of_alu, of_alu_imm};
ghost use Rattle.lower.specs.Lowering.{branch_opcode, branch_zero_opcode, zero_branch_opcode};
ghost use Rattle.lower.specs.Plain.{alu_imm_opcode, alu_opcode, load_ind_opcode, load_opcode, store_imm_ind_opcode, store_imm_opcode, store_ind_opcode, store_opcode};

use arithmetic::Binary;
use rv_decode::{Alu, AluImm, Cond, LoadWidth, StoreWidth};

/// What an operation on a register and an immediate computes.
pub(crate) fn alu_imm_binary(op: AluImm) -> Binary
    ensures { result ≡ of_alu_imm op }
{
    match op {
        AluImm::Addi => Binary::Add64,
        AluImm::Slti => Binary::SetLtS,
        AluImm::Sltiu => Binary::SetLtU,
        AluImm::Xori => Binary::Xor,
        AluImm::Ori => Binary::Or,
        AluImm::Andi => Binary::And,
        AluImm::Slli => Binary::ShloL64,
        AluImm::Srli => Binary::ShloR64,
        AluImm::Srai => Binary::SharR64,
        AluImm::Addiw => Binary::Add32,
        AluImm::Slliw => Binary::ShloL32,
        AluImm::Srliw => Binary::ShloR32,
        AluImm::Sraiw => Binary::SharR32,
    }
}

/// What an operation on two registers computes.
pub(crate) fn alu_binary(op: Alu) -> Binary
    ensures { result ≡ of_alu op }
{
    match op {
        Alu::Add => Binary::Add64,
        Alu::Sub => Binary::Sub64,
        Alu::Sll => Binary::ShloL64,
        Alu::Slt => Binary::SetLtS,
        Alu::Sltu => Binary::SetLtU,
        Alu::Xor => Binary::Xor,
        Alu::Srl => Binary::ShloR64,
        Alu::Sra => Binary::SharR64,
        Alu::Or => Binary::Or,
        Alu::And => Binary::And,
        Alu::Mul => Binary::Mul64,
        Alu::Mulh => Binary::MulUpperSS,
        Alu::Mulhsu => Binary::MulUpperSU,
        Alu::Mulhu => Binary::MulUpperUU,
        Alu::Div => Binary::DivS64,
        Alu::Divu => Binary::DivU64,
        Alu::Rem => Binary::RemS64,
        Alu::Remu => Binary::RemU64,
        Alu::Addw => Binary::Add32,
        Alu::Subw => Binary::Sub32,
        Alu::Sllw => Binary::ShloL32,
        Alu::Srlw => Binary::ShloR32,
        Alu::Sraw => Binary::SharR32,
        Alu::Mulw => Binary::Mul32,
        Alu::Divw => Binary::DivS32,
        Alu::Divuw => Binary::DivU32,
        Alu::Remw => Binary::RemS32,
        Alu::Remuw => Binary::RemU32,
    }
}

/// The opcode of an operation on a register and an immediate.
pub(crate) fn alu_imm_opcode(op: AluImm) -> u8
    ensures { result ≡ alu_imm_opcode op }
{
    match op {
        AluImm::Addi => 149,
        AluImm::Slti => 137,
        AluImm::Sltiu => 136,
        AluImm::Xori => 133,
        AluImm::Ori => 134,
        AluImm::Andi => 132,
        AluImm::Slli => 151,
        AluImm::Srli => 152,
        AluImm::Srai => 153,
        AluImm::Addiw => 131,
        AluImm::Slliw => 138,
        AluImm::Srliw => 139,
        AluImm::Sraiw => 140,
    }
}

/// The opcode of an operation on two registers.
pub(crate) fn alu_opcode(op: Alu) -> u8
    ensures { result ≡ alu_opcode op }
{
    match op {
        Alu::Add => 200,
        Alu::Sub => 201,
        Alu::Sll => 207,
        Alu::Slt => 217,
        Alu::Sltu => 216,
        Alu::Xor => 211,
        Alu::Srl => 208,
        Alu::Sra => 209,
        Alu::Or => 212,
        Alu::And => 210,
        Alu::Mul => 202,
        Alu::Mulh => 213,
        Alu::Mulhsu => 215,
        Alu::Mulhu => 214,
        Alu::Div => 204,
        Alu::Divu => 203,
        Alu::Rem => 206,
        Alu::Remu => 205,
        Alu::Addw => 190,
        Alu::Subw => 191,
        Alu::Sllw => 197,
        Alu::Srlw => 198,
        Alu::Sraw => 199,
        Alu::Mulw => 192,
        Alu::Divw => 194,
        Alu::Divuw => 193,
        Alu::Remw => 196,
        Alu::Remuw => 195,
    }
}

/// The opcode of a load from an immediate address.
pub(crate) fn load_opcode(width: LoadWidth) -> u8
    ensures { result ≡ load_opcode width }
{
    match width {
        LoadWidth::Lb => 53,
        LoadWidth::Lh => 55,
        LoadWidth::Lw => 57,
        LoadWidth::Ld => 58,
        LoadWidth::Lbu => 52,
        LoadWidth::Lhu => 54,
        LoadWidth::Lwu => 56,
    }
}

/// The opcode of a load from a register and an immediate.
pub(crate) fn load_ind_opcode(width: LoadWidth) -> u8
    ensures { result ≡ load_ind_opcode width }
{
    match width {
        LoadWidth::Lb => 125,
        LoadWidth::Lh => 127,
        LoadWidth::Lw => 129,
        LoadWidth::Ld => 130,
        LoadWidth::Lbu => 124,
        LoadWidth::Lhu => 126,
        LoadWidth::Lwu => 128,
    }
}

/// The opcode of a store of a register at an immediate address.
pub(crate) fn store_opcode(width: StoreWidth) -> u8
    ensures { result ≡ store_opcode width }
{
    match width {
        StoreWidth::Sb => 59,
        StoreWidth::Sh => 60,
        StoreWidth::Sw => 61,
        StoreWidth::Sd => 62,
    }
}

/// The opcode of a store of a register at a register and an immediate.
pub(crate) fn store_ind_opcode(width: StoreWidth) -> u8
    ensures { result ≡ store_ind_opcode width }
{
    match width {
        StoreWidth::Sb => 120,
        StoreWidth::Sh => 121,
        StoreWidth::Sw => 122,
        StoreWidth::Sd => 123,
    }
}

/// The opcode of a store of an immediate at an immediate address.
pub(crate) fn store_imm_opcode(width: StoreWidth) -> u8
    ensures { result ≡ store_imm_opcode width }
{
    match width {
        StoreWidth::Sb => 30,
        StoreWidth::Sh => 31,
        StoreWidth::Sw => 32,
        StoreWidth::Sd => 33,
    }
}

/// The opcode of a store of an immediate at a register and an immediate.
pub(crate) fn store_imm_ind_opcode(width: StoreWidth) -> u8
    ensures { result ≡ store_imm_ind_opcode width }
{
    match width {
        StoreWidth::Sb => 70,
        StoreWidth::Sh => 71,
        StoreWidth::Sw => 72,
        StoreWidth::Sd => 73,
    }
}

/// The opcode of a branch on two registers.
pub(crate) fn branch_opcode(cond: Cond) -> u8
    ensures { result ≡ branch_opcode cond }
{
    match cond {
        Cond::Eq => 170,
        Cond::Ne => 171,
        Cond::Lt => 173,
        Cond::Ge => 175,
        Cond::Ltu => 172,
        Cond::Geu => 174,
    }
}

/// The opcode of a branch on a register and x0.
pub(crate) fn branch_zero_opcode(cond: Cond) -> u8
    ensures { result ≡ branch_zero_opcode cond }
{
    match cond {
        Cond::Eq => 81,
        Cond::Ne => 82,
        Cond::Lt => 87,
        Cond::Ge => 89,
        Cond::Ltu => 83,
        Cond::Geu => 85,
    }
}

/// The opcode of a branch on x0 and a register, by the comparison of the register with 0.
pub(crate) fn zero_branch_opcode(cond: Cond) -> u8
    ensures { result ≡ zero_branch_opcode cond }
{
    match cond {
        Cond::Eq => 81,
        Cond::Ne => 82,
        Cond::Lt => 90,
        Cond::Ge => 88,
        Cond::Ltu => 86,
        Cond::Geu => 84,
    }
}
