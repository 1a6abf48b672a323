ghost use Rattle.std.specs.Prelude.{◌≡◌, ◌<◌, ◌≤◌, ◌^◌};
ghost use Rattle.generated.specs.Words.{next, word_of, instruction, register as register_of, r_type, i_type};
ghost use Rattle.numbers.specs.Words.{field};

const MULTIPLIER: u64 = 6_364_136_223_846_793_005;

const INCREMENT: u64 = 1_442_695_040_888_963_407;

/// The first of the registers a2 to a5.
const FIRST_REGISTER: u32 = 12;

/// The number of the generator after one.
pub(crate) fn next(x: u64) -> u64
    ensures { result ≡ next x }
{
    x.wrapping_mul(MULTIPLIER).wrapping_add(INCREMENT)
}

/// The word that a number of the generator chooses.
pub(crate) fn word_of(x: u64) -> u32
    ensures { result ≡ word_of x }
{
    let first = register(x / (1 << 38) % 4);
    let second = register(x / (1 << 40) % 4);
    let immediate = (x / (1 << 42) % 2048) as u32;
    instruction(
        (x / (1 << 33) % 8) as u8,
        register(x / (1 << 36) % 4),
        first,
        second,
        immediate,
    )
}

/// A register by its number among a2 to a5.
fn register(number: u64) -> u32
    requires { number < 4 }
    ensures { result ≡ register_of number }
{
    FIRST_REGISTER + number as u32
}

/// The instruction of a kind with these registers and this immediate: addi, add, sub, xor, mul, sltu, srliw, divu.
#[tactic(auto, unfolding(crate::specs::Words::instruction))]
fn instruction(kind: u8, rd: u32, rs1: u32, rs2: u32, immediate: u32) -> u32
    requires rd { rd < 32 }
    requires rs1 { rs1 < 32 }
    requires rs2 { rs2 < 32 }
    requires immediate { immediate < 2048 }
    ensures { result ≡ instruction kind rd rs1 rs2 immediate }
{
    match kind {
        0 => i_type(19, 0, rd, rs1, immediate),
        1 => r_type(0, 0, rd, rs1, rs2),
        2 => r_type(32, 0, rd, rs1, rs2),
        3 => r_type(0, 4, rd, rs1, rs2),
        4 => r_type(1, 0, rd, rs1, rs2),
        5 => r_type(0, 3, rd, rs1, rs2),
        6 => i_type(27, 5, rd, rs1, immediate % 32),
        _ => r_type(1, 5, rd, rs1, rs2),
    }
}

/// An instruction of two registers.
fn r_type(funct7: u32, funct3: u32, rd: u32, rs1: u32, rs2: u32) -> u32
    requires funct7 { funct7 ≤ 32 }
    requires funct3 { funct3 < 8 }
    requires rd { rd < 32 }
    requires rs1 { rs1 < 32 }
    requires rs2 { rs2 < 32 }
    ensures { result ≡ r_type funct7 funct3 rd rs1 rs2 }
{
    funct7 * (1 << 25) + rs2 * (1 << 20) + rs1 * (1 << 15) + funct3 * (1 << 12) + rd * (1 << 7) + 51
}

/// An instruction of a register and an immediate.
fn i_type(opcode: u32, funct3: u32, rd: u32, rs1: u32, immediate: u32) -> u32
    requires opcode { opcode < 128 }
    requires funct3 { funct3 < 8 }
    requires rd { rd < 32 }
    requires rs1 { rs1 < 32 }
    requires immediate { immediate < 2048 }
    ensures { result ≡ i_type opcode funct3 rd rs1 immediate }
{
    immediate * (1 << 20) + rs1 * (1 << 15) + funct3 * (1 << 12) + rd * (1 << 7) + opcode
}
