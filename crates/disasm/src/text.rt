//! What is printed into the text that is kept until a piece of it is put.

ghost use Rattle.std.specs.Prelude.{◌≡◌, ◌+◌, ◌*◌, ◌≤◌, ◌<◌, ◌++◌, true, ◌∷◌, [], length, codes, decimal, IsTrue, slice_index};
ghost use Rattle.std.specs.Fmt.{signed_decimal};
ghost use Rattle.arrayvec.specs.ArrayString.{array_string_len};
ghost use Rattle.pvm_ops.specs.Listing.{is_marked};
ghost use Rattle.pvm_ops.specs.Opcodes.{is_known, name_of};
ghost use Rattle.disasm.specs.Disassembly.{immediate, instruction, operands, register, target};

use arrayvec::ArrayString;
use itoa::Buffer;
use pvm_ops::{Code, Form, Instr, fetch, form, known, name};

/// How many bytes of text are kept at most: large enough that few pieces are put.
pub(crate) const PIECE_LEN: usize = 8192;

/// Room for a line without its bytes.
pub(crate) const LINE_LEN: usize = 256;

/// Room for an operand, and for a number with its label.
const NUMBER_LEN: usize = 48;

/// Text that is kept.
pub(crate) type Text = ArrayString<PIECE_LEN>;

/// Adds a label and a number in decimal.
pub(crate) fn push_number(label: &str, number: u64, text: &mut Text)
    requires short { length label.now ≤ 8 }
    requires room { array_string_len text.old + NUMBER_LEN ≤ PIECE_LEN }
    ensures text { text.new.bytes ≡ text.old.bytes ++ (label.now ++ decimal number) }
    ensures len { array_string_len text.new ≤ array_string_len text.old + NUMBER_LEN }
{
    let mut digits = Buffer::new();
    text.push_str(label);
    text.push_str(digits.format(number));
}

/// Adds a label and a signed number in decimal.
fn push_signed(label: &str, number: i64, text: &mut Text)
    requires short { length label.now ≤ 8 }
    requires room { array_string_len text.old + NUMBER_LEN ≤ PIECE_LEN }
    ensures text { text.new.bytes ≡ text.old.bytes ++ (label.now ++ signed_decimal number) }
    ensures len { array_string_len text.new ≤ array_string_len text.old + NUMBER_LEN }
{
    let mut digits = Buffer::new();
    text.push_str(label);
    text.push_str(digits.format(number));
}

/// Adds a register.
fn push_register(number: u8, text: &mut Text)
    requires { array_string_len text.old + NUMBER_LEN ≤ PIECE_LEN }
    ensures text { text.new.bytes ≡ text.old.bytes ++ register number }
    ensures len { array_string_len text.new ≤ array_string_len text.old + NUMBER_LEN }
{
    push_number(" r", u64::from(number), text);
}

/// Adds two registers.
fn push_registers(first: u8, second: u8, text: &mut Text)
    requires { array_string_len text.old + 2 * NUMBER_LEN ≤ PIECE_LEN }
    ensures text { text.new.bytes ≡ text.old.bytes ++ (register first ++ register second) }
    ensures len { array_string_len text.new ≤ array_string_len text.old + 2 * NUMBER_LEN }
{
    push_register(first, text);
    push_register(second, text);
}

/// Adds an immediate.
fn push_immediate(value: u64, text: &mut Text)
    requires { array_string_len text.old + NUMBER_LEN ≤ PIECE_LEN }
    ensures text { text.new.bytes ≡ text.old.bytes ++ immediate value }
    ensures len { array_string_len text.new ≤ array_string_len text.old + NUMBER_LEN }
{
    push_signed(" ", value.cast_signed(), text);
}

/// Adds two immediates.
fn push_immediates(first: u64, second: u64, text: &mut Text)
    requires { array_string_len text.old + 2 * NUMBER_LEN ≤ PIECE_LEN }
    ensures text { text.new.bytes ≡ text.old.bytes ++ (immediate first ++ immediate second) }
    ensures len { array_string_len text.new ≤ array_string_len text.old + 2 * NUMBER_LEN }
{
    push_immediate(first, text);
    push_immediate(second, text);
}

/// Adds the position to which an offset leads from a position.
fn push_target(at: u64, offset: u64, text: &mut Text)
    requires { array_string_len text.old + NUMBER_LEN ≤ PIECE_LEN }
    ensures text { text.new.bytes ≡ text.old.bytes ++ target at offset }
    ensures len { array_string_len text.new ≤ array_string_len text.old + NUMBER_LEN }
{
    push_signed(" @", at.wrapping_add(offset).cast_signed(), text);
}

/// Adds the operands of an instruction of a form at a position.
fn push_operands(form: Form, at: u64, instr: &Instr, text: &mut Text)
    requires { array_string_len text.old + 4 * NUMBER_LEN ≤ PIECE_LEN }
    ensures text { text.new.bytes ≡ text.old.bytes ++ operands form at instr.now }
    ensures len { array_string_len text.new ≤ array_string_len text.old + 4 * NUMBER_LEN }
{
    match form {
        Form::N => {}
        Form::X => push_immediate(instr.x, text),
        Form::RE | Form::RX => {
            push_register(instr.a, text);
            push_immediate(instr.x, text);
        }
        Form::XY => push_immediates(instr.x, instr.y, text),
        Form::O => push_target(at, instr.x, text),
        Form::RXY => {
            push_register(instr.a, text);
            push_immediates(instr.x, instr.y, text);
        }
        Form::RXO => {
            push_register(instr.a, text);
            push_immediate(instr.x, text);
            push_target(at, instr.y, text);
        }
        Form::RR => push_registers(instr.d, instr.a, text),
        Form::RRX => {
            push_registers(instr.a, instr.b, text);
            push_immediate(instr.x, text);
        }
        Form::RRO => {
            push_registers(instr.a, instr.b, text);
            push_target(at, instr.x, text);
        }
        Form::RRXY => {
            push_registers(instr.a, instr.b, text);
            push_immediates(instr.x, instr.y, text);
        }
        Form::RRR => {
            push_registers(instr.d, instr.a, text);
            push_register(instr.b, text);
        }
    }
}

/// Adds the name and the operands of the instruction that is marked at a position.
#[tactic(auto, unfolding(crate::specs::Disassembly::instruction))]
pub(crate) fn push_instruction(code: &Code<'_>, at: u64, text: &mut Text)
    requires marked { is_marked code.now at ≡ true }
    requires room { array_string_len text.old + LINE_LEN ≤ PIECE_LEN }
    ensures text { text.new.bytes ≡ text.old.bytes ++ instruction code.now at }
    ensures len { array_string_len text.new < array_string_len text.old + LINE_LEN }
{
    let op = code.bytes()[at as usize];
    if known(op) {
        text.push_str(" ");
        push_name(op, text);
        push_operands(form(op), at, &fetch(code, at).instr, text);
    } else {
        text.push_str(" unknown");
    }
}

/// Adds the name of a known opcode.
#[tactic(auto, using(crate::proofs::Names::names_are_short))]
fn push_name(op: u8, text: &mut Text)
    requires known { IsTrue (is_known op) }
    requires room { array_string_len text.old + NUMBER_LEN ≤ PIECE_LEN }
    ensures text { text.new.bytes ≡ text.old.bytes ++ name_of op }
    ensures len { array_string_len text.new ≤ array_string_len text.old + NUMBER_LEN }
{
    text.push_str(name(op));
}
