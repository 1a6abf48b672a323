//! Lines that are kept until they are put.

ghost use Rattle.std.specs.Prelude.{◌≡◌, ◌+◌, ◌≤◌, ◌++◌, length};
ghost use Rattle.arrayvec.specs.ArrayString.{array_string_len};
ghost use Rattle.transcript.specs.Lines.{address_field, number_field, register_field};

use arrayvec::ArrayString;
use disasm::push_hex;
use itoa::Buffer;

/// Room for the longest line but that of a halt.
pub(crate) const LINE_LEN: usize = 320;

/// Room for the digits of a number.
const NUMBER_LEN: usize = 40;

/// A line.
pub(crate) type Line = ArrayString<LINE_LEN>;

/// Adds a label and a number in decimal to a line.
pub(crate) fn push_field(label: &str, number: u64, line: &mut Line)
    requires { array_string_len line.old + length label.now + NUMBER_LEN ≤ LINE_LEN }
    ensures text { line.new.bytes ≡ line.old.bytes ++ number_field label.now number }
    ensures len { array_string_len line.new ≤ array_string_len line.old + length label.now + NUMBER_LEN }
{
    let mut digits = Buffer::new();
    line.push_str(label);
    line.push_str(digits.format(number));
}

/// Adds the value of a register.
pub(crate) fn push_register(value: u64, line: &mut Line)
    requires { array_string_len line.old + 17 ≤ LINE_LEN }
    ensures text { line.new.bytes ≡ line.old.bytes ++ register_field value }
    ensures len { array_string_len line.new ≡ array_string_len line.old + 17 }
{
    line.push_str(" ");
    push_hex(8, value, line);
}

/// Adds an address.
pub(crate) fn push_address(address: u32, line: &mut Line)
    requires { array_string_len line.old + 17 ≤ LINE_LEN }
    ensures text { line.new.bytes ≡ line.old.bytes ++ address_field address }
    ensures len { array_string_len line.new ≡ array_string_len line.old + 17 }
{
    line.push_str(" address=");
    push_hex(4, u64::from(address), line);
}
