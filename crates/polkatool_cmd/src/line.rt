//! Lines that are kept on the stack until they are put.

ghost use Rattle.std.specs.Prelude.{◌≡◌, ◌+◌, ◌≤◌, ◌++◌, length};
ghost use Rattle.arrayvec.specs.ArrayString.{array_string_len};
ghost use Rattle.transcript.specs.Lines.{number_field};

use arrayvec::ArrayString;
use itoa::Buffer;

/// Room for the longest line.
pub(crate) const LINE_LEN: usize = 320;

/// Room for the digits of a number.
const NUMBER_LEN: usize = 40;

/// A line.
pub(crate) type Line = ArrayString<LINE_LEN>;

/// Adds a label and a number in decimal to a line.
pub(crate) fn push_field(label: &str, number: u64, line: &mut Line)
    requires { array_string_len line.old + length label.now + NUMBER_LEN ≤ LINE_LEN }
    ensures text { line.new.bytes ≡ line.old.bytes ++ number_field label.now number }
    ensures len { array_string_len line.new ≤ array_string_len line.old + length label.now + NUMBER_LEN }
{
    let mut digits = Buffer::new();
    line.push_str(label);
    line.push_str(digits.format(number));
}
