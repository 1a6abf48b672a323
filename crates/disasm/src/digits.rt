//! Hexadecimal digits, which are added to a text.

ghost use Rattle.std.specs.Prelude.{◌≡◌, ◌+◌, ◌*◌, ◌≤◌, ◌++◌};
ghost use Rattle.std.specs.Str.{IsAscii};
ghost use Rattle.arrayvec.specs.ArrayString.{array_string_len};
ghost use Rattle.disasm.specs.Digits.{byte_digits, hex_digits};

use arrayvec::ArrayString;

/// Adds the given number of low bytes of a number in hexadecimal digits, the highest of them first.
pub fn push_hex<const N: usize>(bytes: u8, number: u64, text: &mut ArrayString<N>)
    requires { array_string_len text.old + 2 * bytes ≤ N }
    ensures text { text.new.bytes ≡ text.old.bytes ++ hex_digits (2 * bytes) number }
    ensures len { array_string_len text.new ≡ array_string_len text.old + 2 * bytes }
{
    if bytes > 0 {
        push_hex(bytes - 1, number / 256, text);
        push_byte((number % 256) as u8, text);
    }
}

/// Adds the two digits of a byte.
pub fn push_byte<const N: usize>(byte: u8, text: &mut ArrayString<N>)
    requires { array_string_len text.old + 2 ≤ N }
    ensures text { text.new.bytes ≡ text.old.bytes ++ byte_digits byte }
    ensures len { array_string_len text.new ≡ array_string_len text.old + 2 }
{
    text.push_str(as_text(&digits(byte)));
}

/// The two digits of a byte.
fn digits(byte: u8) -> [u8; 2]
    ensures value { result ≡ byte_digits byte }
    ensures ascii { IsAscii result }
{
    let mut digits = [0; 2];
    let fits = hex::encode_to_slice([byte], &mut digits[..]);
    prove!(fits.is_ok());
    digits
}

/// Digits as text, which they are.
#[tactic(auto, using(crate::proofs::Hex::ascii_is_text))]
fn as_text(digits: &[u8]) -> &str
    requires { IsAscii digits.now }
    ensures { result.now ≡ digits.now }
{
    str::from_utf8(digits).unwrap_or("")
}
