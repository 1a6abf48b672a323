//! Numbers in hexadecimal digits.

ghost use Rattle.std.specs.Prelude.{◌≡◌, ◌<◌, ◌≤◌, ◌^◌, IfSome};
ghost use Rattle.hex.specs.Hex.{hex_digit_value};
ghost use Rattle.transcript.specs.Grammar.{hex_number as hex_number_of, value_of};

/// The value of a register, with its label before it.
pub(crate) fn register_value(label: &[u8], word: &[u8]) -> Option<u64>
    ensures { result ≡ value_of label.now word.now }
{
    hex_number(word.strip_prefix(label)?, 16)
}

/// The number of 1 to `most` hexadecimal digits of either case.
pub(crate) fn hex_number(digits: &[u8], most: usize) -> Option<u64>
    requires { most ≤ 16 }
    ensures { result ≡ hex_number_of most digits.now }
{
    if digits.is_empty() || digits.len() > most {
        return None;
    }
    let mut number = 0;
    for byte in digits {
        number = 16 * number + u64::from(digit(*byte)?);
    }
    Some(number)
}

/// The value of a hexadecimal digit of either case.
fn digit(byte: u8) -> Option<u8>
    ensures value { result ≡ hex_digit_value byte }
    ensures small { IfSome result (λ value. value < 16) }
{
    match byte {
        b'A'..=b'F' => Some(byte - 55),
        b'a'..=b'f' => Some(byte - 87),
        b'0'..=b'9' => Some(byte - 48),
        _ => None,
    }
}
