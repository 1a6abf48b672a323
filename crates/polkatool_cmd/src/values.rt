//! What a word stands for: a number, or the name of a file.

ghost use Rattle.std.specs.Option.{SomeIff};
ghost use Rattle.std.specs.Prelude.{◌≡◌, ◌+◌, ◌*◌, ◌^◌, ◌<◌, MatchOption, IfSome, true, false};
ghost use Rattle.polkatool_cmd.specs.Values.{below, number_below, digits_after, begins_with_dash, is_name, is_file};

/// The number below 2^32 that decimal digits without a leading zero spell.
pub(crate) fn small_number(word: &[u8]) -> Option<u32>
    ensures { result ≡ number_below (2 ^ 32) word.now }
{
    u32::try_from(number(word)?).ok()
}

/// The number below a bound that decimal digits without a leading zero spell.
pub(crate) fn number_below(word: &[u8], bound: u32) -> Option<u32>
    ensures number { result ≡ number_below bound word.now }
    ensures below { IfSome result (λ number. number < bound) }
{
    let number = small_number(word)?;
    if number < bound { Some(number) } else { None }
}

/// The number below 2^64 that decimal digits without a leading zero spell.
pub(crate) fn number(word: &[u8]) -> Option<u64>
    ensures { result ≡ number_below (2 ^ 64) word.now }
{
    match word {
        [] => None,
        [b'0', _, ..] => None,
        _ => digits(word),
    }
}

/// The number below 2^64 that decimal digits spell.
fn digits(word: &[u8]) -> Option<u64>
    ensures { result ≡ below (2 ^ 64) (digits_after 0 word.now) }
{
    let mut number = 0u64;
    for byte in word {
        if !byte.is_ascii_digit() {
            return None;
        }
        let Some(next) = digit_after(number, *byte - b'0') else {
            return None;
        };
        number = next;
    }
    Some(number)
}

/// The number with one digit more, where it is below 2^64.
fn digit_after(number: u64, digit: u8) -> Option<u64>
    ensures { SomeIff result (10 * number + digit < 2 ^ 64) (10 * number + digit) }
{
    number.checked_mul(10)?.checked_add(u64::from(digit))
}

/// The file name that a word is, where the word is no option.
pub(crate) fn file(word: &[u8]) -> Option<&str>
    ensures { MatchOption result (is_file word.now ≡ false) (λ s. (is_file word.now ≡ true) × (s.now ≡ word.now)) }
{
    if begins_with_dash(word) {
        return None;
    }
    name(word)
}

/// Whether a word begins with '-', as options do.
pub(crate) fn begins_with_dash(word: &[u8]) -> bool
    ensures { result ≡ begins_with_dash word.now }
{
    match word {
        [first, ..] => *first == b'-',
        [] => false,
    }
}

/// The file name that a word is.
pub(crate) fn name(word: &[u8]) -> Option<&str>
    ensures { MatchOption result (is_name word.now ≡ false) (λ s. (is_name word.now ≡ true) × (s.now ≡ word.now)) }
{
    if word.is_empty() {
        return None;
    }
    match str::from_utf8(word) {
        Ok(text) => Some(text),
        Err(_) => None,
    }
}
