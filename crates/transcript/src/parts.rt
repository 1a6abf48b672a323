//! Bytes between separators.

ghost use Rattle.std.specs.Prelude.{◌≡◌, ◌<◌, ◌≤◌, ◌∷◌, [], length, MatchOption, IfSome};
ghost use Rattle.transcript.specs.Grammar.{lines, parts_of};

/// The bytes before the first separator, and those after it, if there is one.
pub(crate) fn first_part(bytes: &[u8], separator: u8) -> (&[u8], Option<&[u8]>)
    ensures parts { MatchOption result.1
        ((result.0.now ≡ bytes.now) × (parts_of separator bytes.now ≡ bytes.now ∷ []))
        (λ rest. parts_of separator bytes.now ≡ result.0.now ∷ parts_of separator rest.now) }
    ensures short { length result.0.now ≤ length bytes.now }
    ensures shorter { IfSome result.1 (λ rest. length rest.now < length bytes.now) }
{
    for at in 0..bytes.len() {
        if bytes[at] == separator {
            return (&bytes[..at], Some(&bytes[at + 1..]));
        }
    }
    (bytes, None)
}

/// The first line, and the bytes after it.
pub(crate) fn first_line(bytes: &[u8]) -> (&[u8], &[u8])
    requires { 0 < length bytes.now }
    ensures line { lines bytes.now ≡ result.0.now ∷ lines result.1.now }
    ensures short { length result.0.now ≤ length bytes.now }
    ensures shorter { length result.1.now < length bytes.now }
{
    let (line, rest) = first_part(bytes, b'\n');
    match rest {
        Some(rest) => (line, rest),
        None => (line, &[]),
    }
}
