ghost use Rattle.std.specs.Prelude.{◌≡◌, [], IfOk};
ghost use Rattle.std.specs.Option.{option_map};
ghost use Rattle.std.specs.List.{list_all};
ghost use Rattle.hex.specs.Hex.{is_hex_digit};
ghost use Rattle.polkatool_cmd.specs.Values.{argument_of, IsSpelled};

use hex::FromHexError;
use std::alloc::{AllocError, Global};

/// The argument of a run, as the hexadecimal digits that spell its bytes. It borrows the argument that has the digits.
#[derive(Clone, Copy)]
pub(crate) struct Argument<'a> {
    digits: &'a [u8],
    ghost spelled: { IsSpelled digits.now },
}

impl<'a> Argument<'a> {
    ghost use Rattle.polkatool_cmd.specs.RunRead.{argument_bytes};

    /// The argument without bytes.
    pub(crate) fn empty() -> Argument<'a>
        ensures { argument_bytes result ≡ [] }
    {
        Argument { digits: &[] }
    }

    /// The argument that a word spells: two digits of either case for each byte, or none at all. It takes no memory.
    pub(crate) fn read(word: &'a [u8]) -> Option<Argument<'a>>
        ensures { option_map argument_bytes result ≡ argument_of word.now }
    {
        if word.len() % 2 == 0 && are_digits(word) {
            Some(Argument { digits: word })
        } else {
            None
        }
    }

    /// The bytes of the argument.
    pub(crate) fn bytes(&self, alloc: Global) -> Result<Vec<u8>, AllocError>
        ensures { IfOk result (λ bytes. bytes.items ≡ argument_bytes self.now) }
    {
        match hex::decode(alloc, self.digits) {
            Ok(bytes) => Ok(bytes),
            Err(FromHexError::OutOfMemory) => Err(AllocError),
            Err(_) => unreachable!(),
        }
    }
}

/// Whether all bytes of a word are hexadecimal digits.
fn are_digits(word: &[u8]) -> bool
    ensures { result ≡ list_all is_hex_digit word.now }
{
    for byte in word {
        if !byte.is_ascii_hexdigit() {
            return false;
        }
    }
    true
}
