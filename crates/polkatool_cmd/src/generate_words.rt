//! The arguments of the command `gen`: a seed and a count.

ghost use Rattle.std.specs.Prelude.{◌≡◌, ◌≤◌, IfSome, option_map};
ghost use Rattle.polkatool_cmd.specs.GenerateRead.{generate_in};
ghost use Rattle.polkatool_cmd.specs.GenerateWords.{count_of, generate_command_of};

use crate::commands::GenerateCommand;
use crate::values::{number, number_below};
use outside::Bytes;

/// The most words of a generated object.
const MAX_COUNT: u32 = 1_000_000;

/// The generation that the arguments after the verb ask for. None is a usage error. It takes no memory.
pub(crate) fn generate_command(words: &[Bytes]) -> Option<GenerateCommand>
    ensures { option_map generate_in result ≡ generate_command_of words.now }
{
    match words {
        [seed, count] => Some(GenerateCommand {
            seed: number(seed.as_slice())?,
            count: count_of(count.as_slice())?,
        }),
        _ => None,
    }
}

/// The count that an argument spells, 1 to 1,000,000.
fn count_of(word: &[u8]) -> Option<u32>
    ensures count { result ≡ count_of word.now }
    ensures within { IfSome result (λ count. count ≤ MAX_COUNT) }
{
    let count = number_below(word, MAX_COUNT + 1)?;
    if count == 0 { None } else { Some(count) }
}
