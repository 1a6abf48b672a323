//! The items of a command's words: options with their values, and names of files.

ghost use Rattle.std.specs.Prelude.{◌≡◌, ◌+◌, ◌<◌, [], ◌∷◌, length, MatchOption, IfSome, if◌then◌else◌, option_copied};
ghost use Rattle.polkatool_cmd.specs.Items.{items, value_in, file_in};
ghost use Rattle.polkatool_cmd.specs.ItemRead.{item_of};

use crate::values::{begins_with_dash, file};
use outside::Bytes;

/// An item of a command line.
#[derive(Clone, Copy)]
pub(crate) enum Item<'a> {
    /// An option with its value.
    Setting(&'a [u8], &'a [u8]),
    /// An option at the end of the line, which has no value.
    Unvalued(&'a [u8]),
    /// A word that names a file.
    File(&'a [u8]),
}

/// The first item of arguments, and the arguments after it.
pub(crate) fn first_item(words: &[Bytes]) -> Option<(Item<'_>, &[Bytes])>
    ensures cut { MatchOption result
        (items words.now ≡ [])
        (λ found. items words.now ≡ item_of found.0 ∷ items found.1.now) }
    ensures shorter { IfSome result (λ found. length found.1.now < length words.now) }
{
    let (word, rest) = words.split_first()?;
    let word = word.as_slice();
    if !begins_with_dash(word) {
        return Some((Item::File(word), rest));
    }
    match rest.split_first() {
        Some((value, after)) => Some((Item::Setting(word, value.as_slice()), after)),
        None => Some((Item::Unvalued(word), rest)),
    }
}

impl<'a> Item<'a> {
    /// The value that the item gives this option.
    pub(crate) fn value(&self, option: &[u8]) -> Option<&'a [u8]>
        ensures { option_copied result ≡ value_in option.now (item_of self.now) }
    {
        match *self {
            Item::Setting(name, value) if name == option => Some(value),
            _ => None,
        }
    }

    /// The name of a file.
    pub(crate) fn file(&self) -> Option<&'a str>
        ensures { option_copied result ≡ file_in (item_of self.now) }
    {
        match *self {
            Item::File(word) => file(word),
            _ => None,
        }
    }
}

/// A count, with one more where that was found.
pub(crate) fn count_with(count: usize, found: bool) -> usize
    requires { count < usize.MAX }
    ensures { result ≡ (if found then count + 1 else count) }
{
    if found { count + 1 } else { count }
}
