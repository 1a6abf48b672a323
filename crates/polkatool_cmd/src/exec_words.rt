//! The words of an exec: the objects and options of a link without its output, and the options of a run, in any order.

ghost use Rattle.std.specs.Prelude.{◌≡◌, option_map};
ghost use Rattle.std.specs.List.{list_all};
ghost use Rattle.polkatool_cmd.specs.Items.{items};
ghost use Rattle.polkatool_cmd.specs.ItemRead.{item_of};
ghost use Rattle.polkatool_cmd.specs.ExecWords.{is_of_exec, is_exec, exec_command_of};
ghost use Rattle.polkatool_cmd.specs.ExecRead.{exec_in};

use crate::commands::ExecCommand;
use crate::items::{Item, first_item};
use crate::link_words::{link_input, name_objects};
use crate::run_words::{are_settings, first_settings};
use outside::Bytes;

/// The exec that the words after the verb ask for. None is a usage error. It takes no memory.
pub(crate) fn exec_command(words: &[Bytes]) -> Option<ExecCommand<'_>>
    ensures { option_map exec_in result ≡ exec_command_of words.now }
{
    if !is_exec(words) {
        return None;
    }
    Some(ExecCommand {
        input: link_input(words),
        settings: first_settings(words),
    })
}

/// Whether words are an exec.
fn is_exec(words: &[Bytes]) -> bool
    ensures { result ≡ is_exec (items words.now) }
{
    are_of_exec(words) && name_objects(words) && are_settings(words)
}

/// Whether all items of words are of an exec.
fn are_of_exec(words: &[Bytes]) -> bool
    ensures { result ≡ list_all is_of_exec (items words.now) }
{
    let mut rest = words;
    while let Some((item, after)) = first_item(rest) {
        if !item.is_of_exec() {
            return false;
        }
        rest = after;
    }
    true
}

impl<'a> Item<'a> {
    /// Whether the item is one of what is linked or a setting of a run.
    fn is_of_exec(&self) -> bool
        ensures { result ≡ is_of_exec (item_of self.now) }
    {
        self.is_of_objects() || self.is_setting()
    }
}
