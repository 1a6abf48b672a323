ghost use Rattle.std.specs.Prelude.{◌≡◌, ◌++◌, ◌∷◌, [], OnOk, OnErr};
ghost use Rattle.std.specs.Option.{option_copied, option_map};
ghost use Rattle.polkatool_cmd.specs.Commands.{command_of, command_in, blob_of};

use crate::commands::Command;
use crate::exec_words::exec_command;
use crate::generate_words::generate_command;
use crate::link_words::link_command;
use crate::run_words::run_command;
use crate::values::file;
use outside::Bytes;
use std::alloc::{AllocError, Global};
use std::marker::Model;

/// The words of a command line, without the program's name.
#[derive(Debug, Drop)]
pub struct Words {
    alloc: Global,
    items: Vec<Bytes>,
}

impl Model for Words {
    ghost use Rattle.std.specs.Prelude.{ℕ, List};

    ghost Value = { List (List ℕ) };

    ghost view = { λ w. w.items.items };
}

impl Words {
    /// No words. It takes no memory.
    pub fn new(alloc: Global) -> Words
        ensures { result ≡ [] }
    {
        Words {
            alloc,
            items: Vec::new(alloc),
        }
    }

    /// Adds an argument at the end. If an allocation fails, the list is as before.
    pub fn push(&mut self, word: &[u8]) -> Result<(), AllocError>
        ensures ok { OnOk result (self.new ≡ self.old ++ word.now ∷ []) }
        ensures err { OnErr result (self.new ≡ self.old) }
    {
        let mut bytes = Bytes::new(self.alloc);
        bytes.append(word)?;
        self.items.push(bytes)?;
        Ok(())
    }

    fn as_slice(&self) -> &[Bytes]
        ensures { result.now ≡ self.now }
    {
        self.items.as_slice()
    }
}

/// The command of the arguments. None for a usage error. It takes no memory.
pub(crate) fn command_of(words: &Words) -> Option<Command<'_>>
    ensures { option_map command_in result ≡ command_of words.now }
{
    let (verb, rest) = words.as_slice().split_first()?;
    if verb.as_slice() == b"link".as_slice() {
        Some(Command::Link(link_command(rest)?))
    } else if verb.as_slice() == b"run".as_slice() {
        Some(Command::Run(run_command(rest)?))
    } else if verb.as_slice() == b"exec".as_slice() {
        Some(Command::Exec(exec_command(rest)?))
    } else if verb.as_slice() == b"check".as_slice() {
        Some(Command::Check(blob_of(rest)?))
    } else if verb.as_slice() == b"disassemble".as_slice() {
        Some(Command::Disassemble(blob_of(rest)?))
    } else if verb.as_slice() == b"gen".as_slice() {
        Some(Command::Generate(generate_command(rest)?))
    } else {
        None
    }
}

/// The blob that the one argument after the verb names.
fn blob_of(words: &[Bytes]) -> Option<&str>
    ensures { option_copied result ≡ blob_of words.now }
{
    match words {
        [blob] => file(blob.as_slice()),
        _ => None,
    }
}
