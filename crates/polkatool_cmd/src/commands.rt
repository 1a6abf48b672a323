ghost use Rattle.std.specs.Prelude.{◌≤◌};

use crate::argument::Argument;
use crate::link_input::LinkInput;

/// A command with its values.
#[derive(Clone, Copy)]
pub(crate) enum Command<'a> {
    Link(LinkCommand<'a>),
    Run(RunCommand<'a>),
    Exec(ExecCommand<'a>),
    /// The check of a program, by the name of its file.
    Check(&'a str),
    /// The disassembly of a program, by the name of its file.
    Disassemble(&'a str),
    Generate(GenerateCommand),
}

/// A link: what is linked, and the name of the output's file.
#[derive(Clone, Copy)]
pub(crate) struct LinkCommand<'a> {
    pub input: LinkInput<'a>,
    pub output: &'a str,
}

/// The run of a program, by the name of its file.
#[derive(Clone, Copy)]
pub(crate) struct RunCommand<'a> {
    pub settings: Settings<'a>,
    pub blob: &'a str,
}

/// A link and a run of the linked program: what is linked, and how the program is run.
#[derive(Clone, Copy)]
pub(crate) struct ExecCommand<'a> {
    pub input: LinkInput<'a>,
    pub settings: Settings<'a>,
}

/// How a program is run: from an entry, with gas, an argument and the name of a file of replies, if there is one.
#[derive(Clone, Copy)]
pub(crate) struct Settings<'a> {
    pub entry: u32,
    pub gas: u64,
    pub argument: Argument<'a>,
    pub replies: Option<&'a str>,
}

/// The generation of an object from a seed, with 1 to 1,000,000 words, which is linked and run.
#[derive(Clone, Copy)]
pub(crate) struct GenerateCommand {
    pub seed: u64,
    pub count: u32,
    ghost within: { count ≤ 1000000 },
}
