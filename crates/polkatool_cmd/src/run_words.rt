//! The words of a run: its options in any order, and a blob.

ghost use Rattle.std.specs.Prelude.{◌≡◌, length, option_copied, option_map};
ghost use Rattle.std.specs.List.{list_all};
ghost use Rattle.polkatool_cmd.specs.Items.{items};
ghost use Rattle.polkatool_cmd.specs.ItemRead.{item_of};
ghost use Rattle.polkatool_cmd.specs.RunWords.{run_entry_in, gas_in, argument_in, replies_in, is_setting, is_of_run, are_settings, is_run, blobs, settings_of, run_command_of};
ghost use Rattle.polkatool_cmd.specs.RunRead.{argument_bytes, run_counts_of, AreFirst, run_in, settings_in, settings_with};

use crate::argument::Argument;
use crate::commands::{RunCommand, Settings};
use crate::items::{Item, count_with, first_item};
use crate::values::{name, number, small_number};
use outside::Bytes;

/// The entry of a run by default.
const DEFAULT_ENTRY: u32 = 0;

/// The gas of a run by default.
const DEFAULT_GAS: u64 = 10_000_000;

/// How many settings of each kind there are.
#[derive(Clone, Copy)]
pub(crate) struct RunCounts {
    pub entries: usize,
    pub gas_amounts: usize,
    pub arguments: usize,
    pub reply_files: usize,
}

/// The first value of each kind.
#[derive(Clone, Copy)]
pub(crate) struct RunValues<'a> {
    pub entry: Option<u32>,
    pub gas: Option<u64>,
    pub argument: Option<Argument<'a>>,
    pub replies: Option<&'a str>,
    pub blob: Option<&'a str>,
}

/// The run that the words after the verb ask for. None is a usage error. It takes no memory.
pub(crate) fn run_command(words: &[Bytes]) -> Option<RunCommand<'_>>
    ensures { option_map run_in result ≡ run_command_of words.now }
{
    if !is_run(words) {
        return None;
    }
    let values = first_values(words);
    Some(RunCommand {
        settings: settings(&values),
        blob: values.blob?,
    })
}

/// The settings of a run with these values.
fn settings<'a>(values: &RunValues<'a>) -> Settings<'a>
    ensures { settings_in result ≡ settings_with values.now }
{
    Settings {
        entry: values.entry.unwrap_or(DEFAULT_ENTRY),
        gas: values.gas.unwrap_or(DEFAULT_GAS),
        argument: values.argument.unwrap_or(Argument::empty()),
        replies: values.replies,
    }
}

/// Whether words are a run.
fn is_run(words: &[Bytes]) -> bool
    ensures { result ≡ is_run (items words.now) }
{
    are_of_run(words) && count_blobs(words) == 1 && are_settings(words)
}

/// Whether all items of words are of a run.
fn are_of_run(words: &[Bytes]) -> bool
    ensures { result ≡ list_all is_of_run (items words.now) }
{
    let mut rest = words;
    while let Some((item, after)) = first_item(rest) {
        if !item.is_of_run() {
            return false;
        }
        rest = after;
    }
    true
}

/// How many blobs words name.
#[tactic(auto, using(crate::proofs::ItemsLemmas::kind_within))]
fn count_blobs(words: &[Bytes]) -> usize
    ensures { result ≡ length (blobs (items words.now)) }
{
    let mut count = 0;
    let mut rest = words;
    while let Some((item, after)) = first_item(rest) {
        count = count_with(count, item.file().is_some());
        rest = after;
    }
    count
}

/// Whether words name no setting of a run twice.
pub(crate) fn are_settings(words: &[Bytes]) -> bool
    ensures { result ≡ are_settings (items words.now) }
{
    let counts = setting_counts(words);
    counts.entries <= 1
        && counts.gas_amounts <= 1
        && counts.arguments <= 1
        && counts.reply_files <= 1
}

/// How many settings of each kind words name.
#[tactic(auto, using(crate::proofs::ItemsLemmas::kind_within))]
fn setting_counts(words: &[Bytes]) -> RunCounts
    ensures { result ≡ run_counts_of (items words.now) }
{
    let mut counts = RunCounts {
        entries: 0,
        gas_amounts: 0,
        arguments: 0,
        reply_files: 0,
    };
    let mut rest = words;
    while let Some((item, after)) = first_item(rest) {
        counts.entries = count_with(counts.entries, item.run_entry().is_some());
        counts.gas_amounts = count_with(counts.gas_amounts, item.gas().is_some());
        counts.arguments = count_with(counts.arguments, item.argument().is_some());
        counts.reply_files = count_with(counts.reply_files, item.replies().is_some());
        rest = after;
    }
    counts
}

/// The settings that words name.
pub(crate) fn first_settings(words: &[Bytes]) -> Settings<'_>
    ensures { settings_in result ≡ settings_of (items words.now) }
{
    settings(&first_values(words))
}

/// The first value of each kind that words name.
fn first_values(words: &[Bytes]) -> RunValues<'_>
    ensures { AreFirst (items words.now) result }
{
    let mut values = RunValues {
        entry: None,
        gas: None,
        argument: None,
        replies: None,
        blob: None,
    };
    let mut rest = words;
    while let Some((item, after)) = first_item(rest) {
        values = RunValues {
            entry: values.entry.or(item.run_entry()),
            gas: values.gas.or(item.gas()),
            argument: values.argument.or(item.argument()),
            replies: values.replies.or(item.replies()),
            blob: values.blob.or(item.file()),
        };
        rest = after;
    }
    values
}

impl<'a> Item<'a> {
    /// Whether the item is an entry, gas, an argument, a file of replies or a blob.
    fn is_of_run(&self) -> bool
        ensures { result ≡ is_of_run (item_of self.now) }
    {
        self.is_setting() || self.file().is_some()
    }

    /// Whether the item is an entry, gas, an argument or a file of replies.
    pub(crate) fn is_setting(&self) -> bool
        ensures { result ≡ is_setting (item_of self.now) }
    {
        self.run_entry().is_some()
            || self.gas().is_some()
            || self.argument().is_some()
            || self.replies().is_some()
    }

    /// The entry of a run.
    fn run_entry(&self) -> Option<u32>
        ensures { result ≡ run_entry_in (item_of self.now) }
    {
        small_number(self.value(b"--entry")?)
    }

    /// The gas of a run.
    fn gas(&self) -> Option<u64>
        ensures { result ≡ gas_in (item_of self.now) }
    {
        number(self.value(b"--gas")?)
    }

    /// The argument of a run.
    fn argument(&self) -> Option<Argument<'a>>
        ensures { option_map argument_bytes result ≡ argument_in (item_of self.now) }
    {
        Argument::read(self.value(b"--arg")?)
    }

    /// The name of a file of replies.
    fn replies(&self) -> Option<&'a str>
        ensures { option_copied result ≡ replies_in (item_of self.now) }
    {
        name(self.value(b"--replies")?)
    }
}
