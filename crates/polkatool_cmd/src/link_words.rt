//! The words of a link: its options and the names of its objects, in any order.

ghost use Rattle.std.specs.Prelude.{◌≡◌, ◌^◌, ◌<◌, IfSome, IsTrue, length};
ghost use Rattle.std.specs.Prelude.{option_map, option_copied, slice_get};
ghost use Rattle.std.specs.List.{before_last, after_last, list_all};
ghost use Rattle.symbols.specs.Wanted.{IsHostNumber};
ghost use Rattle.polkatool_cmd.specs.LinkWords.{wanted_name, kind_in_value, import_in_value, is_equals_sign};
ghost use Rattle.polkatool_cmd.specs.LinkWords.{output_in, entry_in, import_in, stack_in, is_of_link, is_of_objects};
ghost use Rattle.polkatool_cmd.specs.LinkWords.{outputs, entries, imports, stacks, objects, is_imported, repeats_import, name_objects, is_link, input_with, stack_of};
ghost use Rattle.polkatool_cmd.specs.LinkWords.{link_command_of};
ghost use Rattle.polkatool_cmd.specs.LinkRead.{read_import, counts_of, input_in, link_in};
ghost use Rattle.polkatool_cmd.specs.Items.{items};
ghost use Rattle.polkatool_cmd.specs.ItemRead.{item_of};

use crate::commands::LinkCommand;
use crate::items::{Item, count_with, first_item};
use crate::link_input::LinkInput;
use crate::values::{name, number_below};
use outside::Bytes;
use symbols::ImportKind;

/// The bytes of a stack, where the words don't say.
pub(crate) const DEFAULT_STACK: u32 = 65_536;

/// The most objects of a link.
const MAX_OBJECTS: usize = 1024;

/// The most entries of a link.
const MAX_ENTRIES: usize = 1000;

/// The most imports of a link.
const MAX_IMPORTS: usize = 1000;

/// An undefined name that the host stands for.
#[derive(Clone, Copy)]
pub(crate) struct Import<'a> {
    pub name: &'a [u8],
    pub kind: ImportKind,
}

/// How many entries, imports, stacks and objects there are.
#[derive(Clone, Copy)]
pub(crate) struct Counts {
    pub entries: usize,
    pub imports: usize,
    pub stacks: usize,
    pub objects: usize,
}

/// The link that the arguments after the verb ask for. None for a usage error. It takes no memory.
pub(crate) fn link_command(words: &[Bytes]) -> Option<LinkCommand<'_>>
    ensures { option_map link_in result ≡ link_command_of words.now }
{
    if !is_link(words) {
        return None;
    }
    Some(LinkCommand {
        input: link_input(words),
        output: first_output(words)?,
    })
}

/// Whether words are a link.
fn is_link(words: &[Bytes]) -> bool
    ensures { result ≡ is_link (items words.now) }
{
    are_of_link(words) && count_outputs(words) == 1 && name_objects(words)
}

/// Whether all items of words are of a link.
fn are_of_link(words: &[Bytes]) -> bool
    ensures { result ≡ list_all is_of_link (items words.now) }
{
    let mut rest = words;
    while let Some((item, after)) = first_item(rest) {
        if !item.is_of_link() {
            return false;
        }
        rest = after;
    }
    true
}

/// How many outputs words name.
#[tactic(auto, using(crate::proofs::ItemsLemmas::kind_within))]
fn count_outputs(words: &[Bytes]) -> usize
    ensures { result ≡ length (outputs (items words.now)) }
{
    let mut count = 0;
    let mut rest = words;
    while let Some((item, after)) = first_item(rest) {
        count = count_with(count, item.output().is_some());
        rest = after;
    }
    count
}

/// Whether words can be what is linked.
pub(crate) fn name_objects(words: &[Bytes]) -> bool
    ensures { result ≡ name_objects (items words.now) }
{
    let counts = object_counts(words);
    counts.stacks <= 1
        && counts.objects >= 1
        && counts.objects <= MAX_OBJECTS
        && counts.entries <= MAX_ENTRIES
        && counts.imports <= MAX_IMPORTS
        && !repeats_import(words)
}

/// How many items of each kind words have.
#[tactic(auto, using(crate::proofs::ItemsLemmas::kind_within))]
fn object_counts(words: &[Bytes]) -> Counts
    ensures { result ≡ counts_of (items words.now) }
{
    let mut counts = Counts {
        entries: 0,
        imports: 0,
        stacks: 0,
        objects: 0,
    };
    let mut rest = words;
    while let Some((item, after)) = first_item(rest) {
        counts.entries = count_with(counts.entries, item.entry().is_some());
        counts.imports = count_with(counts.imports, item.import().is_some());
        counts.stacks = count_with(counts.stacks, item.stack().is_some());
        counts.objects = count_with(counts.objects, item.file().is_some());
        rest = after;
    }
    counts
}

/// What words name that is linked.
pub(crate) fn link_input(words: &[Bytes]) -> LinkInput<'_>
    requires { IsTrue (name_objects (items words.now)) }
    ensures { input_in result ≡ input_with (items words.now) (stack_of (items words.now)) }
{
    LinkInput {
        words,
        stack: first_stack(words).unwrap_or(DEFAULT_STACK),
    }
}

/// The name of the first output.
fn first_output(words: &[Bytes]) -> Option<&str>
    ensures { option_copied result ≡ slice_get (outputs (items words.now)) 0 }
{
    let mut rest = words;
    while let Some((item, after)) = first_item(rest) {
        if let Some(output) = item.output() {
            return Some(output);
        }
        rest = after;
    }
    None
}

/// How many bytes the first stack has.
fn first_stack(words: &[Bytes]) -> Option<u32>
    ensures first { result ≡ slice_get (stacks (items words.now)) 0 }
    ensures small { IfSome result (λ stack. stack < 2 ^ 24) }
{
    let mut rest = words;
    while let Some((item, after)) = first_item(rest) {
        if let Some(stack) = item.stack() {
            return Some(stack);
        }
        rest = after;
    }
    None
}

/// Whether a name is imported twice.
fn repeats_import(words: &[Bytes]) -> bool
    ensures { result ≡ repeats_import (imports (items words.now)) }
{
    let mut rest = words;
    while let Some((item, after)) = first_item(rest) {
        if let Some(import) = item.import()
            && is_imported(import.name, after)
        {
            return true;
        }
        rest = after;
    }
    false
}

/// Whether words import a name.
fn is_imported(name: &[u8], words: &[Bytes]) -> bool
    ensures { result ≡ is_imported name.now (imports (items words.now)) }
{
    let mut rest = words;
    while let Some((item, after)) = first_item(rest) {
        if let Some(import) = item.import()
            && import.name == name
        {
            return true;
        }
        rest = after;
    }
    false
}

impl<'a> Item<'a> {
    /// Whether the item is an output, an entry, an import, a stack or an object.
    fn is_of_link(&self) -> bool
        ensures { result ≡ is_of_link (item_of self.now) }
    {
        self.output().is_some() || self.is_of_objects()
    }

    /// Whether the item is an entry, an import, a stack or an object.
    pub(crate) fn is_of_objects(&self) -> bool
        ensures { result ≡ is_of_objects (item_of self.now) }
    {
        self.entry().is_some()
            || self.import().is_some()
            || self.stack().is_some()
            || self.file().is_some()
    }

    /// The name of the output's file.
    fn output(&self) -> Option<&'a str>
        ensures { option_copied result ≡ output_in (item_of self.now) }
    {
        name(self.value(b"-o")?)
    }

    /// The name of an entry.
    pub(crate) fn entry(&self) -> Option<&'a [u8]>
        ensures { option_copied result ≡ entry_in (item_of self.now) }
    {
        wanted_name(self.value(b"-e")?)
    }

    /// An import, under the option `-i`.
    pub(crate) fn import(&self) -> Option<Import<'a>>
        ensures import { option_map read_import result ≡ import_in (item_of self.now) }
        ensures number { IfSome result (λ import. IsHostNumber import.kind) }
    {
        import_in_value(self.value(b"-i")?)
    }

    /// How many bytes the stack has.
    fn stack(&self) -> Option<u32>
        ensures stack { result ≡ stack_in (item_of self.now) }
        ensures small { IfSome result (λ stack. stack < 2 ^ 24) }
    {
        number_below(self.value(b"--stack")?, 1 << 24)
    }
}

/// The import that NAME=NUMBER or NAME=sbrk spells, where NAME ends at the last '='.
fn import_in_value(value: &[u8]) -> Option<Import<'_>>
    ensures import { option_map read_import result ≡ import_in_value value.now }
    ensures number { IfSome result (λ import. IsHostNumber import.kind) }
{
    let (name, kind) = split_at_last_equals_sign(value);
    Some(Import {
        name: wanted_name(name)?,
        kind: kind_in_value(kind)?,
    })
}

/// The part of a value before its last '=', and the part after it. Without one, all is after it.
fn split_at_last_equals_sign(value: &[u8]) -> (&[u8], &[u8])
    ensures before { result.0.now ≡ before_last is_equals_sign value.now }
    ensures after { result.1.now ≡ after_last is_equals_sign value.now }
{
    let mut end = value.len();
    while end > 0 {
        if value[end - 1] == b'=' {
            return (&value[..end - 1], &value[end..]);
        }
        end -= 1;
    }
    (&value[..0], value)
}

/// The name of an entry or an import: any bytes, and not none.
fn wanted_name(word: &[u8]) -> Option<&[u8]>
    ensures { option_copied result ≡ wanted_name word.now }
{
    if word.is_empty() { None } else { Some(word) }
}

/// What an import stands for.
fn kind_in_value(word: &[u8]) -> Option<ImportKind>
    ensures kind { result ≡ kind_in_value word.now }
    ensures number { IfSome result IsHostNumber }
{
    if word == b"sbrk".as_slice() {
        return Some(ImportKind::Sbrk);
    }
    Some(ImportKind::Host(number_below(word, 1 << 31)?))
}
