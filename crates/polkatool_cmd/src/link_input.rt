//! What is linked, as the words name it. It borrows the words.

ghost use Rattle.std.specs.Prelude.{◌<◌, ◌^◌, IsTrue};
ghost use Rattle.polkatool_cmd.specs.Items.{items};
ghost use Rattle.polkatool_cmd.specs.LinkWords.{name_objects};

use crate::items::first_item;
use outside::Bytes;
use std::alloc::{AllocError, Global};
use symbols::Wanted;

/// The entry of a link, where the words name none.
pub(crate) const DEFAULT_ENTRY: &[u8; 4] = b"main";

/// What is linked: the words that name it, and how many bytes the stack has, fewer than 2^24.
#[derive(Clone, Copy)]
pub(crate) struct LinkInput<'a> {
    pub words: &'a [Bytes],
    pub stack: u32,
    ghost named: { IsTrue (name_objects (items words.now)) },
    ghost small: { stack < 2 ^ 24 },
}

impl<'a> LinkInput<'a> {
    ghost use Rattle.std.specs.Prelude.{◌≡◌, ◌≤◌, [], map, vec_len, IfOk, OnOk};
    ghost use Rattle.polkatool_cmd.specs.LinkRead.{input_in};

    /// The names of the objects' files, in the order of the words: at least one, and at most 1,024.
    pub(crate) fn objects(&self, alloc: Global) -> Result<Vec<&'a str>, AllocError>
        ensures names { IfOk result (λ names. map (λ name. name.now) names.items ≡ (input_in self.now).objects) }
        ensures count { IfOk result (λ names. (1 ≤ vec_len names) × (vec_len names ≤ 1024)) }
    {
        let mut objects = Vec::new(alloc);
        let mut rest = self.words;
        while let Some((item, after)) = first_item(rest) {
            if let Some(object) = item.file() {
                objects.push(object)?;
            }
            rest = after;
        }
        Ok(objects)
    }

    /// What is wanted of the objects.
    pub(crate) fn wanted(&self, alloc: Global) -> Result<Wanted, AllocError>
        ensures { IfOk result (λ wanted. wanted ≡ (input_in self.now).wanted) }
    {
        let mut wanted = Wanted::new(alloc, self.stack);
        self.add_entries(&mut wanted)?;
        self.add_imports(&mut wanted)?;
        Ok(wanted)
    }

    /// Adds the entries, `main` where the words name none.
    fn add_entries(&self, wanted: &mut Wanted) -> Result<(), AllocError>
        requires { wanted.old.entries ≡ [] }
        ensures { OnOk result (wanted.new ≡ record wanted.old { entries = (input_in self.now).wanted.entries }) }
    {
        let mut rest = self.words;
        while let Some((item, after)) = first_item(rest) {
            if let Some(name) = item.entry() {
                wanted.entry(name)?;
            }
            rest = after;
        }
        if wanted.entries() == 0 {
            wanted.entry(DEFAULT_ENTRY)?;
        }
        Ok(())
    }

    fn add_imports(&self, wanted: &mut Wanted) -> Result<(), AllocError>
        requires { wanted.old.imports ≡ [] }
        ensures { OnOk result (wanted.new ≡ record wanted.old { imports = (input_in self.now).wanted.imports }) }
    {
        let mut rest = self.words;
        while let Some((item, after)) = first_item(rest) {
            if let Some(import) = item.import() {
                wanted.import(import.name, import.kind)?;
            }
            rest = after;
        }
        Ok(())
    }
}
