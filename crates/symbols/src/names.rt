ghost use Rattle.std.specs.Prelude.{◌≡◌, ◌<◌, [], length, slice_get, IsSomeAnd, IfOk, OnOk};
ghost use Rattle.symbols.specs.Names.{meaning_in, added};

use std::alloc::{AllocError, Global};
use std::collections::BTreeMap;
use std::marker::Model;

/// What a name means, by numbers.
#[derive(Clone, Copy, Debug, PartialEq, Eq)]
pub(crate) enum Meaning {
    /// The definition that this symbol of this object is.
    Defined { object: u32, number: u32 },
    /// The import with this number.
    Imported(u32),
}

/// A table of names with what each means, in the order of their addition. The names are borrowed. They are found by their
/// order, as a file can be made whose names a hash table finds only one by one.
#[derive(Drop)]
pub(crate) struct Names<'a> {
    list: Vec<(&'a [u8], Meaning)>,
    index: BTreeMap<&'a [u8], Meaning>,
}

impl<'a> Model for Names<'a> {
    ghost use Rattle.std.specs.Prelude.{ℕ, List, map};
    ghost use Rattle.symbols.specs.Names.{HasSame};
    ghost use Rattle.symbols.specs.declared.names.Meaning.{Meaning as TheMeaning};

    ghost Value = { List (List ℕ × TheMeaning) };

    ghost view = { λ n. map (λ e. (e.0.now, e.1)) n.list.items };

    ghost invariant = { λ n.
        HasSame (map (λ e. (e.0.now, e.1)) n.list.items) (map (λ e. (e.0.now, e.1)) n.index.entries) };
}

impl<'a> Names<'a> {
    /// No names, with room for `count`.
    pub(crate) fn with_capacity(alloc: Global, count: usize) -> Result<Names<'a>, AllocError>
        ensures { IfOk result (λ names. names ≡ []) }
    {
        Ok(Names {
            list: Vec::with_capacity(alloc, count)?,
            index: BTreeMap::new(alloc),
        })
    }

    /// What a name means, where the table has it.
    pub(crate) fn get(&self, name: &[u8]) -> Option<Meaning>
        ensures { result ≡ meaning_in self.now name.now }
    {
        self.index.get(name).copied()
    }

    /// Adds a name, unless the table has it.
    pub(crate) fn add(&mut self, name: &'a [u8], meaning: Meaning) -> Result<(), AllocError>
        ensures { OnOk result (self.new ≡ added self.old name.now meaning) }
    {
        if self.get(name).is_some() {
            return Ok(());
        }
        self.list.push((name, meaning))?;
        if self.index.insert(name, meaning).is_err() {
            self.list.pop();
            return Err(AllocError);
        }
        Ok(())
    }

    /// How many names there are.
    pub(crate) fn len(&self) -> usize
        ensures { result ≡ length self.now }
    {
        self.list.len()
    }

    /// A name by its number.
    pub(crate) fn name(&self, at: usize) -> &'a [u8]
        requires { at < length self.now }
        ensures { IsSomeAnd (slice_get self.now at) (λ e. e.0 ≡ result.now) }
    {
        self.list[at].0
    }
}
