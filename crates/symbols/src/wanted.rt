ghost use Rattle.std.specs.Prelude.{◌≡◌, ◌≤◌, ◌<◌, ◌^◌, ◌++◌, ◌∷◌, [], length, slice_get, Some, None, OnOk, OnErr, IsSomeAnd, IfOk};
ghost use Rattle.symbols.specs.Wanted.{import_of, entry_name_at, import_name_at, IsHostNumber};

use std::alloc::{AllocError, Global};
use std::marker::Model;

/// What an import is: a host call by its number, or the growing of the heap.
#[derive(Clone, Copy, Debug, PartialEq, Eq)]
pub enum ImportKind {
    /// The host call of this number, below 2^31.
    Host(u32),
    /// The instruction `sbrk`.
    Sbrk,
}

/// A name, as bytes of its own.
#[derive(Debug, Drop)]
struct Name {
    bytes: Vec<u8>,
}

impl Model for Name {
    ghost use Rattle.std.specs.Prelude.{ℕ, List};

    ghost Value = { List ℕ };

    ghost view = { λ n. n.bytes.items };
}

impl Name {
    fn copy_of(alloc: Global, bytes: &[u8]) -> Result<Name, AllocError>
        ensures { IfOk result (λ name. name ≡ bytes.now) }
    {
        Ok(Name {
            bytes: bytes.to_vec(alloc)?,
        })
    }

    fn as_slice(&self) -> &[u8]
        ensures { result.now ≡ self.now }
    {
        self.bytes.as_slice()
    }
}

/// An undefined name that the host stands for.
#[derive(Debug, Drop)]
struct Import {
    name: Name,
    kind: ImportKind,
}

impl Model for Import {
    ghost use Rattle.symbols.specs.Wanted.{Import as TheImport, IsHostNumber};

    ghost Value = { TheImport };

    ghost view = { λ i. record { name = i.name; kind = i.kind } };

    ghost invariant = { λ i. IsHostNumber i.kind };
}

impl Import {
    fn new(name: Name, kind: ImportKind) -> Import
        requires { IsHostNumber kind }
        ensures { result ≡ record { name = name; kind = kind } }
    {
        Import { name, kind }
    }

    fn name(&self) -> &[u8]
        ensures { result.now ≡ self.now.name }
    {
        self.name.as_slice()
    }

    fn kind(&self) -> ImportKind
        ensures kind { result ≡ self.now.kind }
        ensures number { IsHostNumber result }
    {
        self.kind
    }
}

/// What is wanted of a link's objects: the names of its entries, the imports and the size of the stack.
#[derive(Debug, Drop)]
pub struct Wanted {
    alloc: Global,
    entries: Vec<Name>,
    imports: Vec<Import>,
    stack: u32,
}

impl Model for Wanted {
    ghost use Rattle.std.specs.Prelude.{◌≤◌, ◌<◌, ◌^◌, length};
    ghost use Rattle.symbols.specs.Wanted.{Wanted as TheWanted};

    ghost Value = { TheWanted };

    ghost view = { λ w. record { entries = w.entries.items; imports = w.imports.items; stack = w.stack } };

    ghost invariant = { λ w. (length w.entries.items ≤ 1000) × (length w.imports.items ≤ 1000) × (w.stack < 2 ^ 24) };
}

impl Wanted {
    /// No entries and no imports, and the size of the stack, below 2^24 bytes. It takes no memory.
    pub fn new(alloc: Global, stack: u32) -> Wanted
        requires { stack < 2 ^ 24 }
        ensures { result ≡ record { entries = []; imports = []; stack = stack } }
    {
        Wanted {
            alloc,
            entries: Vec::new(alloc),
            imports: Vec::new(alloc),
            stack,
        }
    }

    /// Adds an entry, of which there are at most 1,000. If an allocation fails, nothing changes.
    pub fn entry(&mut self, name: &[u8]) -> Result<(), AllocError>
        requires { length self.old.entries < 1000 }
        ensures ok { OnOk result (self.new ≡ record self.old { entries = self.old.entries ++ name.now ∷ [] }) }
        ensures err { OnErr result (self.new ≡ self.old) }
    {
        let name = Name::copy_of(self.alloc, name)?;
        self.entries.push(name)?;
        Ok(())
    }

    /// Adds an import, of which there are at most 1,000, under a name that has none. A host call's number is below
    /// 2^31. If an allocation fails, nothing changes.
    pub fn import(&mut self, name: &[u8], kind: ImportKind) -> Result<(), AllocError>
        requires room { length self.old.imports < 1000 }
        requires new_name { import_of self.old name.now ≡ None }
        requires number { IsHostNumber kind }
        ensures ok { OnOk result (self.new ≡ record self.old { imports = self.old.imports ++ record { name = name.now; kind = kind } ∷ [] }) }
        ensures err { OnErr result (self.new ≡ self.old) }
    {
        let name = Name::copy_of(self.alloc, name)?;
        self.imports.push(Import::new(name, kind))?;
        Ok(())
    }

    /// How many entries there are.
    pub fn entries(&self) -> u32
        ensures count { result ≡ length self.now.entries }
        ensures few { result ≤ 1000 }
    {
        self.entries.len() as u32
    }

    /// The name of an entry by its number, from 0.
    pub fn entry_name(&self, at: u32) -> &[u8]
        requires { at < length self.now.entries }
        ensures { slice_get self.now.entries at ≡ Some result.now }
    {
        self.entries[at as usize].as_slice()
    }

    /// How many imports there are.
    pub fn imports(&self) -> u32
        ensures { result ≡ length self.now.imports }
    {
        self.imports.len() as u32
    }

    /// The name of an import by its number, from 0.
    pub fn import_name(&self, at: u32) -> &[u8]
        requires { at < length self.now.imports }
        ensures { IsSomeAnd (slice_get self.now.imports at) (λ import. result.now ≡ import.name) }
    {
        self.imports[at as usize].name()
    }

    /// The number of the import with a name, if it is imported.
    pub fn find_import(&self, name: &[u8]) -> Option<u32>
        ensures { result ≡ import_of self.now name.now }
    {
        for at in 0..self.imports() {
            if name == self.import_name(at) {
                return Some(at);
            }
        }
        None
    }

    /// What an import is, by its number, from 0.
    pub fn import_kind(&self, at: u32) -> ImportKind
        requires { at < length self.now.imports }
        ensures kind { IsSomeAnd (slice_get self.now.imports at) (λ import. result ≡ import.kind) }
        ensures number { IsHostNumber result }
    {
        self.imports[at as usize].kind()
    }

    /// The size of the stack, in bytes.
    pub fn stack(&self) -> u32
        ensures size { result ≡ self.now.stack }
        ensures small { result < 2 ^ 24 }
    {
        self.stack
    }
}
