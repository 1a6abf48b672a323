ghost use Rattle.std.specs.Prelude.{◌≡◌, ◌<◌, ◌++◌, ◌∷◌, [], length, slice_get, Some, OnOk, OnErr};

use crate::object::Object;
use std::alloc::{AllocError, Global};
use std::marker::Model;

/// The objects of a link in their order, at most 1,024 of them. Contracts see the list.
#[derive(Drop)]
pub struct Objects<'a> {
    items: Vec<Object<'a>>,
}

impl<'a> Model for Objects<'a> {
    ghost use Rattle.std.specs.Prelude.{◌≤◌, List, length};
    ghost use Rattle.elf_objects.specs.Objects.{Object as TheObject};

    ghost Value = { List TheObject };

    ghost view = { λ o. o.items.items };

    ghost invariant = { λ o. length o.items.items ≤ 1024 };
}

impl<'a> Objects<'a> {
    /// No objects. It takes no memory.
    pub fn new(alloc: Global) -> Objects<'a>
        ensures { result ≡ [] }
    {
        Objects {
            items: Vec::new(alloc),
        }
    }

    /// Adds an object at the end. If an allocation fails, the list is as before and the object is dropped.
    pub fn push(&mut self, object: Object<'a>) -> Result<(), AllocError>
        requires { length self.old < 1024 }
        ensures ok { OnOk result (self.new ≡ self.old ++ object.entry ∷ []) }
        ensures err { OnErr result (self.new ≡ self.old) }
    {
        self.items.push(object)?;
        Ok(())
    }

    /// How many objects there are.
    pub fn len(&self) -> u32
        ensures { result ≡ length self.now }
    {
        self.items.len() as u32
    }

    /// An object by its number, from 0.
    pub fn object(&self, at: u32) -> &Object<'a>
        requires { at < length self.now }
        ensures { slice_get self.now at ≡ Some result.now }
    {
        &self.items[at as usize]
    }
}
