//! The relocations that are read to find those at one offset: the table of a section, or a part of the index.

ghost use Rattle.std.specs.Prelude.{◌≡◌, ◌<◌, length, slice_get, Some};
ghost use Rattle.elf_objects.specs.Objects.{Object as TheObject, relocations_of};
ghost use Rattle.elf_objects.specs.Keeping.{KeepsRelocation};
ghost use Rattle.relocs.specs.Near.{items_of, IsThere, BelongTo};

use elf_objects::{Object, Relocation};

/// Relocations of a section, with those at an offset among them.
#[derive(Clone, Copy, Drop)]
pub(crate) enum Relocations<'l, 't, 'a> {
    /// All of the section, in table order.
    Table {
        object: &'l Object<'a>,
        section: u32,
    },
    /// Those at the offset alone.
    Row(&'t [Relocation]),
}

impl Relocations<'_, '_, '_> {
    /// The number of relocations.
    pub(crate) fn len(&self) -> usize
        requires { IsThere self.now }
        ensures { result ≡ length (items_of self.now) }
    {
        match *self {
            Relocations::Table { object, section } => object.relocations(section) as usize,
            Relocations::Row(row) => row.len(),
        }
    }

    /// A relocation by its index.
    pub(crate) fn get(&self, at: usize) -> Relocation
        requires there { IsThere self.now }
        requires at { at < length (items_of self.now) }
        ensures entry { slice_get (items_of self.now) at ≡ Some result }
        ensures named { (of : TheObject) → BelongTo of self.now → result.symbol < length of.symbols }
    {
        match *self {
            Relocations::Table { object, section } => relocation_of(object, section, at),
            Relocations::Row(row) => relocation_at(row, at),
        }
    }
}

fn relocation_at(row: &[Relocation], at: usize) -> Relocation
    requires { at < length row.now }
    ensures { slice_get row.now at ≡ Some result }
{
    row[at]
}

/// A relocation of a section by its number, which the object counts in 32 bits.
fn relocation_of(object: &Object<'_>, section: u32, at: usize) -> Relocation
    requires section { section < length object.now.sections }
    requires at { at < length (relocations_of object.now section) }
    ensures entry { slice_get (relocations_of object.now section) at ≡ Some result }
    ensures keeps { KeepsRelocation object.now section result }
{
    let last = object.relocations(section) - 1;
    object.relocation(section, last.min(at as u32))
}
