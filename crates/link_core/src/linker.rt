//! From the files of objects to a container.

ghost use Rattle.std.specs.Prelude.{◌≡◌, [], Some, MatchResult, OnOk, OnErr};
ghost use Rattle.faults.specs.Present.{first_in};
ghost use Rattle.std.specs.List.{filter_map};
ghost use Rattle.std.specs.Io.KnownBytes.{Appends};
ghost use Rattle.outside.specs.Outside.{AppendsPrefix, HasCause};
ghost use Rattle.elf_objects.specs.Reading.{object_of};
ghost use Rattle.symbols.specs.Wanted.{Given};
ghost use Rattle.link_core.specs.Faults.{object_faults, input_of, given_faults, HasNone, IsFirst, HasNoFault, HasFirstFault, FirstFaultIsOne, Refuses};
ghost use Rattle.link_core.specs.Linked.{HoldsLinked};

use crate::bundle::Bundle;
use crate::input::Input;
use crate::link_fault::LinkFault;
use crate::phases::place_with;
use crate::program::link_input;
use elf_objects::{Object, Objects};
use outside::{Failed, Sink};
use pvm_ops::Bytes8;
use relocs::CodeMap;
use std::alloc::Global;
use std::marker::Model;
use symbols::{Wanted, resolve};

/// The code of a program of more than 2^25 bytes.
pub const CODE_BYTES_TOO_LARGE: u8 = 32;

/// A linked program: its container, its address map, and its map as text.
#[derive(Drop)]
pub struct Linked {
    pub(crate) container: Bytes8,
    pub(crate) map: CodeMap,
    pub(crate) text: Vec<u8>,
}

impl Model for Linked {
    ghost use Rattle.link_core.specs.Linked.{Linked as Program};

    ghost Value = { Program };

    ghost view = { λ l. record { container = l.container; map = l.map; text = l.text.items } };
}

impl Linked {
    /// The bytes of the container.
    pub fn container(&self) -> &[u8]
        ensures { result.now ≡ self.now.container }
    {
        self.container.as_slice()
    }

    /// The address map: the place of each code address.
    pub fn map(&self) -> &CodeMap
        ensures { result.now ≡ self.now.map }
    {
        &self.map
    }

    /// Writes the map: a line for each entry, `entry I PPPPPPPP NAME`, with its number, the position of its first instruction
    /// in eight hexadecimal digits, and its name; one for each section of data that has bytes, by address,
    /// `data AAAAAAAA SSSSSSSS O:S`, with its address, its size, and the numbers of its object and its own; `got AAAAAAAA
    /// SSSSSSSS` where there is a table of slots; and one for each code address, `code NNNNNNNN PPPPPPPP O:S+XXXXXXXX`,
    /// with its number, its position, and the section and offset of its place.
    ///
    /// # Errors
    /// Where the write fails; a prefix of the map was written then.
    pub fn map_text<S: Sink>(&self, out: &mut S) -> Result<(), Failed>
        ensures ok { OnOk result (Appends (S.bytes out.old) (S.bytes out.new) self.now.text) }
        ensures err { OnErr result (AppendsPrefix (S.bytes out.old) (S.bytes out.new) self.now.text) }
        ensures cause { HasCause (S.faults out.old) (S.faults out.new) result }
    {
        out.put(&self.text)
    }
}

/// A law of faults: a link has at most one first fault, and none where it has no fault. It does nothing.
pub fn first_fault_is_one()
    ensures { FirstFaultIsOne }
{}

/// Links the objects of a bundle, in its order, into the program that is wanted.
///
/// # Errors
/// `Bad` with the first fault, exactly where there is one: of an object (codes 1 to 8), of symbols and entries (9 to 13),
/// too much data or code (14 to 17), of code (20 to 28, 30 and 31), of data (27 to 29), or too large a program (32). And
/// `Memory`.
pub fn link(alloc: Global, bundle: &Bundle, wanted: &Wanted) -> Result<Linked, LinkFault>
    ensures { MatchResult result
        (λ linked. HasNoFault bundle.now wanted.now × HoldsLinked (input_of bundle.now wanted.now) linked)
        (Refuses (HasFirstFault bundle.now wanted.now)) }
{
    let objects = read_objects(alloc, bundle)?;
    link_objects(alloc, &objects, wanted)
}

/// Reads the objects of a bundle.
fn read_objects(alloc: Global, bundle: &Bundle) -> Result<Objects<'_>, LinkFault>
    ensures { MatchResult result
        (λ objects. (object_faults bundle.now ≡ []) × (objects ≡ filter_map object_of bundle.now))
        (Refuses (λ fault. first_in (object_faults bundle.now) ≡ Some fault)) }
{
    let mut objects = Objects::new(alloc);
    for at in 0..bundle.len() {
        objects.push(Object::read(alloc, bundle.part(at), at)?)?;
    }
    Ok(objects)
}

/// Links objects.
fn link_objects(alloc: Global, objects: &Objects<'_>, wanted: &Wanted) -> Result<Linked, LinkFault>
    ensures { let given : Given = record { objects = objects.now; wanted = wanted.now } in MatchResult result
        (λ linked. HasNone (given_faults given) given × HoldsLinked given linked)
        (Refuses (IsFirst (given_faults given) given)) }
{
    let resolved = resolve(alloc, objects, wanted)?;
    let placed = place_with(alloc, objects, wanted, &resolved)?;
    link_input(alloc, &Input::new(objects, wanted, &resolved, &placed))
}
