//! What a link is given, and its parts by their numbers.

ghost use Rattle.std.specs.Prelude.{◌≡◌, ◌≤◌, ◌<◌, ◌^◌, [], length, slice_get, Some, IsSomeAnd, MatchResult};
ghost use Rattle.elf_objects.specs.Objects.{ShowsSection};
ghost use Rattle.symbols.specs.Wanted.{Given};
ghost use Rattle.symbols.specs.Resolved.{IsResolved};
ghost use Rattle.symbols.specs.Faults.{symbol_faults};
ghost use Rattle.symbols.specs.Parts.{sections_of};
ghost use Rattle.layout.specs.Addresses.{address_of, got_of, zero_pages};
ghost use Rattle.layout.specs.Faults.{layout_faults};
ghost use Rattle.layout.specs.Placed.{IsPlaced};
ghost use Rattle.relocs.specs.AddressMap.{needed_places};
ghost use Rattle.relocs.specs.Images.{AreImages, Refuses as DataRefuses};
ghost use Rattle.lift_blocks.specs.Listed.{Lifts};
ghost use Rattle.lift_blocks.specs.Kept.{Refuses as CodeRefuses};

use crate::phases::images_with;
use elf_objects::{Objects, Section};
use layout::Placed;
use lift_blocks::{LiftFault, Lifted, lift};
use relocs::{CodeMap, Images, RelocFault};
use std::alloc::Global;
use std::marker::Model;
use symbols::{Resolved, Wanted};

/// Objects and wanted names without a fault in their symbols and their layout, what the names stand for, and where the
/// data are loaded.
#[derive(Drop)]
pub(crate) struct Input<'a> {
    objects: &'a Objects<'a>,
    wanted: &'a Wanted,
    resolved: &'a Resolved,
    placed: &'a Placed,
}

impl<'a> Model for Input<'a> {
    ghost use Rattle.symbols.specs.Wanted.{Given as TheGiven};
    ghost use Rattle.link_core.specs.Inputs.{IsInput};

    ghost Value = { TheGiven };

    ghost view = { λ i. record { objects = i.objects.now; wanted = i.wanted.now } };

    ghost invariant = { λ i. let given : TheGiven = record { objects = i.objects.now; wanted = i.wanted.now } in IsInput given i.resolved.now i.placed.now };
}

impl<'a> Input<'a> {
    pub(crate) fn new(
        objects: &'a Objects<'a>,
        wanted: &'a Wanted,
        resolved: &'a Resolved,
        placed: &'a Placed,
    ) -> Input<'a>
        requires resolved { let given : Given = record { objects = objects.now; wanted = wanted.now } in IsResolved given resolved.now × (symbol_faults given ≡ []) }
        requires placed { let given : Given = record { objects = objects.now; wanted = wanted.now } in IsPlaced given placed.now }
        ensures { result ≡ record { objects = objects.now; wanted = wanted.now } }
    {
        Input {
            objects,
            wanted,
            resolved,
            placed,
        }
    }

    /// How many objects there are.
    pub(crate) fn objects(&self) -> u32
        ensures { result ≡ length self.now.objects }
    {
        self.objects.len()
    }

    /// How many sections an object has.
    pub(crate) fn sections(&self, object: u32) -> u32
        requires { object < length self.now.objects }
        ensures { result ≡ length (sections_of (slice_get self.now.objects object)) }
    {
        self.objects.object(object).sections()
    }

    /// A section of an object.
    pub(crate) fn section(&self, object: u32, section: u32) -> Section<'a>
        requires { section < length (sections_of (slice_get self.now.objects object)) }
        ensures { IsSomeAnd (slice_get (sections_of (slice_get self.now.objects object)) section) (ShowsSection result) }
    {
        self.objects.object(object).section(section)
    }

    /// The address of a section. Code has none, nor what isn't loaded.
    pub(crate) fn address(&self, object: u32, section: u32) -> Option<u32>
        requires { section < length (sections_of (slice_get self.now.objects object)) }
        ensures { result ≡ address_of self.now object section }
    {
        self.placed.address(object, section)
    }

    /// The address and the size in bytes of the table of slots, where there is one.
    pub(crate) fn got(&self) -> Option<(u32, u32)>
        ensures { result ≡ got_of self.now }
    {
        self.placed.got()
    }

    /// How many pages of zeros the data need after those of the writable part.
    pub(crate) fn zero_pages(&self) -> u32
        ensures { result ≡ zero_pages self.now }
    {
        self.placed.zero_pages()
    }

    /// The data and the stack fit a container. It does nothing.
    pub(crate) fn fits(&self)
        ensures no_layout_fault { layout_faults self.now ≡ [] }
        ensures stack { self.now.wanted.stack < 2 ^ 24 }
    {
        let _stack = self.wanted.stack();
    }

    /// What is wanted of the objects.
    pub(crate) fn wanted(&self) -> &'a Wanted
        ensures { result.now ≡ self.now.wanted }
    {
        self.wanted
    }

    /// The operations in code order.
    pub(crate) fn lift(&self, alloc: Global) -> Result<Lifted, LiftFault>
        ensures { MatchResult result (Lifts self.now) (CodeRefuses self.now) }
    {
        lift(alloc, self.objects, self.resolved, self.placed, self.wanted)
    }

    /// The bytes of the data after relocation.
    pub(crate) fn images(&self, alloc: Global, map: &CodeMap) -> Result<Images, RelocFault>
        requires { map.now ≡ needed_places self.now }
        ensures { MatchResult result (AreImages self.now) (DataRefuses self.now) }
    {
        images_with(
            alloc,
            self.objects,
            self.wanted,
            self.resolved,
            self.placed,
            map,
        )
    }
}
