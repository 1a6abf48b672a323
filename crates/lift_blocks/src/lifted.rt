ghost use Rattle.std.specs.Prelude.{◌≡◌, ◌<◌, ◌≤◌, ◌^◌, length, slice_get, IfSome};
ghost use Rattle.lift_blocks.specs.Fits.{FitsInstructions};
ghost use Rattle.lift_blocks.specs.Kept.{operation_of};
ghost use Rattle.lift_blocks.specs.Listed.{place as place_in, shown, target_of};

use crate::site::Site;
use crate::source_op::SourceOp;
use relocs::CodeMap;
use std::marker::Model;
use symbols::Place;

/// The operations of a program in code order with their places, which of them begin a block, and the operations of its
/// entries and of its address map.
#[derive(Drop)]
pub struct Lifted {
    pub(crate) places: Vec<Site>,
    pub(crate) ops: Vec<SourceOp>,
    pub(crate) begins: Vec<bool>,
    pub(crate) entries: Vec<u32>,
    pub(crate) needed: Vec<u32>,
    pub(crate) map: CodeMap,
    pub(crate) imports: u32,
}

impl Model for Lifted {
    ghost use Rattle.std.specs.Prelude.{map as each};
    ghost use Rattle.lift_blocks.specs.Kept.{site_of, operation_of, IsInRange};
    ghost use Rattle.lift_blocks.specs.Listed.{Lifted as TheLifted};

    ghost Value = { TheLifted };

    ghost view = { λ l. record { places = each site_of l.places.items; ops = each operation_of l.ops.items; begins = l.begins.items; entries = l.entries.items; needed = l.needed.items; map = l.map; imports = l.imports } };

    ghost invariant = { λ l. IsInRange (record { places = each site_of l.places.items; ops = each operation_of l.ops.items; begins = l.begins.items; entries = l.entries.items; needed = l.needed.items; map = l.map; imports = l.imports }) };
}

impl Lifted {
    /// How many operations there are.
    pub fn len(&self) -> u32
        ensures ops { result ≡ length self.now.ops }
        ensures places { result ≡ length self.now.places }
        ensures begins { result ≡ length self.now.begins }
        ensures few { result ≤ 2 ^ 30 }
    {
        self.ops.len() as u32
    }

    /// An operation by its number.
    pub fn operation(&self, at: u32) -> SourceOp
        requires { at < length self.now.ops }
        ensures value { slice_get self.now.ops at ≡ Some (operation_of result) }
        ensures fits { FitsInstructions (operation_of result) }
        ensures target { IfSome (target_of (operation_of result)) (λ t. t < length self.now.ops) }
    {
        self.ops[at as usize]
    }

    /// Whether an operation begins a block.
    pub fn begins(&self, at: u32) -> bool
        requires { at < length self.now.ops }
        ensures { slice_get self.now.begins at ≡ Some result }
    {
        self.begins[at as usize]
    }

    /// How many entries there are.
    pub fn entries(&self) -> u32
        ensures { result ≡ length self.now.entries }
    {
        self.entries.len() as u32
    }

    /// The operation of an entry.
    pub fn entry(&self, at: u32) -> u32
        requires { at < length self.now.entries }
        ensures value { slice_get self.now.entries at ≡ Some result }
        ensures within { result < length self.now.ops }
    {
        self.entries[at as usize]
    }

    /// The operation at a place of the address map, by the place's index.
    pub fn needed(&self, at: u32) -> u32
        requires { at < length self.now.needed }
        ensures value { slice_get self.now.needed at ≡ Some result }
        ensures within { result < length self.now.ops }
    {
        self.needed[at as usize]
    }

    /// The place of an operation: of a stub's the import, and of the trap stub's what is absent.
    pub fn place(&self, at: u32) -> Place
        requires { at < length self.now.places }
        ensures { result ≡ shown self.now.imports (place_in self.now.places at) }
    {
        self.places[at as usize].shown(self.imports)
    }

    /// The address map.
    pub fn map(&self) -> &CodeMap
        ensures value { result.now ≡ self.now.map }
        ensures few { length self.now.map ≤ 2 ^ 28 }
        ensures count { length self.now.needed ≡ length self.now.map }
    {
        &self.map
    }

    /// The address map alone.
    pub fn into_map(self) -> CodeMap
        ensures { result ≡ self.map }
    {
        self.map
    }
}
