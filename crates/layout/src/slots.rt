ghost use Rattle.std.specs.Prelude.{◌≡◌, ◌<◌, [], length, fold, nat_eq, slice_get, Some, OnOk, IfOk};
ghost use Rattle.std.specs.List.{position, filter_map, cons_option};
ghost use Rattle.faults.specs.First.{where_true};
ghost use Rattle.faults.specs.Present.{each_below};
ghost use Rattle.elf_objects.specs.Objects.{relocations_of};
ghost use Rattle.symbols.specs.Parts.{object_at};
ghost use Rattle.symbols.specs.Resolved.{IsResolved};
ghost use Rattle.symbols.specs.Wanted.{Wanted, given_of};
ghost use Rattle.layout.specs.Slots.{is_same, with_place, slot_use, slot_uses_in, slot_places};

use elf_objects::Objects;
use indexmap::IndexSet;
use std::alloc::{AllocError, Global};
use std::marker::Model;
use symbols::{Place, Resolved};

/// The type of the relocations that need a slot of the global offset table (RISC-V ELF psABI, "Relocations").
pub(crate) const GOT_HI20: u32 = 20;

/// The places that have a slot, in the order of their slots.
#[derive(Drop)]
pub(crate) struct Slots {
    places: IndexSet<Place>,
}

impl Model for Slots {
    ghost use Rattle.std.specs.Prelude.{List};
    ghost use Rattle.symbols.specs.declared.place.Place.{Place as ThePlace};

    ghost Value = { List ThePlace };

    ghost view = { λ s. s.places.keys };
}

impl Slots {
    /// No places.
    pub(crate) fn new(alloc: Global) -> Slots
        ensures { result ≡ [] }
    {
        Slots {
            places: IndexSet::new(alloc),
        }
    }

    /// Adds a place, unless it has a slot.
    pub(crate) fn add(&mut self, place: Place) -> Result<(), AllocError>
        ensures { OnOk result (self.new ≡ with_place self.old place) }
    {
        self.places.insert(place)?;
        Ok(())
    }

    /// The number of slots.
    pub(crate) fn len(&self) -> usize
        ensures { result ≡ length self.now }
    {
        self.places.len()
    }

    /// The number of a place's slot.
    pub(crate) fn find(&self, place: Place) -> Option<usize>
        ensures { result ≡ position (is_same place) self.now }
    {
        self.places.get_index_of(&place)
    }

    /// A place by the number of its slot.
    pub(crate) fn place(&self, at: usize) -> Place
        requires { at < length self.now }
        ensures { slice_get self.now at ≡ Some result }
    {
        *self.places.get_index(at).unwrap()
    }
}

/// The places that need a slot for the relocations of loaded sections.
#[tactic(auto, unfolding(crate::specs::Slots::slot_places))]
pub(crate) fn slots_of(
    alloc: Global,
    objects: &Objects<'_>,
    resolved: &Resolved,
) -> Result<Slots, AllocError>
    ghost wanted: { Wanted }
    requires { IsResolved (given_of objects.now wanted) resolved.now }
    ensures { IfOk result (λ slots. slots ≡ slot_places (given_of objects.now wanted)) }
{
    let mut slots = Slots::new(alloc);
    for object in 0..objects.len() {
        slots.add_object(objects, resolved, object)?;
    }
    Ok(slots)
}

impl Slots {
    /// Adds those of an object.
    fn add_object(
        &mut self,
        objects: &Objects<'_>,
        resolved: &Resolved,
        object: u32,
    ) -> Result<(), AllocError>
        ghost wanted: { Wanted }
        requires resolved { IsResolved (given_of objects.now wanted) resolved.now }
        requires object { object < length objects.now }
        ensures { OnOk result (self.new ≡ fold with_place self.old (each_below (length (object_at objects.now object).sections) (slot_uses_in (given_of objects.now wanted) object))) }
    {
        for section in 0..objects.object(object).sections() {
            self.add_section(objects, resolved, object, section)?;
        }
        Ok(())
    }

    /// Adds those of a section, where it is loaded.
    fn add_section(
        &mut self,
        objects: &Objects<'_>,
        resolved: &Resolved,
        object: u32,
        section: u32,
    ) -> Result<(), AllocError>
        ghost wanted: { Wanted }
        requires resolved { IsResolved (given_of objects.now wanted) resolved.now }
        requires object { object < length objects.now }
        requires section { section < length (object_at objects.now object).sections }
        ensures { OnOk result (self.new ≡ fold with_place self.old (slot_uses_in (given_of objects.now wanted) object section)) }
    {
        if objects.object(object).section(section).kind.is_loaded() {
            self.add_table(objects, resolved, object, section)
        } else {
            Ok(())
        }
    }

    /// Adds those of a section's table.
    fn add_table(
        &mut self,
        objects: &Objects<'_>,
        resolved: &Resolved,
        object: u32,
        section: u32,
    ) -> Result<(), AllocError>
        ghost wanted: { Wanted }
        requires resolved { IsResolved (given_of objects.now wanted) resolved.now }
        requires object { object < length objects.now }
        requires section { section < length (object_at objects.now object).sections }
        ensures { OnOk result (self.new ≡ fold with_place self.old (filter_map (slot_use (given_of objects.now wanted) object) (relocations_of (object_at objects.now object) section))) }
    {
        for at in 0..objects.object(object).relocations(section) {
            let relocation = objects.object(object).relocation(section, at);
            self.add_use(relocation.kind, resolved.place(object, relocation.symbol))?;
        }
        Ok(())
    }

    /// Adds the place that a relocation names, if one of its kind needs a slot.
    fn add_use(&mut self, kind: u32, place: Place) -> Result<(), AllocError>
        ensures { OnOk result (self.new ≡ fold with_place self.old (cons_option (where_true (nat_eq kind GOT_HI20) place) [])) }
    {
        if kind == GOT_HI20 {
            self.add(place)
        } else {
            Ok(())
        }
    }
}
