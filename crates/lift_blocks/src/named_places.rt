ghost use Rattle.std.specs.Prelude.{◌≡◌, ◌<◌, [], length, fold, OnOk, IfOk};
ghost use Rattle.std.specs.List.{filter_map, cons_option};
ghost use Rattle.faults.specs.First.{where_true};
ghost use Rattle.faults.specs.Present.{each_below};
ghost use Rattle.elf_objects.specs.Objects.{relocations_of};
ghost use Rattle.symbols.specs.Parts.{object_at};
ghost use Rattle.symbols.specs.Resolved.{IsResolved};
ghost use Rattle.symbols.specs.Wanted.{Wanted, given_of};
ghost use Rattle.relocs.specs.Pairs.{named_if, named_in, named_by};
ghost use Rattle.lift_blocks.specs.CodeList.{test_of};
ghost use Rattle.layout.specs.Slots.{is_among, with_place};

use elf_objects::{Objects, Relocation};
use indexmap::IndexSet;
use relocs::{Kind, kind_of};
use std::alloc::{AllocError, Global};
use std::marker::Model;
use symbols::{Place, Resolved, has_effect};

/// The places that relocations name, each once.
#[derive(Drop)]
pub(crate) struct Named {
    places: IndexSet<Place>,
}

impl Model for Named {
    ghost use Rattle.std.specs.Prelude.{List};
    ghost use Rattle.symbols.specs.declared.place.Place.{Place as ThePlace};

    ghost Value = { List ThePlace };

    ghost view = { λ s. s.places.keys };
}

impl Named {
    /// No places.
    pub(crate) fn new(alloc: Global) -> Named
        ensures { result ≡ [] }
    {
        Named {
            places: IndexSet::new(alloc),
        }
    }

    /// Adds a place, unless it is there.
    pub(crate) fn add(&mut self, place: Place) -> Result<(), AllocError>
        ensures { OnOk result (self.new ≡ with_place self.old place) }
    {
        self.places.insert(place)?;
        Ok(())
    }

    /// Whether a place is named.
    pub(crate) fn has(&self, place: Place) -> bool
        ensures { result ≡ is_among self.now place }
    {
        self.places.contains(&place)
    }
}

/// The places that the relocations of loaded sections name which change something, or those which give a target.
pub(crate) fn named_of(
    alloc: Global,
    objects: &Objects<'_>,
    resolved: &Resolved,
    targets: bool,
) -> Result<Named, AllocError>
    ghost wanted: { Wanted }
    requires { IsResolved (given_of objects.now wanted) resolved.now }
    ensures { IfOk result (λ named. named ≡ fold with_place [] (named_by (test_of targets) (given_of objects.now wanted))) }
{
    let mut named = Named::new(alloc);
    for object in 0..objects.len() {
        named.add_object(objects, resolved, targets, object)?;
    }
    Ok(named)
}

impl Named {
    /// Adds those of an object.
    fn add_object(
        &mut self,
        objects: &Objects<'_>,
        resolved: &Resolved,
        targets: bool,
        object: u32,
    ) -> Result<(), AllocError>
        ghost wanted: { Wanted }
        requires resolved { IsResolved (given_of objects.now wanted) resolved.now }
        requires object { object < length objects.now }
        ensures { OnOk result (self.new ≡ fold with_place self.old (each_below (length (object_at objects.now object).sections) (named_in (test_of targets) (given_of objects.now wanted) object))) }
    {
        for section in 0..objects.object(object).sections() {
            self.add_section(objects, resolved, targets, object, section)?;
        }
        Ok(())
    }

    /// Adds those of a section, where it is loaded.
    fn add_section(
        &mut self,
        objects: &Objects<'_>,
        resolved: &Resolved,
        targets: bool,
        object: u32,
        section: u32,
    ) -> Result<(), AllocError>
        ghost wanted: { Wanted }
        requires resolved { IsResolved (given_of objects.now wanted) resolved.now }
        requires object { object < length objects.now }
        requires section { section < length (object_at objects.now object).sections }
        ensures { OnOk result (self.new ≡ fold with_place self.old (named_in (test_of targets) (given_of objects.now wanted) object section)) }
    {
        if objects.object(object).section(section).kind.is_loaded() {
            self.add_table(objects, resolved, targets, object, section)
        } else {
            Ok(())
        }
    }

    /// Adds those of a section's table.
    fn add_table(
        &mut self,
        objects: &Objects<'_>,
        resolved: &Resolved,
        targets: bool,
        object: u32,
        section: u32,
    ) -> Result<(), AllocError>
        ghost wanted: { Wanted }
        requires resolved { IsResolved (given_of objects.now wanted) resolved.now }
        requires object { object < length objects.now }
        requires section { section < length (object_at objects.now object).sections }
        ensures { OnOk result (self.new ≡ fold with_place self.old (filter_map (named_if (test_of targets) (given_of objects.now wanted) object) (relocations_of (object_at objects.now object) section))) }
    {
        for at in 0..objects.object(object).relocations(section) {
            let relocation = objects.object(object).relocation(section, at);
            self.add_use(
                targets,
                relocation,
                resolved.place(object, relocation.symbol),
            )?;
        }
        Ok(())
    }

    /// Adds the place that a relocation names, if the relocation passes the test.
    fn add_use(
        &mut self,
        targets: bool,
        relocation: Relocation,
        place: Place,
    ) -> Result<(), AllocError>
        ensures { OnOk result (self.new ≡ fold with_place self.old (cons_option (where_true (test_of targets relocation) place) [])) }
    {
        if passes(targets, relocation) {
            self.add(place)
        } else {
            Ok(())
        }
    }
}

/// Whether a relocation changes something, or gives a target.
fn passes(targets: bool, relocation: Relocation) -> bool
    ensures { result ≡ test_of targets relocation }
{
    if targets {
        matches!(
            kind_of(relocation.kind),
            Kind::Branch | Kind::Jal | Kind::Call
        )
    } else {
        has_effect(relocation.kind)
    }
}
