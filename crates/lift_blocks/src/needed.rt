//! The places that something names: those that operations keep in registers, and those that relocations name as addresses.

ghost use Rattle.std.specs.Prelude.{◌≡◌, ◌<◌, ◌&&◌, [], not, length, map, IfOk};
ghost use Rattle.std.specs.List.{cons_option, filter_map};
ghost use Rattle.faults.specs.First.{where_true};
ghost use Rattle.faults.specs.Present.{each_below};
ghost use Rattle.elf_objects.specs.Objects.{relocations_of};
ghost use Rattle.symbols.specs.Parts.{object_at};
ghost use Rattle.symbols.specs.Resolved.{IsResolved};
ghost use Rattle.symbols.specs.Wanted.{Given, Wanted, given_of};
ghost use Rattle.relocs.specs.AddressMap.{link_at, place_at, address_named, addresses_named, named_places};
ghost use Rattle.relocs.specs.ByOffset.{AreTables, HasTables};
ghost use Rattle.relocs.specs.Kinds.{names_address as is_an_address, gives_target, is_pc_low};
ghost use Rattle.relocs.specs.Places.{has};
ghost use Rattle.lift_blocks.specs.Kept.{site_of};
ghost use Rattle.lift_blocks.specs.Known.{AreAll, AreKnown};
ghost use Rattle.lift_blocks.specs.Marks.{with_mark, with_marks};
ghost use Rattle.lift_blocks.specs.Rank.{Ascends};

use crate::marks::{mark, mark_any, no_marks};
use crate::reader::Reader;
use crate::site::Site;
use elf_objects::{Objects, Relocation};
use relocs::{Kind, Tables, kind_of};
use std::alloc::{AllocError, Global};
use symbols::{Place, Resolved, has_effect};

/// Which of all places something names.
pub(crate) fn named_marks(
    alloc: Global,
    objects: &Objects<'_>,
    tables: &Tables,
    resolved: &Resolved,
    places: &[Site],
) -> Result<Vec<bool>, AllocError>
    ghost wanted: { Wanted }
    requires tables { HasTables objects.now tables.now }
    requires resolved { IsResolved (given_of objects.now wanted) resolved.now }
    requires places { AreAll (given_of objects.now wanted) (map site_of places.now) }
    ensures { IfOk result (λ marks. marks.items ≡ map (has (named_places (given_of objects.now wanted))) (map site_of places.now)) }
{
    let mut marks = no_marks(alloc, places)?;
    mark_named(places, &mut marks, objects, tables, resolved);
    Ok(marks)
}

/// Marks the places that something names.
#[tactic(auto, using(crate::proofs::Uses::fold_append))]
fn mark_named(
    places: &[Site],
    marks: &mut [bool],
    objects: &Objects<'_>,
    tables: &Tables,
    resolved: &Resolved,
)
    ghost wanted: { Wanted }
    requires tables { HasTables objects.now tables.now }
    requires resolved { IsResolved (given_of objects.now wanted) resolved.now }
    requires places { AreAll (given_of objects.now wanted) (map site_of places.now) }
    requires count { length marks.old ≡ length places.now }
    ensures { marks.new ≡ with_marks (map site_of places.now) marks.old (named_places (given_of objects.now wanted)) }
{
    let reader = Reader {
        objects: &*objects,
        tables: &*tables,
    };
    reader.mark_links(places, marks);
    mark_addresses(places, marks, objects, resolved);
}

impl Reader<'_, '_> {
    /// Marks the places that operations keep in registers.
    fn mark_links(&self, places: &[Site], marks: &mut [bool])
        ghost given: { Given }
        requires tables { AreTables given self.now.objects.now self.now.tables.now }
        requires ascend { Ascends (map site_of places.now) }
        requires known { AreKnown given (map site_of places.now) }
        requires count { length marks.old ≡ length places.now }
        ensures { marks.new ≡ with_marks (map site_of places.now) marks.old (filter_map (link_at given) (map site_of places.now)) }
    {
        for (at, place) in places.iter().enumerate() {
            let link = self.link(*place);
            mark_any(places, marks, link, at + 1);
        }
    }
}

/// Marks the places that relocations name as addresses.
fn mark_addresses(places: &[Site], marks: &mut [bool], objects: &Objects<'_>, resolved: &Resolved)
    ghost wanted: { Wanted }
    requires ascend { Ascends (map site_of places.now) }
    requires count { length marks.old ≡ length places.now }
    requires resolved { IsResolved (given_of objects.now wanted) resolved.now }
    ensures { marks.new ≡ with_marks (map site_of places.now) marks.old (each_below (length objects.now) (λ o. each_below (length (object_at objects.now o).sections) (addresses_named (given_of objects.now wanted) o))) }
{
    for object in 0..objects.len() {
        mark_object(places, marks, objects, resolved, object);
    }
}

/// Marks those of an object.
fn mark_object(
    places: &[Site],
    marks: &mut [bool],
    objects: &Objects<'_>,
    resolved: &Resolved,
    object: u32,
)
    ghost wanted: { Wanted }
    requires ascend { Ascends (map site_of places.now) }
    requires count { length marks.old ≡ length places.now }
    requires resolved { IsResolved (given_of objects.now wanted) resolved.now }
    requires object { object < length objects.now }
    ensures { marks.new ≡ with_marks (map site_of places.now) marks.old (each_below (length (object_at objects.now object).sections) (addresses_named (given_of objects.now wanted) object)) }
{
    for section in 0..objects.object(object).sections() {
        mark_section(places, marks, objects, resolved, object, section);
    }
}

/// Marks those of a section, where it is loaded.
fn mark_section(
    places: &[Site],
    marks: &mut [bool],
    objects: &Objects<'_>,
    resolved: &Resolved,
    object: u32,
    section: u32,
)
    ghost wanted: { Wanted }
    requires ascend { Ascends (map site_of places.now) }
    requires count { length marks.old ≡ length places.now }
    requires resolved { IsResolved (given_of objects.now wanted) resolved.now }
    requires object { object < length objects.now }
    requires section { section < length (object_at objects.now object).sections }
    ensures { marks.new ≡ with_marks (map site_of places.now) marks.old (addresses_named (given_of objects.now wanted) object section) }
{
    if !objects.object(object).section(section).kind.is_loaded() {
        return;
    }
    mark_table(places, marks, objects, resolved, object, section);
}

/// Marks those of a section's table.
fn mark_table(
    places: &[Site],
    marks: &mut [bool],
    objects: &Objects<'_>,
    resolved: &Resolved,
    object: u32,
    section: u32,
)
    ghost wanted: { Wanted }
    requires ascend { Ascends (map site_of places.now) }
    requires count { length marks.old ≡ length places.now }
    requires resolved { IsResolved (given_of objects.now wanted) resolved.now }
    requires object { object < length objects.now }
    requires section { section < length (object_at objects.now object).sections }
    ensures { marks.new ≡ with_marks (map site_of places.now) marks.old (filter_map (address_named (given_of objects.now wanted) object) (relocations_of (object_at objects.now object) section)) }
{
    for at in 0..objects.object(object).relocations(section) {
        let relocation = objects.object(object).relocation(section, at);
        let place = resolved.place(object, relocation.symbol);
        mark_use(places, marks, relocation, place);
    }
}

/// Marks the place that a relocation names as an address, if it does.
fn mark_use(places: &[Site], marks: &mut [bool], relocation: Relocation, place: Place)
    requires ascend { Ascends (map site_of places.now) }
    requires count { length marks.old ≡ length places.now }
    ensures { marks.new ≡ with_marks (map site_of places.now) marks.old (cons_option (where_true (is_an_address relocation) (place_at place relocation.addend)) []) }
{
    if !names_address(relocation) {
        return;
    }
    mark_place(places, marks, place, relocation.addend);
}

/// Marks what a symbol stands for with an addend, where that is a place of code or a stub.
#[tactic(auto, using(crate::proofs::Marking::nowhere_marked))]
fn mark_place(places: &[Site], marks: &mut [bool], place: Place, addend: i64)
    requires ascend { Ascends (map site_of places.now) }
    requires count { length marks.old ≡ length places.now }
    ensures { marks.new ≡ with_mark (map site_of places.now) marks.old (place_at place addend) }
{
    match place {
        Place::Code {
            object,
            section,
            offset,
        } => {
            mark(
                places,
                marks,
                Site::Code {
                    object,
                    section,
                    offset: offset.wrapping_add_signed(addend),
                },
                0,
            )
        }
        Place::Import(number) => mark(places, marks, Site::Stub { number, at: 0 }, places.len()),
        Place::Bytes { .. } | Place::Unloaded | Place::Number(_) | Place::Absent => {}
    }
}

/// Whether a relocation names an address.
fn names_address(relocation: Relocation) -> bool
    ensures { result ≡ is_an_address relocation }
{
    has_effect(relocation.kind) && is_address(kind_of(relocation.kind))
}

fn is_address(kind: Kind) -> bool
    ensures { result ≡ (not (gives_target kind) && not (is_pc_low kind)) }
{
    !matches!(
        kind,
        Kind::Branch | Kind::Jal | Kind::Call | Kind::PcLow | Kind::PcLowStore
    )
}
