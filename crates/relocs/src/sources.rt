//! What the meaning of relocations depends on.

ghost use Rattle.std.specs.Prelude.{◌≡◌, ◌<◌, ◌^◌, length, unsigned_abs, IfSome};
ghost use Rattle.symbols.specs.Laws.{IsWithin, HasSection};
ghost use Rattle.symbols.specs.Parts.{object_at};
ghost use Rattle.symbols.specs.Resolution.{resolution};
ghost use Rattle.symbols.specs.Wanted.{Given};
ghost use Rattle.relocs.specs.ByOffset.{HasTables};
ghost use Rattle.relocs.specs.AddressMap.{map_number, needed_places};
ghost use Rattle.relocs.specs.CodeMap.{place_of};
ghost use Rattle.relocs.specs.Sources.{AreSources, IsSourcesOf};
ghost use Rattle.relocs.specs.Values.{base_of, value_of};

use crate::code_map::CodeMap;
use crate::tables::Tables;
use elf_objects::{Objects, Relocation};
use layout::Placed;
use symbols::{Place, Resolved, places_are_within};

/// The objects of a link, what their symbols stand for, where their data are loaded, and the address map. With an index of
/// the relocations, those at an offset are found without a scan of their table.
#[derive(Clone, Copy, Drop)]
pub struct Sources<'l, 't, 'a> {
    pub(crate) objects: &'l Objects<'a>,
    pub(crate) resolved: &'l Resolved,
    pub(crate) placed: &'l Placed,
    pub(crate) map: &'l CodeMap,
    pub(crate) tables: Option<&'t Tables>,
}

impl<'l, 't, 'a> Sources<'l, 't, 'a> {
    /// The sources of these parts.
    pub fn new(
        objects: &'l Objects<'a>,
        resolved: &'l Resolved,
        placed: &'l Placed,
        map: &'l CodeMap,
        tables: Option<&'t Tables>,
    ) -> Sources<'l, 't, 'a>
        ghost given: { Given }
        requires parts { AreSources given objects.now resolved.now placed.now map.now }
        requires tables { IfSome tables (λ tables. HasTables objects.now tables.now) }
        ensures sources { IsSourcesOf given result }
        ensures tables { result.tables ≡ tables.entry }
    {
        Sources {
            objects,
            resolved,
            placed,
            map,
            tables,
        }
    }
}

impl Sources<'_, '_, '_> {
    /// What a relocation's symbol stands for.
    pub(crate) fn place(&self, object: u32, relocation: Relocation) -> Place
        ghost given: { Given }
        requires sources { IsSourcesOf given self.now }
        requires object { object < length given.objects }
        requires symbol { relocation.symbol < length (object_at given.objects object).symbols }
        ensures place { result ≡ resolution given object relocation.symbol }
        ensures within { IsWithin given result }
    {
        places_are_within();
        self.resolved.place(object, relocation.symbol)
    }

    /// The address of a section, and 0 where it has none.
    pub(crate) fn base(&self, object: u32, section: u32) -> u32
        ghost given: { Given }
        requires sources { IsSourcesOf given self.now }
        requires section { HasSection given.objects object section }
        ensures { result ≡ base_of given object section }
    {
        self.placed.address(object, section).unwrap_or(0)
    }

    /// The same of numbers that need not be those of a section.
    fn base_of_any(&self, object: u32, section: u32) -> u32
        ghost given: { Given }
        requires { IsSourcesOf given self.now }
        ensures { result ≡ base_of given object section }
    {
        if object < self.object_count() && section < self.section_count(object) {
            self.base(object, section)
        } else {
            0
        }
    }

    /// The number of a place, and 0 where it has none.
    fn number(&self, place: Place) -> u32
        ghost given: { Given }
        requires sources { IsSourcesOf given self.now }
        ensures { result ≡ map_number (needed_places given) (place_of place) }
    {
        self.map.number(place).unwrap_or(0)
    }

    /// The value of what a symbol stands for, with an addend.
    #[tactic(auto, unfolding(crate::specs::Values::value_of))]
    pub(crate) fn value(&self, place: Place, addend: i64) -> i128
        ghost given: { Given }
        requires sources { IsSourcesOf given self.now }
        ensures value { result ≡ value_of given place addend }
        ensures bound { unsigned_abs result < 2 ^ 80 }
    {
        match place {
            Place::Code {
                object,
                section,
                offset,
            } => i128::from(self.number(Place::Code {
                object,
                section,
                offset: offset.wrapping_add_signed(addend),
            })),
            Place::Bytes {
                object,
                section,
                offset,
            } => {
                i128::from(self.base_of_any(object, section))
                    + i128::from(offset)
                    + i128::from(addend)
            }
            Place::Unloaded => 0,
            Place::Import(i) => i128::from(self.number(Place::Import(i))),
            Place::Number(number) => i128::from(number) + i128::from(addend),
            Place::Absent => i128::from(addend),
        }
    }
}
