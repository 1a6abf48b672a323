//! The lifting of objects.

ghost use Rattle.std.specs.Prelude.{◌≡◌, ◌≤◌, ◌^◌, [], true, length, map as each, Some, IfOk, MatchResult};
ghost use Rattle.symbols.specs.Faults.{symbol_faults};
ghost use Rattle.symbols.specs.Resolved.{IsResolved};
ghost use Rattle.symbols.specs.Wanted.{Given, Wanted as TheWanted, given_of};
ghost use Rattle.layout.specs.Placed.{IsPlaced};
ghost use Rattle.relocs.specs.AddressMap.{needed_places};
ghost use Rattle.relocs.specs.CodeFaults.{code_faults};
ghost use Rattle.relocs.specs.ByOffset.{HasTables, AreTables};
ghost use Rattle.relocs.specs.Pairs.{all_places, is_place};
ghost use Rattle.lift_blocks.specs.Kept.{site_of, operation_of, Refuses};
ghost use Rattle.lift_blocks.specs.Known.{AreAll};
ghost use Rattle.lift_blocks.specs.Listed.{Lifts, place as place_in};
ghost use Rattle.lift_blocks.specs.Listing.{AreListed, AreOperations, IsNumbered};
ghost use Rattle.lift_blocks.specs.Lifting.{ArePlaces, IsLink, HaveSmallNumbers};
ghost use Rattle.lift_blocks.specs.Operations.{operation_at, rename};
ghost use Rattle.lift_blocks.specs.PlacedOps.{IsMachineOf};

use crate::entries::entry_sites;
use crate::fault::LiftFault;
use crate::first_fault::first_code_fault;
use crate::lifted::Lifted;
use crate::listing::{Survey, list};
use crate::mapping::code_map;
use crate::needed::named_marks;
use crate::numbering::Numbers;
use crate::operations::SourceMachine;
use crate::reader::Reader;
use crate::site::Site;
use crate::source_op::SourceOp;
use crate::surveying::survey;
use elf_objects::Objects;
use layout::Placed;
use relocs::{CodeMap, Sources, Tables};
use std::alloc::{AllocError, Global};
use symbols::{Resolved, Wanted};

/// No more places than this are lifted. Objects of at most 2^24 bytes, of which there are at most 1,024, have fewer.
const MAX_PLACES: usize = 0x1000_0000;

/// The operations of the objects in code order.
///
/// # Errors
/// `Bad` exactly where the code has a fault, with the first one by object, section, offset and code, and `Memory`.
pub fn lift(
    alloc: Global,
    objects: &Objects<'_>,
    resolved: &Resolved,
    placed: &Placed,
    wanted: &Wanted,
) -> Result<Lifted, LiftFault>
    requires resolved { IsResolved (given_of objects.now wanted.now) resolved.now }
    requires placed { IsPlaced (given_of objects.now wanted.now) placed.now }
    requires names { symbol_faults (given_of objects.now wanted.now) ≡ [] }
    ensures { MatchResult result (Lifts (given_of objects.now wanted.now)) (Refuses (given_of objects.now wanted.now)) }
{
    let link = Link {
        objects: &*objects,
        resolved: &*resolved,
        placed: &*placed,
        wanted: &*wanted,
    };
    link.lift(alloc)
}

/// What a link is given, with its names resolved and its data placed.
#[derive(Clone, Copy, Drop)]
struct Link<'l, 'a> {
    objects: &'l Objects<'a>,
    resolved: &'l Resolved,
    placed: &'l Placed,
    wanted: &'l Wanted,
}

/// All places in code order, and which of them something names.
#[derive(Drop)]
struct Places {
    all: Vec<Site>,
    named: Vec<bool>,
}

impl Link<'_, '_> {
    /// The operations in code order.
    fn lift(&self, alloc: Global) -> Result<Lifted, LiftFault>
        ghost names: { TheWanted }
        requires { IsLink (given_of self.now.objects.now names) self.now }
        ensures { MatchResult result (Lifts (given_of self.now.objects.now names)) (Refuses (given_of self.now.objects.now names)) }
    {
        let tables = Tables::new(alloc, self.objects)?;
        let places = self.places(alloc, &tables)?;
        let reader = Reader {
            objects: self.objects,
            tables: &tables,
        };
        self.lift_places(alloc, &reader, places)
    }

    /// All places.
    fn places(&self, alloc: Global, tables: &Tables) -> Result<Places, AllocError>
        ghost names: { TheWanted }
        requires link { IsLink (given_of self.now.objects.now names) self.now }
        requires tables { HasTables self.now.objects.now tables.now }
        ensures { IfOk result (ArePlaces (given_of self.now.objects.now names)) }
    {
        let all = survey(
            alloc,
            self.objects,
            tables,
            self.resolved,
            self.placed,
            self.wanted.imports(),
        )?;
        if MAX_PLACES < all.len() {
            return Err(AllocError);
        }
        let named = named_marks(alloc, self.objects, tables, self.resolved, &all)?;
        Ok(Places { all, named })
    }

    /// The operations in code order, from all places.
    fn lift_places(
        &self,
        alloc: Global,
        reader: &Reader<'_, '_>,
        places: Places,
    ) -> Result<Lifted, LiftFault>
        ghost given: { Given }
        requires link { IsLink given self.now }
        requires tables { AreTables given reader.now.objects.now reader.now.tables.now }
        requires places { ArePlaces given places }
        ensures { MatchResult result (Lifts given) (Refuses given) }
    {
        let Places { all, named } = places;
        let map = code_map(alloc, &all, &named)?;
        let ops = self.operations(alloc, reader, &all, &map)?;
        let entries = entry_sites(alloc, self.resolved, self.wanted.entries())?;
        let survey = Survey {
            places: all,
            ops,
            needed: named,
            entries,
        };
        Ok(list(alloc, reader, survey, map, self.wanted.imports())?)
    }

    /// The operation at each place, with numbers of places as targets, unless the code has a fault.
    fn operations(
        &self,
        alloc: Global,
        reader: &Reader<'_, '_>,
        places: &[Site],
        map: &CodeMap,
    ) -> Result<Vec<SourceOp>, LiftFault>
        ghost given: { Given }
        requires link { IsLink given self.now }
        requires tables { AreTables given reader.now.objects.now reader.now.tables.now }
        requires places { AreAll given (each site_of places.now) }
        requires few { length places.now ≤ 2 ^ 28 }
        requires map { map.now ≡ needed_places given }
        ensures { MatchResult result (λ ops. AreOperations given (all_places given) (all_places given) ops.items × (code_faults given ≡ [])) (Refuses given) }
    {
        let sources = Sources::new(
            self.objects,
            self.resolved,
            self.placed,
            map,
            Some(reader.tables),
        );
        let fault = first_code_fault(alloc, *reader, sources, self.resolved, self.wanted)?;
        if let Some(fault) = fault {
            return Err(LiftFault::Bad(fault));
        }
        numbers_are_small(self.wanted);
        let machine = SourceMachine {
            sources,
            map,
            wanted: self.wanted,
        };
        Ok(machine.operations(alloc, places)?)
    }
}

/// The numbers of host calls fit in 31 bits. Reading them is all that it does.
fn numbers_are_small(wanted: &Wanted)
    ensures { HaveSmallNumbers wanted.now }
{
    for import in 0..wanted.imports() {
        let _kind = wanted.import_kind(import);
    }
}

impl SourceMachine<'_, '_, '_> {
    /// The operation at each place, with numbers of places as targets.
    fn operations(&self, alloc: Global, places: &[Site]) -> Result<Vec<SourceOp>, AllocError>
        ghost given: { Given }
        requires machine { IsMachineOf given self.now }
        requires places { each site_of places.now ≡ all_places given }
        requires listed { AreListed (each site_of places.now) }
        ensures { IfOk result (λ ops. AreOperations given (all_places given) (all_places given) ops.items) }
    {
        let numbers = Numbers { places: &*places };
        let mut ops = Vec::with_capacity(alloc, places.len())?;
        for at in 0..places.len() {
            ops.push(self.numbered(&numbers, places[at], at)?)?;
        }
        Ok(ops)
    }

    /// The operation at a place, with the number of its target.
    #[inline(always)]
    fn numbered(
        &self,
        numbers: &Numbers<'_>,
        place: Site,
        at: usize,
    ) -> Result<SourceOp, AllocError>
        ghost given: { Given }
        requires machine { IsMachineOf given self.now }
        requires place { is_place given (site_of place) ≡ true }
        requires listed { AreListed (each site_of numbers.now.places.now) }
        ensures value { IfOk result (λ op. operation_at given (site_of place) ≡ Some (rename (place_in (each site_of numbers.now.places.now)) (operation_of op))) }
        ensures numbered { IfOk result (λ op. IsNumbered (each site_of numbers.now.places.now) (rename (place_in (each site_of numbers.now.places.now)) (operation_of op)) (operation_of op)) }
    {
        match self.plain(place) {
            Some(op) => Ok(SourceOp::Plain(op)),
            None => numbers.operation(self.operation(place), at),
        }
    }
}
