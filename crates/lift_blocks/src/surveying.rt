//! All places of the source machine.

ghost use Rattle.std.specs.Prelude.{◌≡◌, length, map, IfOk};
ghost use Rattle.symbols.specs.Resolved.{IsResolved};
ghost use Rattle.symbols.specs.Wanted.{Wanted, given_of};
ghost use Rattle.layout.specs.Placed.{IsPlaced};
ghost use Rattle.relocs.specs.Pairs.{all_places};
ghost use Rattle.relocs.specs.ByOffset.{HasTables};
ghost use Rattle.lift_blocks.specs.Kept.{site_of};
ghost use Rattle.lift_blocks.specs.Known.{AreAll};
ghost use Rattle.lift_blocks.specs.Rank.{IsSmall};

use crate::named_places::named_of;
use crate::reader::Reader;
use crate::site::Site;
use crate::stubs::add_stubs;
use elf_objects::Objects;
use layout::Placed;
use relocs::Tables;
use std::alloc::{AllocError, Global};
use symbols::Resolved;

/// All places in code order, each known.
#[tactic(auto, using(crate::proofs::Ordered::ascends, crate::proofs::Sizes::all_known))]
pub(crate) fn survey(
    alloc: Global,
    objects: &Objects<'_>,
    tables: &Tables,
    resolved: &Resolved,
    placed: &Placed,
    imports: u32,
) -> Result<Vec<Site>, AllocError>
    ghost wanted: { Wanted }
    requires tables { HasTables objects.now tables.now }
    requires resolved { IsResolved (given_of objects.now wanted) resolved.now }
    requires placed { IsPlaced (given_of objects.now wanted) placed.now }
    requires imports { imports ≡ length wanted.imports }
    ensures { IfOk result (λ places. AreAll (given_of objects.now wanted) (map site_of places.items)) }
{
    counts_are_small(objects, placed);
    list_places(alloc, objects, tables, resolved, imports)
}

/// Numbers of objects and sections fit in 32 bits. Reading them is all that it does.
fn counts_are_small(objects: &Objects<'_>, _placed: &Placed)
    ghost wanted: { Wanted }
    requires { IsPlaced (given_of objects.now wanted) _placed.now }
    ensures { IsSmall (given_of objects.now wanted) }
{
    for object in 0..objects.len() {
        let _sections = objects.object(object).sections();
    }
}

/// All places in code order.
#[tactic(auto, using(crate::proofs::Walks::all_places_are))]
fn list_places(
    alloc: Global,
    objects: &Objects<'_>,
    tables: &Tables,
    resolved: &Resolved,
    imports: u32,
) -> Result<Vec<Site>, AllocError>
    ghost wanted: { Wanted }
    requires tables { HasTables objects.now tables.now }
    requires resolved { IsResolved (given_of objects.now wanted) resolved.now }
    requires imports { imports ≡ length wanted.imports }
    ensures { IfOk result (λ v. map site_of v.items ≡ all_places (given_of objects.now wanted)) }
{
    let reader = Reader {
        objects: &*objects,
        tables: &*tables,
    };
    let mut places = Vec::new(alloc);
    reader.add_code(&mut places)?;
    let named = named_of(alloc, objects, resolved, false)?;
    let targets = named_of(alloc, objects, resolved, true)?;
    add_stubs(&mut places, objects, &named, &targets, imports)?;
    Ok(places)
}
