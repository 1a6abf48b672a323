//! The calls of the lower crates for what a link is given.

ghost use Rattle.std.specs.Prelude.{◌≡◌, MatchResult};
ghost use Rattle.symbols.specs.Wanted.{Given, Wanted as TheWanted, given_of};
ghost use Rattle.symbols.specs.Resolved.{IsResolved};
ghost use Rattle.layout.specs.Placed.{IsPlaced};
ghost use Rattle.layout.specs.Faults.{Refuses as LayoutRefuses};
ghost use Rattle.relocs.specs.Images.{AreImages, Refuses as DataRefuses};
ghost use Rattle.relocs.specs.AddressMap.{needed_places};

use elf_objects::Objects;
use layout::{LayoutFault, Placed, place_all};
use relocs::{CodeMap, Images, RelocFault, images};
use std::alloc::Global;
use symbols::{Resolved, Wanted};

/// The addresses of the sections of data.
pub(crate) fn place_with(
    alloc: Global,
    objects: &Objects<'_>,
    wanted: &Wanted,
    resolved: &Resolved,
) -> Result<Placed, LayoutFault>
    requires { IsResolved (given_of objects.now wanted.now) resolved.now }
    ensures { MatchResult result (IsPlaced (given_of objects.now wanted.now)) (LayoutRefuses (given_of objects.now wanted.now)) }
{
    place_under(alloc, objects, wanted, resolved)
}

fn place_under(
    alloc: Global,
    objects: &Objects<'_>,
    wanted: &Wanted,
    resolved: &Resolved,
) -> Result<Placed, LayoutFault>
    ghost names: { TheWanted }
    requires resolved { IsResolved (given_of objects.now names) resolved.now }
    requires same { names ≡ wanted.now }
    ensures { MatchResult result (IsPlaced (given_of objects.now names)) (LayoutRefuses (given_of objects.now names)) }
{
    place_all(alloc, objects, resolved, wanted.stack())
}

/// The bytes of the data after relocation.
pub(crate) fn images_with(
    alloc: Global,
    objects: &Objects<'_>,
    wanted: &Wanted,
    resolved: &Resolved,
    placed: &Placed,
    map: &CodeMap,
) -> Result<Images, RelocFault>
    requires resolved { IsResolved (given_of objects.now wanted.now) resolved.now }
    requires placed { IsPlaced (given_of objects.now wanted.now) placed.now }
    requires map { map.now ≡ needed_places (given_of objects.now wanted.now) }
    ensures { MatchResult result (AreImages (given_of objects.now wanted.now)) (DataRefuses (given_of objects.now wanted.now)) }
{
    images_under(alloc, objects, wanted, resolved, placed, map)
}

fn images_under(
    alloc: Global,
    objects: &Objects<'_>,
    _wanted: &Wanted,
    resolved: &Resolved,
    placed: &Placed,
    map: &CodeMap,
) -> Result<Images, RelocFault>
    ghost names: { TheWanted }
    requires resolved { IsResolved (given_of objects.now names) resolved.now }
    requires placed { IsPlaced (given_of objects.now names) placed.now }
    requires map { map.now ≡ needed_places (given_of objects.now names) }
    ensures { MatchResult result (AreImages (given_of objects.now names)) (DataRefuses (given_of objects.now names)) }
{
    images(alloc, objects, resolved, placed, map)
}
