//! The phases of a link up to the operations, over one object.

ghost use Rattle.std.specs.Prelude.{◌≡◌, MatchResult};
ghost use Rattle.symbols.specs.Resolved.{IsResolved};
ghost use Rattle.symbols.specs.Wanted.{Wanted as TheWanted, given_of};
ghost use Rattle.layout.specs.Faults.{Refuses};
ghost use Rattle.layout.specs.Placed.{IsPlaced};

use elf_objects::{Object, Objects};
use layout::{LayoutFault, Placed, place_all};
use lift_blocks::{LiftFault, Lifted, lift};
use std::alloc::Global;
use std::marker::Model;
use std::process::Abort;
use std::test::*;
use symbols::{Place, Resolved, Wanted, resolve};

/// Objects, what they are linked for, and what the phases up to the operations make of them.
#[derive(Drop)]
pub(crate) struct Phases<'a> {
    pub(crate) objects: Objects<'a>,
    pub(crate) wanted: Wanted,
    pub(crate) resolved: Resolved,
    pub(crate) placed: Placed,
    pub(crate) lifted: Lifted,
}

impl<'a> Model for Phases<'a> {
    ghost use Rattle.std.specs.Prelude.{◌≡◌};
    ghost use Rattle.symbols.specs.Resolved.{IsResolved};
    ghost use Rattle.symbols.specs.Wanted.{Given, given_of};
    ghost use Rattle.layout.specs.Placed.{IsPlaced};
    ghost use Rattle.relocs.specs.AddressMap.{needed_places};

    ghost Value = { Given };

    ghost view = { λ p. given_of p.objects p.wanted };

    ghost invariant = { λ p. IsResolved (given_of p.objects p.wanted) p.resolved × IsPlaced (given_of p.objects p.wanted) p.placed × (p.lifted.map ≡ needed_places (given_of p.objects p.wanted)) };
}

/// Lifts the object of a file, with the entry `main`.
pub(crate) fn lift_main<'a>(
    rt: &impl Abort,
    alloc: Global,
    file: &'a [u8],
) -> Result<Result<Phases<'a>, LiftFault>, Fail> {
    assert!(rt; file.len() < 65536);
    let mut objects = Objects::new(alloc);
    objects.push(Object::read(alloc, file, 0)?)?;
    let mut wanted = Wanted::new(alloc, 4096);
    wanted.entry(b"main")?;
    let resolved = resolve(alloc, &objects, &wanted)?;
    let placed = place(alloc, &objects, &wanted, &resolved)?;
    match lift(alloc, &objects, &resolved, &placed, &wanted) {
        Ok(lifted) => Ok(Ok(Phases {
            objects,
            wanted,
            resolved,
            placed,
            lifted,
        })),
        Err(fault) => Ok(Err(fault)),
    }
}

/// Places the data of objects under the wanted names.
pub(crate) fn place(
    alloc: Global,
    objects: &Objects<'_>,
    wanted: &Wanted,
    resolved: &Resolved,
) -> Result<Placed, LayoutFault>
    ghost names: { TheWanted }
    requires resolved { IsResolved (given_of objects.now names) resolved.now }
    requires same { names ≡ wanted.now }
    ensures { MatchResult result (IsPlaced (given_of objects.now names)) (Refuses (given_of objects.now names)) }
{
    place_all(alloc, objects, resolved, wanted.stack())
}

/// A place of the code.
pub(crate) fn code(offset: u64) -> Place {
    Place::Code {
        object: 0,
        section: 1,
        offset,
    }
}
