//! The places of the stubs.

ghost use Rattle.std.specs.Prelude.{◌≡◌, ◌++◌, ◌∷◌, [], true, false, fold, length, map, OnOk, if◌then◌else◌};
ghost use Rattle.faults.specs.Present.{each_below};
ghost use Rattle.symbols.specs.Wanted.{Given, Wanted, given_of};
ghost use Rattle.layout.specs.Slots.{with_place};
ghost use Rattle.relocs.specs.Places.{Stub};
ghost use Rattle.relocs.specs.Pairs.{named_by, import_stub, stub_places};
ghost use Rattle.lift_blocks.specs.Kept.{site_of};
ghost use Rattle.lift_blocks.specs.CodeList.{test_of};

use crate::named_places::Named;
use crate::site::Site;
use elf_objects::Objects;
use std::alloc::AllocError;
use symbols::Place;

/// Adds the places of the stubs: those of the imports that are named, and the trap where a target is absent.
pub(crate) fn add_stubs(
    places: &mut Vec<Site>,
    objects: &Objects<'_>,
    named: &Named,
    targets: &Named,
    imports: u32,
) -> Result<(), AllocError>
    ghost wanted: { Wanted }
    requires named { named.now ≡ fold with_place [] (named_by (test_of false) (given_of objects.now wanted)) }
    requires targets { targets.now ≡ fold with_place [] (named_by (test_of true) (given_of objects.now wanted)) }
    requires imports { imports ≡ length wanted.imports }
    ensures { OnOk result (map site_of places.new.items ≡ map site_of places.old.items ++ stub_places (given_of objects.now wanted)) }
{
    add_imports(places, objects, named, imports)?;
    push_trap(places, targets.has(Place::Absent), imports)?;
    Ok(())
}

fn add_imports(
    places: &mut Vec<Site>,
    _objects: &Objects<'_>,
    named: &Named,
    imports: u32,
) -> Result<(), AllocError>
    ghost given: { Given }
    requires named { named.now ≡ fold with_place [] (named_by (test_of false) given) }
    ensures { OnOk result (map site_of places.new.items ≡ map site_of places.old.items ++ each_below imports (import_stub given)) }
{
    for number in 0..imports {
        push_stub(places, named.has(Place::Import(number)), number)?;
    }
    Ok(())
}

#[tactic(auto, using(crate::proofs::Walks::append_rules))]
fn push_stub(places: &mut Vec<Site>, named: bool, number: u32) -> Result<(), AllocError>
    ensures { OnOk result (map site_of places.new.items ≡ map site_of places.old.items ++ (if named then Stub number 0 ∷ Stub number 1 ∷ [] else [])) }
{
    if named {
        places.push(Site::Stub { number, at: 0 })?;
        places.push(Site::Stub { number, at: 1 })?;
    }
    Ok(())
}

#[tactic(auto, using(crate::proofs::Walks::append_rules))]
fn push_trap(places: &mut Vec<Site>, named: bool, number: u32) -> Result<(), AllocError>
    ensures { OnOk result (map site_of places.new.items ≡ map site_of places.old.items ++ (if named then Stub number 0 ∷ [] else [])) }
{
    if named {
        places.push(Site::Stub { number, at: 0 })?;
    }
    Ok(())
}
