ghost use Rattle.std.specs.Prelude.{MatchResult};
ghost use Rattle.symbols.specs.Resolved.{IsResolved};
ghost use Rattle.symbols.specs.Wanted.{Wanted, given_of};
ghost use Rattle.layout.specs.Placed.{IsPlaced};
ghost use Rattle.layout.specs.Faults.{Refuses};

use crate::fault::LayoutFault;
use crate::parts::measure;
use crate::placed::Placed;
use crate::slots::slots_of;
use elf_objects::Objects;
use std::alloc::Global;
use symbols::Resolved;

/// The addresses of the sections that aren't code, and of the slots. The size of the stack does not matter.
///
/// # Errors
/// `Bad` exactly where the objects have a fault of the layout, with the first one, and `Memory`.
pub fn place_all(
    alloc: Global,
    objects: &Objects<'_>,
    resolved: &Resolved,
    stack: u32,
) -> Result<Placed, LayoutFault>
    ghost wanted: { Wanted }
    requires { IsResolved (given_of objects.now wanted) resolved.now }
    ensures { MatchResult result (IsPlaced (given_of objects.now wanted)) (Refuses (given_of objects.now wanted)) }
{
    let slots = slots_of(alloc, objects, resolved)?;
    let parts = measure(objects, slots.len())?;
    let mut next = parts.starts;
    let addresses = next.load_all(alloc, objects)?;
    Ok(Placed::new(addresses, slots, parts))
}
