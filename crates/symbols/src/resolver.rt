ghost use Rattle.std.specs.Prelude.{◌≡◌, [], MatchResult};
ghost use Rattle.symbols.specs.Wanted.{given_of};
ghost use Rattle.symbols.specs.Resolved.{IsResolved};
ghost use Rattle.symbols.specs.Faults.{symbol_faults, Refuses};

use crate::fault::SymbolFault;
use crate::link::Link;
use crate::resolved::Resolved;
use crate::wanted::Wanted;
use elf_objects::Objects;
use std::alloc::Global;

/// What every symbol of the objects and every wanted name stands for.
///
/// # Errors
/// `Bad` exactly where the symbols or the entries have a fault, with the first one, and `Memory`, also where names that
/// share bytes have more than 2^28 bytes together.
pub fn resolve(
    alloc: Global,
    objects: &Objects<'_>,
    wanted: &Wanted,
) -> Result<Resolved, SymbolFault>
    ensures { let given = given_of objects.now wanted.now in MatchResult result
        (λ resolved. IsResolved given resolved × (symbol_faults given ≡ []))
        (λ fault. Refuses fault (symbol_faults given)) }
{
    let link = Link::new(alloc, objects, wanted)?;
    if let Some(fault) = link.fault(alloc)? {
        return Err(SymbolFault::Bad(fault));
    }
    let symbols = link.symbol_places(alloc)?;
    let entries = link.entry_places(alloc)?;
    let answers = link.answers(alloc)?;
    Ok(Resolved::new(symbols, entries, answers))
}
