//! The places of the entries.

ghost use Rattle.std.specs.Prelude.{◌≡◌, [], length, map, IfOk};
ghost use Rattle.symbols.specs.Faults.{symbol_faults};
ghost use Rattle.symbols.specs.Resolved.{IsResolved};
ghost use Rattle.symbols.specs.Wanted.{Given};
ghost use Rattle.relocs.specs.CodeMap.{place_of};
ghost use Rattle.lift_blocks.specs.Kept.{site_of};
ghost use Rattle.lift_blocks.specs.Known.{IsCodePlace};
ghost use Rattle.lift_blocks.specs.Listed.{entry_places};

use crate::site::Site;
use std::alloc::{AllocError, Global};
use symbols::{Place, Resolved};

/// The places of the entries, in their order.
pub(crate) fn entry_sites(
    alloc: Global,
    resolved: &Resolved,
    entries: u32,
) -> Result<Vec<Site>, AllocError>
    ghost given: { Given }
    requires resolved { IsResolved given resolved.now }
    requires entries { entries ≡ length given.wanted.entries }
    requires no_fault { symbol_faults given ≡ [] }
    ensures { IfOk result (λ sites. map site_of sites.items ≡ entry_places given) }
{
    let mut sites = Vec::with_capacity(alloc, entries as usize)?;
    for entry in 0..entries {
        sites.push(code_site(resolved.entry(entry)))?;
    }
    Ok(sites)
}

fn code_site(place: Place) -> Site
    requires { IsCodePlace place }
    ensures { site_of result ≡ place_of place }
{
    match place {
        Place::Code {
            object,
            section,
            offset,
        } => Site::Code {
            object,
            section,
            offset,
        },
        Place::Bytes { .. }
        | Place::Unloaded
        | Place::Import(_)
        | Place::Number(_)
        | Place::Absent => unreachable!(),
    }
}
