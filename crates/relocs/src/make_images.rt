//! The images of a program's data.

ghost use Rattle.std.specs.Prelude.{MatchResult};
ghost use Rattle.symbols.specs.Wanted.{Given};
ghost use Rattle.relocs.specs.Images.{AreImages, Refuses};
ghost use Rattle.relocs.specs.Sources.{AreSources};

use crate::bytes::Images;
use crate::code_map::CodeMap;
use crate::fault::RelocFault;
use crate::part::Part;
use crate::sources::Sources;
use elf_objects::Objects;
use layout::Placed;
use std::alloc::Global;
use symbols::Resolved;

/// The bytes of the data of objects, after relocation.
///
/// # Errors
/// `Bad` exactly where a relocation of data has a fault, with the first one by object, section and relocation, and `Memory`.
#[tactic(auto, using(crate::proofs::FaultOrder::fault_order))]
pub fn images(
    alloc: Global,
    objects: &Objects<'_>,
    resolved: &Resolved,
    placed: &Placed,
    map: &CodeMap,
) -> Result<Images, RelocFault>
    ghost given: { Given }
    requires { AreSources given objects.now resolved.now placed.now map.now }
    ensures { MatchResult result (AreImages given) (Refuses given) }
{
    let sources = Sources {
        objects: &*objects,
        resolved: &*resolved,
        placed: &*placed,
        map: &*map,
        tables: None,
    };
    if let Some(fault) = sources.first_data_fault() {
        return Err(RelocFault::Bad(fault));
    }
    let read_only = sources.read_only_image(alloc)?;
    let writable = sources.sections_image(alloc, Part::Writable)?;
    Ok(Images::new(read_only, writable))
}
