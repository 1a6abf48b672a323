//! The address map.

ghost use Rattle.std.specs.Prelude.{◌≡◌, ◌<◌, ◌≤◌, ◌^◌, ◌++◌, ◌∷◌, [], true, length, map as each, IfOk, OnOk, if◌then◌else◌};
ghost use Rattle.symbols.specs.Wanted.{Given};
ghost use Rattle.relocs.specs.AddressMap.{named_places, needed_places};
ghost use Rattle.relocs.specs.CodeMap.{place_of, is_mapped, IsAfter};
ghost use Rattle.relocs.specs.Places.{has};
ghost use Rattle.lift_blocks.specs.Kept.{site_of};
ghost use Rattle.lift_blocks.specs.Known.{AreAll, IsMappable};

use crate::site::Site;
use relocs::CodeMap;
use std::alloc::{AllocError, Global};
use symbols::Place;

/// The address map, by marks at the places that something names.
pub(crate) fn code_map(
    alloc: Global,
    places: &[Site],
    named: &[bool],
) -> Result<CodeMap, AllocError>
    ghost given: { Given }
    requires places { AreAll given (each site_of places.now) }
    requires few { length places.now ≤ 2 ^ 28 }
    requires named { named.now ≡ each (has (named_places given)) (each site_of places.now) }
    ensures { IfOk result (λ map. map ≡ needed_places given) }
{
    let mut map = CodeMap::new(alloc);
    for (at, place) in places.iter().enumerate() {
        push_named(&mut map, named[at], *place)?;
    }
    Ok(map)
}

/// Adds a place, where it is named.
fn push_named(map: &mut CodeMap, named: bool, place: Site) -> Result<(), AllocError>
    requires room { length map.old < 2 ^ 28 }
    requires mappable { named ≡ true → IsMappable (site_of place) }
    requires after { named ≡ true → IsAfter map.old (site_of place) }
    ensures { OnOk result (map.new ≡ map.old ++ (if named then site_of place ∷ [] else [])) }
{
    if named {
        map.push(shown(place))
    } else {
        Ok(())
    }
}

/// A place that the map may have, as what a symbol stands for.
fn shown(place: Site) -> Place
    requires { IsMappable (site_of place) }
    ensures place { place_of result ≡ site_of place }
    ensures mapped { is_mapped result ≡ true }
{
    match place {
        Site::Code {
            object,
            section,
            offset,
        } => Place::Code {
            object,
            section,
            offset,
        },
        Site::Stub { number, .. } => Place::Import(number),
    }
}
