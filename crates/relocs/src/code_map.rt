ghost use Rattle.std.specs.Prelude.{◌≡◌, ◌<◌, ◌+◌, ◌*◌, ◌^◌, ◌++◌, ◌∷◌, [], true, length, map, slice_get, nat_lt, Some, OnOk, OnErr};
ghost use Rattle.std.specs.List.{position};
ghost use Rattle.relocs.specs.Places.{same_place};
ghost use Rattle.relocs.specs.AddressMap.{number_in};
ghost use Rattle.relocs.specs.CodeMap.{place_of, is_mapped, code_rank as the_code_rank, rank_of, IsInOrder, IsAfter};

use std::alloc::{AllocError, Global};
use std::marker::Model;
use symbols::Place;

/// The address map: the places that a register can lead to, in code order. The place with the index i has the number
/// 2 (i + 1).
#[derive(Drop)]
pub struct CodeMap {
    places: Vec<Place>,
}

impl Model for CodeMap {
    ghost use Rattle.std.specs.Prelude.{List, length, ◌≤◌, ◌^◌, map, true};
    ghost use Rattle.relocs.specs.Places.{CodePlace};
    ghost use Rattle.relocs.specs.CodeMap.{place_of, is_mapped, IsInOrder, AreMapped};

    ghost Value = { List CodePlace };

    ghost view = { λ m. map place_of m.places.items };

    ghost invariant = { λ m. (length m.places.items ≤ 2 ^ 30) × IsInOrder (map place_of m.places.items) × AreMapped m.places.items };
}

impl CodeMap {
    /// A map without places. It takes no memory.
    pub fn new(alloc: Global) -> CodeMap
        ensures { result ≡ [] }
    {
        CodeMap {
            places: Vec::new(alloc),
        }
    }

    /// Adds a place after the others. Where an allocation fails, the map is unchanged.
    pub fn push(&mut self, place: Place) -> Result<(), AllocError>
        requires room { length self.old < 2 ^ 30 }
        requires mapped { is_mapped place ≡ true }
        requires after { IsAfter self.old (place_of place) }
        ensures ok { OnOk result (self.new ≡ self.old ++ place_of place ∷ []) }
        ensures err { OnErr result (self.new ≡ self.old) }
    {
        self.places.push(place)?;
        Ok(())
    }

    /// The number of places.
    pub fn len(&self) -> u32
        ensures { result ≡ length self.now }
    {
        self.places.len() as u32
    }

    /// A place by its index, from 0.
    pub fn place(&self, at: u32) -> Place
        requires { at < length self.now }
        ensures place { slice_get self.now at ≡ Some (place_of result) }
        ensures mapped { is_mapped result ≡ true }
    {
        self.places[at as usize]
    }

    /// The number of a place, where it is in the map.
    pub fn number(&self, place: Place) -> Option<u32>
        ensures { result ≡ number_in self.now (place_of place) }
    {
        let at = find(&self.places, place)?;
        Some(2 * (at as u32 + 1))
    }
}

/// The index of a place among those in order.
fn find(places: &[Place], place: Place) -> Option<usize>
    requires { IsInOrder (map place_of places.now) }
    ensures { result ≡ position (same_place (place_of place)) (map place_of places.now) }
{
    let mut low = 0;
    let mut high = places.len();
    while low < high {
        let middle = low + (high - low) / 2;
        if is_before(places[middle], place) {
            low = middle + 1;
        } else {
            high = middle;
        }
    }
    if low < places.len() && is_same(place, places[low]) {
        Some(low)
    } else {
        None
    }
}

/// Whether a place is before another in code order: places of code by object, section and offset, then imports.
fn is_before(a: Place, b: Place) -> bool
    ensures { result ≡ nat_lt (rank_of (place_of a)) (rank_of (place_of b)) }
{
    let (class, at) = rank(a);
    let (other_class, other_at) = rank(b);
    class < other_class || class == other_class && at < other_at
}

/// The rank of a place in code order: its class, and its rank among the places of that class.
#[tactic(auto, unfolding(crate::specs::CodeMap::rank_of))]
fn rank(place: Place) -> (u8, u128)
    ensures { result.0 * 2 ^ 128 + result.1 ≡ rank_of (place_of place) }
{
    match place {
        Place::Code {
            object,
            section,
            offset,
        } => (0, code_rank(object, section, offset)),
        Place::Import(i) => (1, u128::from(i)),
        _ => (2, 0),
    }
}

/// The rank of a place of code among those of code.
#[tactic(auto, unfolding(crate::specs::CodeMap::code_rank))]
fn code_rank(object: u32, section: u32, offset: u64) -> u128
    ensures { result ≡ the_code_rank object section offset }
{
    (u128::from(object) * 0x1_0000_0000 + u128::from(section)) * 0x1_0000_0000_0000_0000
        + u128::from(offset)
}

/// Whether two places are one place of the source machine.
fn is_same(a: Place, b: Place) -> bool
    ensures { result ≡ same_place (place_of a) (place_of b) }
{
    match (a, b) {
        (
            Place::Code {
                object,
                section,
                offset,
            },
            Place::Code {
                object: other_object,
                section: other_section,
                offset: other_offset,
            },
        ) => object == other_object && section == other_section && offset == other_offset,
        (Place::Import(i), Place::Import(j)) => i == j,
        (Place::Code { .. } | Place::Import(_), _) => false,
        (_, Place::Code { .. } | Place::Import(_)) => false,
        _ => true,
    }
}
