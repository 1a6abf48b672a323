//! The index of a place among all places.

ghost use Rattle.std.specs.Prelude.{◌≡◌, ◌≤◌, length, map, nat_lt, slice_get};
ghost use Rattle.std.specs.List.{position};
ghost use Rattle.std.specs.Option.{option_map};
ghost use Rattle.relocs.specs.Places.{same_place};
ghost use Rattle.lift_blocks.specs.Kept.{site_of};
ghost use Rattle.lift_blocks.specs.Rank.{rank_of, code_rank as the_code_rank, Ascends, IsFirstFrom, is_that};

use crate::site::Site;

/// How far from where it may be a place is looked for at first, in places.
const REACH: usize = 16;

/// The index of a place among those in order, by an index that it is likely near.
#[inline(always)]
pub(crate) fn find(places: &[Site], place: Site, near: usize) -> Option<usize>
    requires { Ascends (map site_of places.now) }
    ensures { result ≡ position (same_place (site_of place)) (map site_of places.now) }
{
    if is_at(places, place, near) {
        return Some(near);
    }
    find_around(places, place, near)
}

/// The index of a place among those in order, looked for around an index and then among all.
#[inline(never)]
fn find_around(places: &[Site], place: Site, near: usize) -> Option<usize>
    requires { Ascends (map site_of places.now) }
    ensures { result ≡ position (same_place (site_of place)) (map site_of places.now) }
{
    let from = near.min(places.len()).saturating_sub(REACH);
    let around = first_from(
        places,
        place,
        from,
        from.saturating_add(2 * REACH).min(places.len()),
    );
    if is_at(places, place, around) {
        return Some(around);
    }
    let first = first_from(places, place, 0, places.len());
    if is_at(places, place, first) {
        Some(first)
    } else {
        None
    }
}

/// Whether a place is at an index.
#[inline(always)]
fn is_at(places: &[Site], place: Site, at: usize) -> bool
    ensures { result ≡ is_that (site_of place) (option_map site_of (slice_get places.now at)) }
{
    match places.get(at) {
        Some(other) => is_same(place, *other),
        None => false,
    }
}

/// The first index of a range whose place isn't before this one.
fn first_from(places: &[Site], place: Site, from: usize, to: usize) -> usize
    requires ascends { Ascends (map site_of places.now) }
    requires within { to ≤ length places.now }
    ensures { IsFirstFrom (map site_of places.now) (site_of place) from to result }
{
    let mut low = from;
    let mut high = to;
    while low < high {
        let middle = low + (high - low) / 2;
        if is_before(places[middle], place) {
            low = middle + 1;
        } else {
            high = middle;
        }
    }
    low
}

/// Whether a place is before another.
#[tactic(auto, unfolding(crate::specs::Rank::rank_of))]
fn is_before(a: Site, b: Site) -> bool
    ensures { result ≡ nat_lt (rank_of (site_of a)) (rank_of (site_of b)) }
{
    match (a, b) {
        (
            Site::Code {
                object,
                section,
                offset,
            },
            Site::Code {
                object: other_object,
                section: other_section,
                offset: other_offset,
            },
        ) => code_rank(object, section, offset)
            < code_rank(other_object, other_section, other_offset),
        (
            Site::Code {
                object,
                section,
                offset,
            },
            Site::Stub { .. },
        ) => {
            let _rank = code_rank(object, section, offset);
            true
        }
        (
            Site::Stub { .. },
            Site::Code {
                object,
                section,
                offset,
            },
        ) => {
            let _rank = code_rank(object, section, offset);
            false
        }
        (
            Site::Stub { number, at },
            Site::Stub {
                number: other_number,
                at: other_at,
            },
        ) => {
            2 * u64::from(number) + u64::from(at)
                < 2 * u64::from(other_number) + u64::from(other_at)
        }
    }
}

/// The rank of a place of code in code order.
#[tactic(auto, unfolding(crate::specs::Rank::code_rank))]
fn code_rank(object: u32, section: u32, offset: u64) -> u128
    ensures { result ≡ the_code_rank object section offset }
{
    (u128::from(object) * 0x1_0000_0000 + u128::from(section)) * 0x1_0000_0000_0000_0000
        + u128::from(offset)
}

/// Whether two places are one.
#[inline(always)]
fn is_same(a: Site, b: Site) -> bool
    ensures { result ≡ same_place (site_of a) (site_of b) }
{
    match (a, b) {
        (
            Site::Code {
                object,
                section,
                offset,
            },
            Site::Code {
                object: other_object,
                section: other_section,
                offset: other_offset,
            },
        ) => object == other_object && section == other_section && offset == other_offset,
        (
            Site::Stub { number, at },
            Site::Stub {
                number: other_number,
                at: other_at,
            },
        ) => number == other_number && at == other_at,
        _ => false,
    }
}
