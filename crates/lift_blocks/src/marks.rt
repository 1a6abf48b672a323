//! Marks at places in code order, and what is chosen by marks.

ghost use Rattle.std.specs.Prelude.{◌≡◌, ◌<◌, ◌++◌, ◌∷◌, [], length, map, IfOk, IfSome, OnOk, if◌then◌else◌};
ghost use Rattle.std.specs.List.{cons_option};
ghost use Rattle.std.specs.Option.{option_map};
ghost use Rattle.relocs.specs.Places.{has};
ghost use Rattle.lift_blocks.specs.Kept.{site_of};
ghost use Rattle.lift_blocks.specs.Listed.{place as place_in};
ghost use Rattle.lift_blocks.specs.Rank.{Ascends};
ghost use Rattle.lift_blocks.specs.Marks.{with_mark, with_marks, chosen as the_chosen};

use crate::search::find;
use crate::site::Site;
use std::alloc::{AllocError, Global};

/// No marks, for these places.
#[tactic(auto, using(crate::proofs::Marking::unmarked))]
pub(crate) fn no_marks(alloc: Global, places: &[Site]) -> Result<Vec<bool>, AllocError>
    ensures { IfOk result (λ marks. marks.items ≡ map (has []) (map site_of places.now)) }
{
    vec![in alloc; false; places.len()]
}

/// Marks a place, where it is among these, by an index that it is likely near.
#[inline(always)]
pub(crate) fn mark(places: &[Site], marks: &mut [bool], place: Site, near: usize)
    requires ascends { Ascends (map site_of places.now) }
    requires count { length marks.old ≡ length places.now }
    ensures { marks.new ≡ with_mark (map site_of places.now) marks.old (site_of place) }
{
    let Some(at) = find(places, place, near) else {
        return;
    };
    marks[at] = true;
}

/// Marks a place, if there is one.
#[inline(always)]
pub(crate) fn mark_any(places: &[Site], marks: &mut [bool], place: Option<Site>, near: usize)
    requires ascends { Ascends (map site_of places.now) }
    requires count { length marks.old ≡ length places.now }
    ensures { marks.new ≡ with_marks (map site_of places.now) marks.old (cons_option (option_map site_of place) []) }
{
    let Some(place) = place else {
        return;
    };
    mark(places, marks, place, near);
}

/// Marks the place with a number, if there is one.
#[inline(always)]
pub(crate) fn mark_number(_places: &[Site], marks: &mut [bool], number: Option<u32>)
    requires ascends { Ascends (map site_of _places.now) }
    requires count { length marks.old ≡ length _places.now }
    requires within { IfSome number (λ n. n < length _places.now) }
    ensures { marks.new ≡ with_marks (map site_of _places.now) marks.old (cons_option (option_map (place_in (map site_of _places.now)) number) []) }
{
    if let Some(number) = number {
        marks[number as usize] = true;
    }
}

#[inline]
fn push_if<T: Copy + Drop>(items: &mut Vec<T>, marked: bool, item: T) -> Result<(), AllocError>
    ensures { OnOk result (items.new.items ≡ items.old.items ++ (if marked then item ∷ [] else [])) }
{
    if marked {
        items.push(item)?;
        Ok(())
    } else {
        Ok(())
    }
}

/// The items that are marked.
#[tactic(auto, using(crate::proofs::Choosing::chosen_step))]
pub(crate) fn chosen<T: Copy + Drop>(
    alloc: Global,
    items: &[T],
    marks: &[bool],
) -> Result<Vec<T>, AllocError>
    requires { length marks.now ≡ length items.now }
    ensures { IfOk result (λ v. v.items ≡ the_chosen marks.now items.now) }
{
    let mut found = Vec::with_capacity(alloc, items.len())?;
    for (at, item) in items.iter().enumerate() {
        push_if(&mut found, marks[at], *item)?;
    }
    Ok(found)
}

/// The items that are marked, in their place.
pub(crate) fn marked<T: Copy + Drop>(items: Vec<T>, marks: &[bool]) -> Vec<T>
    requires { length marks.now ≡ length items.items }
    ensures { result.items ≡ the_chosen marks.now items.items }
{
    let mut items = items;
    let mut to = 0;
    for at in 0..marks.len() {
        if marks[at] {
            if to < at {
                items[to] = items[at];
            }
            to += 1;
        }
    }
    items.truncate(to);
    items
}
