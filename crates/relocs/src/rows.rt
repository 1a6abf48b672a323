//! The relocations of a section by their offsets.

ghost use Rattle.std.specs.Prelude.{◌≡◌, ◌<◌, ◌+◌, ◌++◌, ◌∷◌, [], length, if◌then◌else◌, IfOk, OnOk};
ghost use Rattle.std.specs.List.{filter};
ghost use Rattle.std.specs.List.Sorted.{IsNonDecreasingBy};
ghost use Rattle.relocs.specs.ByOffset.{calls, changes_something, is_at, offset_of, HasStarts, IsBetween, IsBound, IsEffective, IsIndexOf};
ghost use Rattle.relocs.specs.Sites.{gives_high as gives_the_high};

use crate::found::{gives_high, is_call};
use elf_objects::{Object, Relocation};
use std::alloc::{AllocError, Global};
use symbols::has_effect;

/// The relocations of a section that change something, by offset. Those at one offset are in table order.
pub(crate) fn row_of(
    alloc: Global,
    object: &Object<'_>,
    section: u32,
) -> Result<Vec<Relocation>, AllocError>
    requires { section < length object.now.sections }
    ensures { IfOk result (λ v. IsIndexOf object.now section v.items) }
{
    let mut row = effective(alloc, object, section)?;
    row.sort_by_key(|relocation| relocation.offset)?;
    Ok(row)
}

/// Those that change something, in table order.
fn effective(
    alloc: Global,
    object: &Object<'_>,
    section: u32,
) -> Result<Vec<Relocation>, AllocError>
    requires { section < length object.now.sections }
    ensures { IfOk result (λ v. IsEffective object.now section v.items) }
{
    let mut found = Vec::with_capacity(alloc, object.relocations(section) as usize)?;
    for at in 0..object.relocations(section) {
        let relocation = object.relocation(section, at);
        push_if(&mut found, has_effect(relocation.kind), relocation)?;
    }
    Ok(found)
}

fn push_if(
    found: &mut Vec<Relocation>,
    kept: bool,
    relocation: Relocation,
) -> Result<(), AllocError>
    ensures { OnOk result (found.new.items ≡ found.old.items ++ (if kept then relocation ∷ [] else [])) }
{
    if kept {
        found.push(relocation)?;
        Ok(())
    } else {
        Ok(())
    }
}

/// The CALLs of a row.
pub(crate) fn calls_of(alloc: Global, row: &[Relocation]) -> Result<Vec<Relocation>, AllocError>
    ensures { IfOk result (λ v. v.items ≡ filter calls row.now) }
{
    let mut found = Vec::new(alloc);
    for relocation in row {
        push_if(&mut found, is_call(*relocation), *relocation)?;
    }
    Ok(found)
}

/// Those of a row that give an `auipc` its value.
pub(crate) fn highs_of(alloc: Global, row: &[Relocation]) -> Result<Vec<Relocation>, AllocError>
    ensures { IfOk result (λ v. v.items ≡ filter gives_the_high row.now) }
{
    let mut found = Vec::new(alloc);
    for relocation in row {
        push_if(&mut found, gives_high(*relocation), *relocation)?;
    }
    Ok(found)
}

/// For each word, the number of relocations of a row before it. Without relocations there are no numbers.
pub(crate) fn starts_of(
    alloc: Global,
    row: &[Relocation],
    words: usize,
) -> Result<Vec<usize>, AllocError>
    requires { IsNonDecreasingBy offset_of row.now }
    ensures { IfOk result (λ v. HasStarts row.now v.items) }
{
    let mut starts = Vec::new(alloc);
    if row.is_empty() {
        return Ok(starts);
    }
    starts.reserve(words)?;
    let mut at = 0;
    for word in 0..words {
        at = first_from(row, at, 4 * word as u128);
        starts.push(at)?;
    }
    Ok(starts)
}

/// The number of those with an offset below a limit, which is at least `from`.
fn first_from(row: &[Relocation], from: usize, limit: u128) -> usize
    requires rises { IsNonDecreasingBy offset_of row.now }
    requires between { IsBetween row.now limit from (length row.now) }
    ensures { IsBound row.now limit result }
{
    let mut at = from;
    while at < row.len() {
        if limit <= u128::from(row[at].offset) {
            return at;
        }
        at += 1;
    }
    at
}

/// Those at an offset.
pub(crate) fn at_offset(row: &[Relocation], offset: u64) -> &[Relocation]
    requires { IsNonDecreasingBy offset_of row.now }
    ensures { result.now ≡ filter (is_at offset) row.now }
{
    at_offset_in(row, offset, 0, row.len())
}

/// Those at an offset, which are from one index to another.
#[inline(always)]
pub(crate) fn at_offset_in(row: &[Relocation], offset: u64, from: usize, to: usize) -> &[Relocation]
    requires rises { IsNonDecreasingBy offset_of row.now }
    requires first { IsBetween row.now offset from to }
    requires last { IsBetween row.now (offset + 1) from to }
    ensures { result.now ≡ filter (is_at offset) row.now }
{
    let first = bound(row, u128::from(offset), from, to);
    let last = bound(row, u128::from(offset) + 1, from, to);
    &row[first..last]
}

/// The number of those with an offset below a limit, which is from one number to another.
#[inline(always)]
fn bound(row: &[Relocation], limit: u128, from: usize, to: usize) -> usize
    requires rises { IsNonDecreasingBy offset_of row.now }
    requires between { IsBetween row.now limit from to }
    ensures { IsBound row.now limit result }
{
    let mut low = from;
    let mut high = to;
    while low < high {
        let middle = low + (high - low) / 2;
        if u128::from(row[middle].offset) < limit {
            low = middle + 1;
        } else {
            high = middle;
        }
    }
    low
}
