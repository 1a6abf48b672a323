ghost use Rattle.std.specs.Prelude.{◌≡◌, ℕ, ◌+◌, ◌<◌, ◌≤◌, length, sum, slice_index, slice_get, true, false, Some, MatchResult};
ghost use Rattle.jump_table.specs.Laws.{IsAssemblable};
ghost use Rattle.jump_table.specs.Assembling.{most_bytes, ArePositions, Refuses};
ghost use Rattle.jump_table.specs.Shapes.{start, Wide, AreShapeStarts, TargetsWithin, AtMost4, NoLonger, IsLeastLen, IsWanted, size_with};

use crate::fault::AssembleFault;
use crate::settling::settle;
use crate::shapes::{Shape, shapes_of};
use pvm_ops::Blocks;
use std::alloc::{AllocError, Global};

/// How many bytes the offset of an entry's jump takes.
pub(crate) const OFFSET_LEN: u8 = 4;

/// How many bytes the jump of an entry takes.
const ENTRY_LEN: u32 = 5;

/// The most bytes of code.
pub(crate) const MOST_BYTES: u32 = 0x200_0000;

/// A pass has found few offsets where it has found fewer than one in so many blocks.
const FEW: usize = 64;

/// How many bytes the offset of each block takes, the position of each block, and the position after the last.
#[derive(Drop)]
pub(crate) struct Positions {
    pub(crate) lengths: Vec<u8>,
    pub(crate) starts: Vec<u32>,
    pub(crate) end: u32,
}

/// The positions of blocks whose offsets have the least lengths, or that their code is too large.
///
/// All lengths begin at 0. Each pass over all blocks gives the offsets that don't fit their lengths the least that they fit,
/// until all fit. After a pass that finds few of them, those that come next are found without a pass.
pub(crate) fn positions_of(alloc: Global, blocks: &Blocks) -> Result<Positions, AssembleFault>
    requires { IsAssemblable blocks.now }
    ensures { MatchResult result
        (λ found. ArePositions blocks.now found.lengths.items found.starts.items found.end)
        (Refuses blocks.now) }
{
    let entries = blocks.entries().len();
    if entries > (MOST_BYTES / ENTRY_LEN) as usize {
        return Err(AssembleFault::TooLarge);
    }
    let base = ENTRY_LEN * entries as u32;
    let shapes = shapes_of(alloc, blocks)?;
    let mut lengths = vec![in alloc; 0; shapes.len()]?;
    let mut starts = vec![in alloc; 0; shapes.len()]?;
    loop {
        let end = place(base, &shapes, &lengths, &mut starts)?;
        let grown = grow(&shapes, &starts, &mut lengths);
        if grown == 0 {
            return Ok(Positions {
                lengths,
                starts,
                end,
            });
        }
        if grown < shapes.len() / FEW {
            settle(alloc, base, &shapes, &mut lengths)?;
        }
    }
}

/// Places blocks one after another, and returns where the last ends.
pub(crate) fn place(
    base: u32,
    shapes: &[Shape],
    lengths: &[u8],
    starts: &mut Vec<u32>,
) -> Result<u32, AssembleFault>
    requires base { base ≤ most_bytes }
    requires lengths { length lengths.now ≡ length shapes.now }
    requires starts { length starts.old.items ≡ length shapes.now }
    ensures { MatchResult result
        (λ end. AreShapeStarts base shapes.now lengths.now starts.new.items × (end ≡ base + start shapes.now lengths.now (length shapes.now)) × (end ≤ most_bytes))
        (λ fault. (fault ≡ AssembleFault.TooLarge) × (most_bytes < base + start shapes.now lengths.now (length shapes.now))) }
{
    let mut end = base;
    for at in 0..shapes.len() {
        starts[at] = end;
        end = end_of(end, &shapes[at], lengths[at])?;
    }
    Ok(end)
}

/// Where a block ends that begins at a position.
fn end_of(start: u32, shape: &Shape, len: u8) -> Result<u32, AssembleFault>
    requires { start ≤ most_bytes }
    ensures { let end = start + size_with shape.now len in MatchResult result
        (λ found. (found ≡ end) × (found ≤ most_bytes))
        (λ fault. (fault ≡ AssembleFault.TooLarge) × (most_bytes < end)) }
{
    let offset = match shape.target {
        Some(_) => u64::from(len),
        None => 0,
    };
    let end = u64::from(start) + u64::from(shape.front) + u64::from(shape.last) + offset;
    if end > u64::from(MOST_BYTES) {
        return Err(AssembleFault::TooLarge);
    }
    Ok(end as u32)
}

/// Gives each offset that doesn't fit its length the least that it fits, by the starts of blocks before, and returns how
/// many there were.
fn grow(shapes: &[Shape], starts: &[u32], lengths: &mut Vec<u8>) -> usize
    requires starts { (base : ℕ) × AreShapeStarts base shapes.now lengths.old.items starts.now }
    requires small { (t : ℕ) → slice_index starts.now t ≤ most_bytes }
    requires fronts { (at : ℕ) (s : Shape) → slice_get shapes.now at ≡ Some s → slice_index starts.now at + s.front ≤ most_bytes }
    requires targets { TargetsWithin shapes.now }
    requires count { length lengths.old.items ≡ length shapes.now }
    requires most { AtMost4 lengths.old.items }
    ensures count { length lengths.new.items ≡ length shapes.now }
    ensures most { AtMost4 lengths.new.items }
    ensures least { NoLonger shapes.now lengths.old.items lengths.new.items }
    ensures fits { result ≡ 0 → (lengths.new.items ≡ lengths.old.items) × Wide shapes.now lengths.new.items }
    ensures grew { 0 < result → sum lengths.old.items < sum lengths.new.items }
{
    let mut grown = 0;
    for at in 0..shapes.len() {
        let len = wanted_len(&shapes[at], at, starts);
        if len > lengths[at] {
            lengths[at] = len;
            grown += 1;
        }
    }
    grown
}

/// The least length that the offset of a block fits, and 0 where it has none.
fn wanted_len(shape: &Shape, at: usize, starts: &[u32]) -> u8
    requires at { at < length starts.now }
    requires small { (t : ℕ) → slice_index starts.now t ≤ most_bytes }
    requires front { slice_index starts.now at + shape.now.front ≤ most_bytes }
    requires target { (t : ℕ) → shape.now.target ≡ Some t → t < length starts.now }
    ensures { IsWanted shape.now at starts.now result }
{
    match shape.target {
        Some(target) => least_len(starts[at] + shape.front, starts[target as usize]),
        None => 0,
    }
}

/// The least length that a distance fits.
pub(crate) fn least_len(from: u32, to: u32) -> u8
    requires from { from ≤ most_bytes }
    requires to { to ≤ most_bytes }
    ensures { IsLeastLen result from to }
{
    if from == to {
        0
    } else if from <= to + 0x80 && to < from + 0x80 {
        1
    } else if from <= to + 0x8000 && to < from + 0x8000 {
        2
    } else if from <= to + 0x80_0000 && to < from + 0x80_0000 {
        3
    } else {
        4
    }
}
