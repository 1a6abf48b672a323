ghost use Rattle.std.specs.Prelude.{◌≡◌, ℕ, List, ◌+◌, ◌*◌, ◌/◌, ◌^◌, ◌<◌, ◌≤◌, length, slice_index, slice_get, Some, MatchOption};
ghost use Rattle.jump_table.specs.Assembling.{most_bytes};
ghost use Rattle.jump_table.specs.Shapes.{TargetsWithin, AtMost4};
ghost use Rattle.jump_table.specs.Settling.{place_of, ArePlaced, Grown, IsSpan};

use crate::positions::{MOST_BYTES, least_len, place};
use crate::shapes::Shape;
use crate::slack::{BlockRange, Slack};
use std::alloc::{AllocError, Global};

/// How many blocks have a shift in common.
const SHIFTED: usize = 2048;

/// How often a group of blocks is looked at, at most, for each block.
const LOOKS: usize = 16;

/// Where blocks begin while offsets get longer: each at its start, moved by the shift of the blocks around it; and where
/// the last ends.
#[derive(Drop)]
pub(crate) struct Places {
    pub(crate) starts: Vec<u32>,
    pub(crate) shifts: Vec<u32>,
    pub(crate) end: u32,
}

/// From where to where an offset leads.
#[derive(Clone, Copy)]
pub(crate) struct Span {
    pub(crate) from: u32,
    pub(crate) to: u32,
}

/// Gives offsets that don't fit their lengths the least that they fit, one after the other, so that each is found soon
/// after those that make it too far.
pub(crate) fn settle(
    alloc: Global,
    base: u32,
    shapes: &[Shape],
    lengths: &mut Vec<u8>,
) -> Result<(), AllocError>
    requires base { base ≤ most_bytes }
    requires count { length lengths.old.items ≡ length shapes.now }
    requires most { AtMost4 lengths.old.items }
    requires targets { TargetsWithin shapes.now }
    ensures { Grown shapes.now lengths.old.items lengths.new.items }
{
    let mut starts = vec![in alloc; 0; shapes.len()]?;
    let Ok(end) = place(base, shapes, lengths, &mut starts) else {
        return Ok(());
    };
    let mut slacks = slacks_of(alloc, &starts, end)?;
    let shifts = vec![in alloc; 0; shapes.len().div_ceil(SHIFTED)]?;
    let mut places = Places {
        starts,
        shifts,
        end,
    };
    for _ in 0..shapes.len().saturating_mul(LOOKS) {
        let Some(range) = next(&mut slacks) else {
            return Ok(());
        };
        look(shapes, range, &mut places, lengths, &mut slacks)?;
    }
    Ok(())
}

/// The slack of the offsets of one, two and three bytes.
fn slacks_of(alloc: Global, starts: &[u32], end: u32) -> Result<Vec<Slack>, AllocError> {
    let mut slacks = Vec::with_capacity(alloc, 3)?;
    for len in 1..4 {
        let slack = Slack::new(alloc, len, starts, end)?;
        slacks.push(slack).map_err(AllocError::from)?;
    }
    Ok(slacks)
}

/// The next blocks to look at, those for the shortest offsets first.
fn next(slacks: &mut Vec<Slack>) -> Option<BlockRange> {
    for slack in slacks.iter_mut() {
        if let Some(range) = slack.next() {
            return Some(range);
        }
    }
    None
}

/// Looks at the offsets of a length in a range of blocks.
fn look(
    shapes: &[Shape],
    range: BlockRange,
    places: &mut Places,
    lengths: &mut Vec<u8>,
    slacks: &mut Vec<Slack>,
) -> Result<(), AllocError>
    requires { ArePlaced shapes.now lengths.old.items places.old }
    ensures placed { ArePlaced shapes.now lengths.new.items places.new }
    ensures grown { Grown shapes.now lengths.old.items lengths.new.items }
{
    for block in range.first..range.end.min(shapes.len()) {
        if lengths[block] == range.len {
            visit(shapes, block, places, lengths, slacks)?;
        }
    }
    Ok(())
}

/// Lengthens the offset of a block if it doesn't fit, and counts it.
fn visit(
    shapes: &[Shape],
    block: usize,
    places: &mut Places,
    lengths: &mut Vec<u8>,
    slacks: &mut Vec<Slack>,
) -> Result<(), AllocError>
    requires block { block < length shapes.now }
    requires placed { ArePlaced shapes.now lengths.old.items places.old }
    ensures placed { ArePlaced shapes.now lengths.new.items places.new }
    ensures grown { Grown shapes.now lengths.old.items lengths.new.items }
{
    let by = lengthen(shapes, block, places, lengths);
    if by > 0 {
        use_up(slacks, block, u32::from(by))?;
    }
    if let Some(span) = places.span(shapes, block) {
        count(slacks, block, lengths[block], span);
    }
    Ok(())
}

/// A block got longer: there is less slack.
fn use_up(slacks: &mut Vec<Slack>, block: usize, by: u32) -> Result<(), AllocError> {
    for slack in slacks.iter_mut() {
        slack.use_up(block, by)?;
    }
    Ok(())
}

/// Counts the offset of a block among those of its length.
fn count(slacks: &mut Vec<Slack>, block: usize, len: u8, span: Span) {
    for slack in slacks.iter_mut() {
        if slack.len == len {
            slack.count(block, span.from, span.to);
        }
    }
}

/// Gives the offset of a block the least length that it fits, if it has a shorter one, and moves the blocks after it.
/// Returns by how many bytes.
fn lengthen(shapes: &[Shape], block: usize, places: &mut Places, lengths: &mut Vec<u8>) -> u8
    requires block { block < length shapes.now }
    requires placed { ArePlaced shapes.now lengths.old.items places.old }
    ensures placed { ArePlaced shapes.now lengths.new.items places.new }
    ensures grown { Grown shapes.now lengths.old.items lengths.new.items }
{
    let Some(span) = places.span(shapes, block) else {
        return 0;
    };
    let len = least_len(span.from, span.to);
    let before = lengths[block];
    if len <= before || MOST_BYTES - places.end < 4 {
        return 0;
    }
    lengths[block] = len;
    let by = len - before;
    places.insert(block, u32::from(by));
    by
}

impl Places {
    /// From where to where the offset of a block leads, if it has one.
    fn span(&self, shapes: &[Shape], block: usize) -> Option<Span>
        requires block { block < length shapes.now }
        requires placed { (lens : List ℕ) × ArePlaced shapes.now lens self.now }
        ensures { MatchOption result (Unit {0}) (λ span. IsSpan shapes.now self.now block span) }
    {
        let shape = shapes[block];
        let Some(target) = shape.target else {
            return None;
        };
        Some(Span {
            from: self.position(block) + shape.front,
            to: self.position(target as usize),
        })
    }

    /// Where a block begins.
    fn position(&self, block: usize) -> u32
        requires start { block < length self.now.starts.items }
        requires shift { block / 2048 < length self.now.shifts.items }
        requires small { place_of self.now block ≤ most_bytes }
        ensures { result ≡ place_of self.now block }
    {
        self.starts[block] + self.shifts[block / SHIFTED]
    }

    /// Makes a block longer: moves the blocks after it.
    fn insert(&mut self, block: usize, by: u32)
        requires block { block < length self.old.starts.items }
        requires shifts { length self.old.starts.items ≤ 2048 * length self.old.shifts.items }
        requires few { 2048 * length self.old.shifts.items < length self.old.starts.items + 2048 }
        requires small { (t : ℕ) → t < length self.old.starts.items → place_of self.old t ≤ most_bytes }
        requires end { self.old.end ≤ most_bytes }
        requires by { by ≤ 4 }
        ensures starts_count { length self.new.starts.items ≡ length self.old.starts.items }
        ensures shifts_count { length self.new.shifts.items ≡ length self.old.shifts.items }
        ensures before { (t : ℕ) → t < length self.old.starts.items → t ≤ block → place_of self.new t ≡ place_of self.old t }
        ensures after { (t : ℕ) → t < length self.old.starts.items → block < t → place_of self.new t ≡ place_of self.old t + by }
        ensures end { self.new.end ≡ self.old.end + by }
    {
        let shift = block / SHIFTED + 1;
        let next = self.starts.len().min(shift * SHIFTED);
        add(&mut self.starts, block + 1, next, by);
        let count = self.shifts.len();
        add(&mut self.shifts, shift, count, by);
        self.end += by;
    }
}

/// Adds to some numbers of a list.
fn add(numbers: &mut Vec<u32>, from: usize, to: usize, by: u32)
    requires from { from ≤ to }
    requires to { to ≤ length numbers.old.items }
    requires small { (k : ℕ) → from ≤ k → k < to → slice_index numbers.old.items k + by < 2 ^ 32 }
    ensures count { length numbers.new.items ≡ length numbers.old.items }
    ensures before { (k : ℕ) → k < from → slice_index numbers.new.items k ≡ slice_index numbers.old.items k }
    ensures among { (k : ℕ) → from ≤ k → k < to → slice_index numbers.new.items k ≡ slice_index numbers.old.items k + by }
    ensures after { (k : ℕ) → to ≤ k → slice_index numbers.new.items k ≡ slice_index numbers.old.items k }
{
    for at in from..to {
        numbers[at] += by;
    }
}
