//! The operations that are listed, with the numbers that their targets have among the listed places.

ghost use Rattle.std.specs.Prelude.{◌≡◌, ◌<◌, ◌≤◌, ◌^◌, List, length, map, IfOk};
ghost use Rattle.std.specs.List.{AllByRecursion};
ghost use Rattle.relocs.specs.Places.{CodePlace};
ghost use Rattle.lift_blocks.specs.Fits.{FitsInstructions};
ghost use Rattle.lift_blocks.specs.Kept.{operation_of};
ghost use Rattle.lift_blocks.specs.Listed.{place as place_in};
ghost use Rattle.lift_blocks.specs.Listing.{IsNumberOf, IsNumbered, AreNumbered, HasTargetIn, HaveTargetsIn, at_places, has_target as has_the_target};
ghost use Rattle.lift_blocks.specs.Marks.{chosen as the_chosen, counts_from};
ghost use Rattle.lift_blocks.specs.Operations.{rename};

use crate::source_op::SourceOp;
use std::alloc::{AllocError, Global};

/// The operations of the places that are listed, from those of all places.
///
/// # Errors
/// Where an allocation fails.
pub(crate) fn listed_operations(
    alloc: Global,
    ops: Vec<SourceOp>,
    listed: &[bool],
) -> Result<Vec<SourceOp>, AllocError>
    ghost places: { List CodePlace }
    requires few { length listed.now ≤ 2 ^ 28 }
    requires count { length listed.now ≡ length ops.items }
    requires places { length listed.now ≡ length places }
    requires fit { AllByRecursion FitsInstructions (map operation_of ops.items) }
    requires targets { HaveTargetsIn (length places) ops.items }
    ensures { IfOk result (λ found. AreNumbered (the_chosen listed.now places) (the_chosen listed.now (at_places places ops.items)) (map operation_of found.items)) }
{
    let counts = counts(alloc, listed)?;
    let renumbering = Renumbering {
        listed: &*listed,
        counts: &counts,
    };
    renumbering.operations(ops)
}

/// How many places are listed before each place.
fn counts(alloc: Global, listed: &[bool]) -> Result<Vec<u32>, AllocError>
    requires few { length listed.now ≤ 2 ^ 28 }
    ensures { IfOk result (λ counts. counts.items ≡ counts_from 0 listed.now) }
{
    let mut counts = Vec::with_capacity(alloc, listed.len())?;
    let mut count = 0;
    for at in 0..listed.len() {
        counts.push(count)?;
        if listed[at] {
            count += 1;
        }
    }
    Ok(counts)
}

/// Which places are listed, and how many of them are before each place, which is its number where it is listed.
#[derive(Clone, Copy, Drop)]
struct Renumbering<'l> {
    listed: &'l [bool],
    counts: &'l [u32],
}

impl Renumbering<'_> {
    /// The operations that are listed, with the numbers of their targets among the listed places.
    fn operations(&self, ops: Vec<SourceOp>) -> Result<Vec<SourceOp>, AllocError>
        ghost places: { List CodePlace }
        requires counts { self.now.counts.now ≡ counts_from 0 self.now.listed.now }
        requires count { length self.now.listed.now ≡ length ops.items }
        requires places { length self.now.listed.now ≡ length places }
        requires fit { AllByRecursion FitsInstructions (map operation_of ops.items) }
        requires targets { HaveTargetsIn (length places) ops.items }
        ensures { IfOk result (λ found. AreNumbered (the_chosen self.now.listed.now places) (the_chosen self.now.listed.now (at_places places ops.items)) (map operation_of found.items)) }
    {
        let mut ops = ops;
        let mut to = 0;
        for at in 0..self.listed.len() {
            if self.listed[at] {
                let op = ops[at];
                if to < at || has_target(op) {
                    ops[to] = self.operation(op)?;
                }
                to += 1;
            }
        }
        ops.truncate(to);
        Ok(ops)
    }

    /// An operation with the number of its target.
    fn operation(&self, op: SourceOp) -> Result<SourceOp, AllocError>
        ghost places: { List CodePlace }
        requires counts { self.now.counts.now ≡ counts_from 0 self.now.listed.now }
        requires places { length self.now.listed.now ≡ length places }
        requires fit { FitsInstructions (operation_of op) }
        requires target { HasTargetIn (length places) (operation_of op) }
        ensures { IfOk result (λ found. IsNumbered (the_chosen self.now.listed.now places) (rename (place_in places) (operation_of op)) (operation_of found)) }
    {
        Ok(match op {
            SourceOp::Branch {
                cond,
                rs1,
                rs2,
                target,
            } => SourceOp::Branch {
                cond,
                rs1,
                rs2,
                target: self.number(target)?,
            },
            SourceOp::Jal { rd, link, target } => SourceOp::Jal {
                rd,
                link,
                target: self.number(target)?,
            },
            SourceOp::Pair {
                temp,
                rd,
                link,
                target,
            } => SourceOp::Pair {
                temp,
                rd,
                link,
                target: self.number(target)?,
            },
            SourceOp::Plain(_) | SourceOp::Jalr { .. } | SourceOp::Host(_) | SourceOp::Sbrk => op,
        })
    }

    /// The number of a place among the listed ones.
    ///
    /// # Errors
    /// Where the place isn't listed.
    fn number(&self, place: u32) -> Result<u32, AllocError>
        ghost places: { List CodePlace }
        requires counts { self.now.counts.now ≡ counts_from 0 self.now.listed.now }
        requires places { length self.now.listed.now ≡ length places }
        requires place { place < length places }
        ensures { IfOk result (IsNumberOf (the_chosen self.now.listed.now places) (place_in places place)) }
    {
        if self.listed[place as usize] {
            Ok(self.counts[place as usize])
        } else {
            Err(AllocError)
        }
    }
}

/// Whether an operation names a target.
#[inline(always)]
fn has_target(op: SourceOp) -> bool
    ensures { result ≡ has_the_target (operation_of op) }
{
    matches!(
        op,
        SourceOp::Branch { .. } | SourceOp::Jal { .. } | SourceOp::Pair { .. }
    )
}
