//! The numbers of places in code order, and operations with numbers as targets.

ghost use Rattle.std.specs.Prelude.{map, IfOk};
ghost use Rattle.lift_blocks.specs.Fits.{FitsInstructions};
ghost use Rattle.lift_blocks.specs.Kept.{site_of, operation_of};
ghost use Rattle.lift_blocks.specs.Listing.{AreListed, IsNumberOf, AreNumbersOf, IsNumbered};
ghost use Rattle.lift_blocks.specs.PlacedOps.{placed_operation_of};

use crate::placed_op::PlacedOp;
use crate::search::find;
use crate::site::Site;
use crate::source_op::SourceOp;
use std::alloc::{AllocError, Global};

/// Places in code order, by which operations have numbers.
#[derive(Clone, Copy, Drop)]
pub(crate) struct Numbers<'l> {
    pub places: &'l [Site],
}

impl Numbers<'_> {
    /// The number of a place, by one that it is likely near.
    ///
    /// # Errors
    /// Where the place isn't among them.
    fn number_of(&self, place: Site, near: usize) -> Result<u32, AllocError>
        requires { AreListed (map site_of self.now.places.now) }
        ensures { IfOk result (IsNumberOf (map site_of self.now.places.now) (site_of place)) }
    {
        match find(self.places, place, near) {
            Some(at) => Ok(at as u32),
            None => Err(AllocError),
        }
    }

    /// The numbers of places. Each is likely near the one before.
    pub(crate) fn numbers_of(&self, alloc: Global, these: &[Site]) -> Result<Vec<u32>, AllocError>
        requires { AreListed (map site_of self.now.places.now) }
        ensures { IfOk result (λ found. AreNumbersOf (map site_of self.now.places.now) (map site_of these.now) found.items) }
    {
        let mut found = Vec::with_capacity(alloc, these.len())?;
        let mut near = 0;
        for at in 0..these.len() {
            let number = self.number_of(these[at], near)?;
            found.push(number)?;
            near = number as usize;
        }
        Ok(found)
    }

    /// The operation with a number, with the number of its target.
    pub(crate) fn operation(&self, op: PlacedOp, at: usize) -> Result<SourceOp, AllocError>
        requires listed { AreListed (map site_of self.now.places.now) }
        requires fit { FitsInstructions (placed_operation_of op) }
        ensures { IfOk result (λ found. IsNumbered (map site_of self.now.places.now) (placed_operation_of op) (operation_of found)) }
    {
        Ok(match op {
            PlacedOp::Plain(op) => SourceOp::Plain(op),
            PlacedOp::Branch {
                cond,
                rs1,
                rs2,
                target,
            } => SourceOp::Branch {
                cond,
                rs1,
                rs2,
                target: self.target(target, at)?,
            },
            PlacedOp::Jal { rd, link, target } => SourceOp::Jal {
                rd,
                link,
                target: self.target(target, at)?,
            },
            PlacedOp::Jalr { rd, rs1, imm, link } => SourceOp::Jalr { rd, rs1, imm, link },
            PlacedOp::Pair {
                temp,
                rd,
                link,
                target,
            } => SourceOp::Pair {
                temp,
                rd,
                link,
                target: self.target(target, at)?,
            },
            PlacedOp::Host(number) => SourceOp::Host(number),
            PlacedOp::Sbrk => SourceOp::Sbrk,
        })
    }

    /// The number of the target of the operation with a number.
    fn target(&self, target: Site, at: usize) -> Result<u32, AllocError>
        requires { AreListed (map site_of self.now.places.now) }
        ensures { IfOk result (IsNumberOf (map site_of self.now.places.now) (site_of target)) }
    {
        self.number_of(target, likely(self.places, at, Some(target)))
    }
}

/// An index that the target of the operation at an index is likely near: in one section it is as many words away as the places
/// are, but for pairs.
fn likely(places: &[Site], at: usize, target: Option<Site>) -> usize {
    match (places.get(at), target) {
        (Some(Site::Code { offset, .. }), Some(Site::Code { offset: to, .. })) => {
            if *offset <= to {
                at.saturating_add(((to - *offset) / 4) as usize)
            } else {
                at.saturating_sub(((*offset - to) / 4) as usize)
            }
        }
        _ => at,
    }
}
