ghost use Rattle.std.specs.Prelude.{◌≡◌, ℕ, ◌<◌, ◌≤◌, length, Some, slice_get, MatchResult};
ghost use Rattle.pvm_ops.specs.declared.instr.Instr.{Instr};
ghost use Rattle.runs.specs.Joined.{joined};
ghost use Rattle.pvm_ops.specs.BlockList.{block_at};
ghost use Rattle.jump_table.specs.Laws.{IsPlaceable, IsAssemblable};
ghost use Rattle.jump_table.specs.Assembly.{offset_len};
ghost use Rattle.jump_table.specs.Assembling.{most_bytes, Refuses, spelled};
ghost use Rattle.jump_table.specs.Shapes.{offset_bytes, shape_of, shapes_of};

use crate::fault::AssembleFault;
use crate::positions::{MOST_BYTES, OFFSET_LEN};
use pvm_ops::{Blocks, Instr, length};
use std::alloc::{AllocError, Global};

/// A block by how many bytes it takes without those of its offset, and the block to which it leads.
#[derive(Clone, Copy)]
pub(crate) struct Shape {
    /// The bytes in front of its last instruction.
    pub(crate) front: u32,
    /// The bytes of its last instruction, but for its offset.
    pub(crate) last: u32,
    pub(crate) target: Option<u32>,
}

/// The shapes of blocks, or that their code is too large.
pub(crate) fn shapes_of(alloc: Global, blocks: &Blocks) -> Result<Vec<Shape>, AssembleFault>
    requires { IsAssemblable blocks.now }
    ensures { MatchResult result
        (λ shapes. shapes.items ≡ shapes_of blocks.now)
        (Refuses blocks.now) }
{
    let mut shapes = Vec::with_capacity(alloc, blocks.len() as usize)?;
    for block in 0..blocks.len() {
        let shape = shape_of(blocks, block)?;
        shapes.push(shape).map_err(AllocError::from)?;
    }
    Ok(shapes)
}

/// The shape of a block.
fn shape_of(blocks: &Blocks, block: u32) -> Result<Shape, AssembleFault>
    requires assemblable { IsAssemblable blocks.now }
    requires block { block < length blocks.now.blocks }
    ensures { MatchResult result
        (λ shape. shape ≡ shape_of (block_at blocks.now block))
        (Refuses blocks.now) }
{
    let instrs = blocks.block(block);
    let target = blocks.target(block);
    let count = instrs.len() - 1;
    let front = size_of(&instrs[..count])?;
    let last = length(&instrs[count], OFFSET_LEN) - offset_bytes(target);
    Ok(Shape {
        front,
        last,
        target,
    })
}

/// How many of the bytes of a block are those of an offset of four bytes.
fn offset_bytes(target: Option<u32>) -> u32
    ensures { result ≡ offset_bytes target offset_len }
{
    match target {
        Some(_) => u32::from(OFFSET_LEN),
        None => 0,
    }
}

/// How many bytes instructions take, or that the code with them is too large.
fn size_of(instrs: &[Instr]) -> Result<u32, AssembleFault>
    requires { (number : ℕ) (i : Instr) → slice_get instrs.now number ≡ Some i → IsPlaceable i }
    ensures { let size = length (joined (spelled offset_len instrs.now)) in MatchResult result
        (λ found. (found ≡ size) × (found ≤ most_bytes))
        (λ fault. (fault ≡ AssembleFault.TooLarge) × (most_bytes < size)) }
{
    let mut size = 0;
    for instr in instrs {
        size += length(instr, OFFSET_LEN);
        if size > MOST_BYTES {
            return Err(AssembleFault::TooLarge);
        }
    }
    Ok(size)
}
