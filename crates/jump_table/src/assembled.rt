ghost use Rattle.std.specs.Prelude.{◌≡◌, ℕ, ◌<◌, ◌^◌, length, map, slice_get, slice_index, Some, MatchResult, IfOk};
ghost use Rattle.jump_table.specs.Assembly.{all_below, width_of};
ghost use Rattle.jump_table.specs.Laws.{IsAssemblable};
ghost use Rattle.jump_table.specs.Assembling.{Assembles, Refuses};

use crate::fault::AssembleFault;
use crate::positions::{Positions, positions_of};
use crate::writing::write;
use pvm_ops::{Blocks, Bytes8};
use std::alloc::{AllocError, Global};
use std::marker::Model;

/// Code with its mask and jump table, and the position of each block.
#[derive(Debug, Drop)]
pub struct Assembled {
    code: Bytes8,
    mask: Vec<u8>,
    table: Vec<u32>,
    width: u8,
    starts: Vec<u32>,
}

impl Model for Assembled {
    ghost use Rattle.jump_table.specs.Assembling.{AssembledCode};

    ghost Value = { AssembledCode };

    ghost view = { λ a. record { code = record { bytes = a.code; mask = a.mask.items }; table = a.table.items; width = a.width; starts = a.starts.items } };
}

impl Assembled {
    /// The bytes of the code: a jump for each entry, then the blocks.
    pub fn code(&self) -> &[u8]
        ensures { result.now ≡ self.now.code.bytes }
    {
        self.code.as_slice()
    }

    /// One bit per byte of the code, least significant bit first, set where an instruction starts.
    pub fn mask(&self) -> &[u8]
        ensures { result.now ≡ self.now.code.mask }
    {
        self.mask.as_slice()
    }

    /// The position of each place of the address map.
    pub fn table(&self) -> &[u32]
        ensures { result.now ≡ self.now.table }
    {
        self.table.as_slice()
    }

    /// How many bytes an element of the jump table takes, 1 to 4.
    pub fn width(&self) -> u8
        ensures { result ≡ self.now.width }
    {
        self.width
    }

    /// The position of a block.
    pub fn start(&self, block: u32) -> u32
        requires { block < length self.now.starts }
        ensures { result ≡ slice_index self.now.starts block }
    {
        self.starts[block as usize]
    }
}

/// The code of blocks: a jump for each entry, then the blocks in order, where each offset takes as few bytes as it can.
///
/// The offset of an entry's jump takes four bytes. There is no code where it would have more than 2^25 bytes.
pub fn assemble(alloc: Global, blocks: &Blocks) -> Result<Assembled, AssembleFault>
    requires { IsAssemblable blocks.now }
    ensures { MatchResult result (Assembles blocks.now) (Refuses blocks.now) }
{
    let positions = positions_of(alloc, blocks)?;
    let (code, mask) = write(alloc, blocks, &positions)?.into_parts();
    let table = table(alloc, blocks.needed(), &positions.starts)?;
    let width = width(&table);
    let Positions {
        lengths: _,
        starts,
        end: _,
    } = positions;
    Ok(Assembled {
        code,
        mask,
        table,
        width,
        starts,
    })
}

/// The jump table: the positions of blocks.
fn table(alloc: Global, blocks: &[u32], starts: &[u32]) -> Result<Vec<u32>, AllocError>
    requires { (place block : ℕ) → slice_get blocks.now place ≡ Some block → block < length starts.now }
    ensures { IfOk result (λ table. table.items ≡ map (λ block. slice_index starts.now block) blocks.now) }
{
    let mut table = Vec::with_capacity(alloc, blocks.len())?;
    for block in blocks {
        table.push(starts[*block as usize])?;
    }
    Ok(table)
}

/// The least of 1 to 4 bytes that hold each position.
fn width(table: &[u32]) -> u8
    ensures { result ≡ width_of table.now }
{
    if all_below(table, 1 << 8) {
        1
    } else if all_below(table, 1 << 16) {
        2
    } else if all_below(table, 1 << 24) {
        3
    } else {
        4
    }
}

/// Whether each position is below a bound.
fn all_below(table: &[u32], bound: u32) -> bool
    ensures { result ≡ all_below bound table.now }
{
    table.iter().all(|at| *at < bound)
}
