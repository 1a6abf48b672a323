ghost use Rattle.std.specs.Prelude.{◌≡◌, ◌<◌, ◌≤◌, ◌^◌, ◌++◌, ◌∷◌, [], length, slice_range, OnOk, OnErr};
ghost use Rattle.pvm_ops.specs.BlockList.{block_at, change_last, empty_block, with_instr, with_target};
ghost use Rattle.pvm_ops.specs.BlockParts.{start_of as the_start_of};

use crate::instr::Instr;
use std::alloc::{AllocError, Global};
use std::marker::Model;

/// One block: where its instructions end among those of all blocks, and the block to which the last of them leads.
#[derive(Clone, Copy, Debug)]
struct BasicBlock {
    end: usize,
    target: Option<u32>,
}

/// A program before it has positions: blocks of instructions in the order of the code, which name one another by their
/// numbers, counted from 0.
///
/// A block may have a target, the block to which the offset of its last instruction leads; that instruction's own
/// offset is 0. The list also has the block of each entry and the block of each place of the address map. If an
/// allocation fails, a call leaves the list as it was.
#[derive(Debug, Drop)]
pub struct Blocks {
    /// The instructions of all blocks, one block after another.
    instrs: Vec<Instr>,
    blocks: Vec<BasicBlock>,
    entries: Vec<u32>,
    needed: Vec<u32>,
}

impl Model for Blocks {
    ghost use Rattle.std.specs.Prelude.{◌≡◌, ◌≤◌, ◌^◌, true, length, vec_len};
    ghost use Rattle.pvm_ops.specs.BlockList.{BlockList};
    ghost use Rattle.pvm_ops.specs.BlockParts.{blocks_from, are_cut};

    ghost Value = { BlockList };

    ghost view = { λ l. record { blocks = blocks_from 0 l.instrs.items l.blocks.items; entries = l.entries.items; needed = l.needed.items } };

    ghost invariant = { λ l. (vec_len l.blocks ≤ 2 ^ 30) × (are_cut 0 (length l.instrs.items) l.blocks.items ≡ true) };
}

impl Blocks {
    /// No blocks, entries or places of the address map.
    pub fn new(alloc: Global) -> Blocks
        ensures { result ≡ record { blocks = []; entries = []; needed = [] } }
    {
        Blocks {
            instrs: Vec::new(alloc),
            blocks: Vec::new(alloc),
            entries: Vec::new(alloc),
            needed: Vec::new(alloc),
        }
    }

    /// Adds an empty block without a target.
    pub fn begin(&mut self) -> Result<(), AllocError>
        requires { length self.old.blocks < 2 ^ 30 }
        ensures ok { OnOk result (self.new ≡ record self.old { blocks = self.old.blocks ++ empty_block ∷ [] }) }
        ensures err { OnErr result (self.new ≡ self.old) }
    {
        self.blocks.push(BasicBlock {
            end: self.instrs.len(),
            target: None,
        })?;
        Ok(())
    }

    /// Adds an instruction to the last block.
    pub fn push(&mut self, instr: Instr) -> Result<(), AllocError>
        requires { 0 < length self.old.blocks }
        ensures ok { OnOk result (self.new ≡ record self.old { blocks = change_last (with_instr instr) self.old.blocks }) }
        ensures err { OnErr result (self.new ≡ self.old) }
    {
        let last = self.blocks.len() - 1;
        self.instrs.push(instr)?;
        self.blocks[last].end = self.instrs.len();
        Ok(())
    }

    /// Makes a block the target of the last block.
    pub fn aim(&mut self, target: u32)
        requires { 0 < length self.old.blocks }
        ensures { self.new ≡ record self.old { blocks = change_last (with_target target) self.old.blocks } }
    {
        let last = self.blocks.len() - 1;
        self.blocks[last].target = Some(target);
    }

    /// Adds the block of the next entry.
    pub fn add_entry(&mut self, block: u32) -> Result<(), AllocError>
        ensures ok { OnOk result (self.new ≡ record self.old { entries = self.old.entries ++ block ∷ [] }) }
        ensures err { OnErr result (self.new ≡ self.old) }
    {
        self.entries.push(block)?;
        Ok(())
    }

    /// Adds the block of the next place of the address map.
    pub fn add_needed(&mut self, block: u32) -> Result<(), AllocError>
        ensures ok { OnOk result (self.new ≡ record self.old { needed = self.old.needed ++ block ∷ [] }) }
        ensures err { OnErr result (self.new ≡ self.old) }
    {
        self.needed.push(block)?;
        Ok(())
    }

    /// How many blocks there are.
    pub fn len(&self) -> u32
        ensures value { result ≡ length self.now.blocks }
        ensures bound { result ≤ 2 ^ 30 }
    {
        self.blocks.len() as u32
    }

    /// The instructions of a block.
    pub fn block(&self, at: u32) -> &[Instr]
        requires { at < length self.now.blocks }
        ensures { result.now ≡ (block_at self.now at).instrs }
    {
        let start = start_of(&self.blocks, at as usize);
        let end = self.blocks[at as usize].end;
        part(&self.instrs, start, end)
    }

    /// The target of a block, which is none exactly where it was not aimed.
    pub fn target(&self, at: u32) -> Option<u32>
        requires { at < length self.now.blocks }
        ensures { result ≡ (block_at self.now at).target }
    {
        self.blocks[at as usize].target
    }

    /// The block of each entry.
    pub fn entries(&self) -> &[u32]
        ensures { result.now ≡ self.now.entries }
    {
        self.entries.as_slice()
    }

    /// The block of each place of the address map.
    pub fn needed(&self) -> &[u32]
        ensures { result.now ≡ self.now.needed }
    {
        self.needed.as_slice()
    }
}

/// Where the instructions of a block begin among those of all blocks.
fn start_of(blocks: &[BasicBlock], at: usize) -> usize
    requires { at < length blocks.now }
    ensures { result ≡ the_start_of 0 blocks.now at }
{
    if at > 0 { blocks[at - 1].end } else { 0 }
}

/// The instructions from one index to another.
fn part(instrs: &[Instr], start: usize, end: usize) -> &[Instr]
    requires order { start ≤ end }
    requires within { end ≤ length instrs.now }
    ensures { result.now ≡ slice_range instrs.now start end }
{
    &instrs[start..end]
}
