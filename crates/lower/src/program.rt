//! The blocks of a program.

ghost use Rattle.std.specs.Prelude.{◌≡◌, ◌-◌, ◌∷◌, ◌++◌, [], ◌<◌, ◌≤◌, drop, length, map, slice_range, IfOk, OnOk};
ghost use Rattle.runs.specs.Blocks.{block_of, blocks};
ghost use Rattle.lower.specs.Building.{AreBlockNumbers};
ghost use Rattle.lower.specs.Lowering.{lower_block as lowered_block, lowered_blocks};

use crate::block::lower_block;
use crate::transfers::needed_len;
use lift_blocks::Lifted;
use pvm_ops::Blocks;
use std::alloc::{AllocError, Global};

/// The blocks of the operations in code order, with the block of each entry and of each place of the address map.
pub fn lower(alloc: Global, lifted: &Lifted) -> Result<Blocks, AllocError>
    ensures { IfOk result (λ list. list ≡ lowered_blocks lifted.now) }
{
    let numbers = block_numbers(alloc, lifted)?;
    let mut list = Blocks::new(alloc);
    add_blocks(&mut list, lifted, &numbers)?;
    add_entries(&mut list, lifted, &numbers)?;
    add_needed(&mut list, lifted, &numbers)?;
    Ok(list)
}

/// The number of the block of each operation.
fn block_numbers(alloc: Global, lifted: &Lifted) -> Result<Vec<u32>, AllocError>
    ensures { IfOk result (λ numbers. AreBlockNumbers lifted.now numbers.items) }
{
    let mut numbers = Vec::new(alloc);
    let mut block = 0;
    for at in 0..lifted.len() {
        block = block_number(lifted, at, block);
        numbers.push(block)?;
    }
    Ok(numbers)
}

/// The number of the block of an operation, by that of the operation before it. The first block is 0.
fn block_number(lifted: &Lifted, at: u32, before: u32) -> u32
    requires within { at < length lifted.now.ops }
    requires before { before ≡ block_of lifted.now.begins (at - 1) }
    requires few { before ≤ at - 1 }
    ensures value { result ≡ block_of lifted.now.begins at }
    ensures few { result ≤ at }
{
    if at > 0 && lifted.begins(at) {
        before + 1
    } else {
        before
    }
}

/// Adds the blocks of the operations.
fn add_blocks(list: &mut Blocks, lifted: &Lifted, numbers: &[u32]) -> Result<(), AllocError>
    requires empty { list.old.blocks ≡ [] }
    requires numbers { AreBlockNumbers lifted.now numbers.now }
    ensures { OnOk result (list.new ≡ record list.old { blocks = map (lowered_block lifted.now.needed lifted.now.begins) (blocks lifted.now.begins lifted.now.ops) }) }
{
    let mut at = 0;
    while at < lifted.len() {
        let next = end_of_block(lifted, at);
        lower_block(list, lifted, numbers, at, next)?;
        at = next;
    }
    Ok(())
}

/// Where the block ends that begins with an operation: at the next that begins one, or at the end.
fn end_of_block(lifted: &Lifted, from: u32) -> u32
    requires { from < length lifted.now.ops }
    ensures after { from < result }
    ensures within { result ≤ length lifted.now.ops }
    ensures first { blocks (drop from lifted.now.begins) (drop from lifted.now.ops) ≡ slice_range lifted.now.ops from result ∷ blocks (drop result lifted.now.begins) (drop result lifted.now.ops) }
{
    let len = lifted.len();
    let mut to = from + 1;
    while to < len && !lifted.begins(to) {
        to += 1;
    }
    to
}

/// Adds the block of each entry.
fn add_entries(list: &mut Blocks, lifted: &Lifted, numbers: &[u32]) -> Result<(), AllocError>
    requires { AreBlockNumbers lifted.now numbers.now }
    ensures { OnOk result (list.new ≡ record list.old { entries = list.old.entries ++ map (block_of lifted.now.begins) lifted.now.entries }) }
{
    for at in 0..lifted.entries() {
        list.add_entry(numbers[lifted.entry(at) as usize])?;
    }
    Ok(())
}

/// Adds the block of each place of the address map.
fn add_needed(list: &mut Blocks, lifted: &Lifted, numbers: &[u32]) -> Result<(), AllocError>
    requires { AreBlockNumbers lifted.now numbers.now }
    ensures { OnOk result (list.new ≡ record list.old { needed = list.old.needed ++ map (block_of lifted.now.begins) lifted.now.needed }) }
{
    for at in 0..needed_len(lifted) {
        list.add_needed(numbers[lifted.needed(at) as usize])?;
    }
    Ok(())
}
