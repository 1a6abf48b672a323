ghost use Rattle.std.specs.Prelude.{◌≡◌, ℕ, ◌+◌, ◌*◌, ◌%◌, ◌^◌, ◌<◌, ◌≤◌, length, slice_index, IsTrue, IfSome, IfOk, OnOk};
ghost use Rattle.pvm_ops.specs.Opcodes.{is_known, form_of};
ghost use Rattle.pvm_ops.specs.Offsets.{with_offset};
ghost use Rattle.pvm_ops.specs.BlockList.{block_at};
ghost use Rattle.jump_table.specs.Assembly.{entry_len, jump, members, members_of, first_of, words, start_of, offset, entry_jumps, placed, code_of};
ghost use Rattle.jump_table.specs.Laws.{IsAssemblable};
ghost use Rattle.jump_table.specs.Assembling.{ArePositions, HasRoom, instr_at, with_words};

use crate::positions::{OFFSET_LEN, Positions};
use crate::writer::Writer;
use pvm_ops::{Blocks, Form, Instr, form};
use std::alloc::{AllocError, Global};

/// The opcode of an entry's jump.
const JUMP: u8 = 40;

/// The code of blocks at their positions, with its mask.
pub(crate) fn write(
    alloc: Global,
    blocks: &Blocks,
    positions: &Positions,
) -> Result<Writer, AllocError>
    requires blocks { IsAssemblable blocks.now }
    requires positions { ArePositions blocks.now positions.now.lengths.items positions.now.starts.items positions.now.end }
    ensures { IfOk result (λ writer. writer ≡ code_of positions.now.lengths.items blocks.now) }
{
    let mut writer = Writer::new(alloc, positions.end)?;
    write_entries(blocks, positions, &mut writer)?;
    write_blocks(blocks, positions, &mut writer)?;
    Ok(writer)
}

/// Writes a jump for each entry.
fn write_entries(
    blocks: &Blocks,
    positions: &Positions,
    writer: &mut Writer,
) -> Result<(), AllocError>
    requires blocks { IsAssemblable blocks.now }
    requires positions { ArePositions blocks.now positions.now.lengths.items positions.now.starts.items positions.now.end }
    requires room { HasRoom positions.now.lengths.items blocks.now writer.old }
    requires empty { length writer.old.bytes ≡ 0 }
    ensures { OnOk result (writer.new ≡ with_words writer.old (words (entry_jumps positions.now.lengths.items blocks.now 0 blocks.now.entries))) }
{
    for block in blocks.entries() {
        let offset = offset(writer.len(), positions.starts[*block as usize]);
        writer.place(&jump(offset), OFFSET_LEN)?;
    }
    Ok(())
}

/// Writes the blocks after the jumps of the entries.
fn write_blocks(
    blocks: &Blocks,
    positions: &Positions,
    writer: &mut Writer,
) -> Result<(), AllocError>
    requires blocks { IsAssemblable blocks.now }
    requires positions { ArePositions blocks.now positions.now.lengths.items positions.now.starts.items positions.now.end }
    requires room { HasRoom positions.now.lengths.items blocks.now writer.old }
    requires after { length writer.old.bytes ≡ entry_len * length blocks.now.entries }
    ensures { OnOk result (writer.new ≡ with_words writer.old (words (placed positions.now.lengths.items blocks.now 0 (members_of positions.now.lengths.items blocks.now)))) }
{
    for block in 0..blocks.len() {
        write_block(blocks, block, positions, writer)?;
    }
    Ok(())
}

/// Writes a block at its position.
fn write_block(
    blocks: &Blocks,
    block: u32,
    positions: &Positions,
    writer: &mut Writer,
) -> Result<(), AllocError>
    requires blocks { IsAssemblable blocks.now }
    requires block { block < length blocks.now.blocks }
    requires positions { ArePositions blocks.now positions.now.lengths.items positions.now.starts.items positions.now.end }
    requires room { HasRoom positions.now.lengths.items blocks.now writer.old }
    requires start { length writer.old.bytes ≡ start_of positions.now.lengths.items blocks.now block }
    ensures { OnOk result (writer.new ≡ with_words writer.old (words (placed positions.now.lengths.items blocks.now (first_of blocks.now block) (members (slice_index positions.now.lengths.items block) (block_at blocks.now block))))) }
{
    let target = blocks.target(block);
    let len = positions.lengths[block as usize];
    for instr in blocks.block(block) {
        let instr = instr_at(writer.len(), instr, target, &positions.starts);
        writer.place(&instr, len)?;
    }
    Ok(())
}

/// An instruction of a block at a position, with the offset to the block's target where it has an offset.
fn instr_at(at: usize, instr: &Instr, target: Option<u32>, starts: &[u32]) -> Instr
    requires known { IsTrue (is_known instr.now.op) }
    requires target { IfSome target (λ block. block < length starts.now) }
    ensures { result ≡ instr_at at instr.now target starts.now }
{
    match target {
        Some(block) => with_offset(*instr, offset(at, starts[block as usize])),
        None => *instr,
    }
}

/// The jump of an entry.
fn jump(offset: u64) -> Instr
    ensures { result ≡ jump offset }
{
    Instr {
        op: JUMP,
        a: 0,
        b: 0,
        d: 0,
        x: offset,
        y: 0,
    }
}

/// The offset from a position to another, modulo 2^64.
fn offset(from: usize, to: u32) -> u64
    ensures { result ≡ offset from to }
{
    u64::from(to).wrapping_sub(from as u64)
}

/// An instruction with another offset, where its form has one.
fn with_offset(instr: Instr, offset: u64) -> Instr
    requires { IsTrue (is_known instr.op) }
    ensures { result ≡ with_offset (form_of instr.op) offset instr }
{
    match form(instr.op) {
        Form::O | Form::RRO => Instr { x: offset, ..instr },
        Form::RXO => Instr { y: offset, ..instr },
        _ => instr,
    }
}
