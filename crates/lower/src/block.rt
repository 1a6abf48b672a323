//! The instructions of one block, added to a list of blocks.

ghost use Rattle.std.specs.Prelude.{◌≡◌, ◌∷◌, ◌<◌, ◌≤◌, ◌^◌, length, slice_range, IfSome, IfOk, OnOk};
ghost use Rattle.std.specs.Option.{option_map};
ghost use Rattle.runs.specs.Blocks.{block_of};
ghost use Rattle.lift_blocks.specs.Fits.{FitsInstructions};
ghost use Rattle.lift_blocks.specs.Kept.{operation_of};
ghost use Rattle.lift_blocks.specs.Listed.{ends_block, target_of};
ghost use Rattle.lower.specs.Building.{AreBlockNumbers, targeted_at, extended, one_if, with_block};
ghost use Rattle.lower.specs.Constants.{runs};
ghost use Rattle.lower.specs.Lowering.{offset_target, lower_block, lower_op, part_instrs, run_instrs, tail_if};
ghost use Rattle.lower.specs.Plain.{listed};

use crate::constants::{begins_run, constant, run_on};
use crate::forms::Three;
use crate::transfers::{ends_block, fallthrough, instructions, single, target};
use lift_blocks::{Lifted, SourceOp};
use pvm_ops::{Blocks, Instr};
use std::alloc::AllocError;

/// Adds the block of the operations from one number up to another, where the next begins.
pub(crate) fn lower_block(
    blocks: &mut Blocks,
    lifted: &Lifted,
    numbers: &[u32],
    from: u32,
    to: u32,
) -> Result<(), AllocError>
    requires room { length blocks.old.blocks < 2 ^ 30 }
    requires some { from < to }
    requires within { to ≤ length lifted.now.ops }
    requires numbers { AreBlockNumbers lifted.now numbers.now }
    ensures { OnOk result (blocks.new ≡ with_block (lower_block lifted.now.needed lifted.now.begins (slice_range lifted.now.ops from to)) blocks.old) }
{
    blocks.begin()?;
    add_operations(blocks, lifted, from, to)?;
    let last = lifted.operation(to - 1);
    end_block(blocks, lifted, numbers, &last)?;
    Ok(())
}

/// Adds the instructions of these operations to the last block: a constant for each run, and those of each operation in
/// none.
fn add_operations(
    blocks: &mut Blocks,
    lifted: &Lifted,
    from: u32,
    to: u32,
) -> Result<(), AllocError>
    requires some { 0 < length blocks.old.blocks }
    requires order { from ≤ to }
    requires within { to ≤ length lifted.now.ops }
    ensures { OnOk result (blocks.new ≡ extended (part_instrs lifted.now.needed (slice_range lifted.now.ops from to)) blocks.old) }
{
    let mut at = from;
    while at < to {
        at = add_next(blocks, lifted, at, to)?;
    }
    Ok(())
}

/// Adds the instructions of the run that begins with an operation, or of the operation, and gives the number of the next.
fn add_next(blocks: &mut Blocks, lifted: &Lifted, from: u32, to: u32) -> Result<u32, AllocError>
    requires some { 0 < length blocks.old.blocks }
    requires next { from < to }
    requires within { to ≤ length lifted.now.ops }
    ensures after { IfOk result (λ at. from < at) }
    ensures within { IfOk result (λ at. at ≤ to) }
    ensures first { IfOk result (λ at. runs (slice_range lifted.now.ops from to) ≡ slice_range lifted.now.ops from at ∷ runs (slice_range lifted.now.ops at to)) }
    ensures added { IfOk result (λ at. blocks.new ≡ extended (run_instrs lifted.now.needed (slice_range lifted.now.ops from at)) blocks.old) }
{
    let op = lifted.operation(from);
    match begins_run(&op) {
        Some(register) => {
            let run = run_on(lifted, register, from, to);
            blocks.push(constant(register, run.value))?;
            Ok(run.end)
        },
        None => {
            add_operation(blocks, lifted, &op)?;
            Ok(from + 1)
        },
    }
}

/// Adds the instructions of an operation to the last block.
fn add_operation(blocks: &mut Blocks, lifted: &Lifted, op: &SourceOp) -> Result<(), AllocError>
    requires some { 0 < length blocks.old.blocks }
    requires fits { FitsInstructions (operation_of op.now) }
    ensures { OnOk result (blocks.new ≡ extended (lower_op lifted.now.needed (operation_of op.now)) blocks.old) }
{
    match single(op) {
        Some(instr) => blocks.push(instr),
        None => push_all(blocks, &instructions(lifted, op)),
    }
}

/// Ends the last block with its last operation: with a fallthrough, where that does not end it, and with its target.
fn end_block(
    blocks: &mut Blocks,
    lifted: &Lifted,
    numbers: &[u32],
    last: &SourceOp,
) -> Result<(), AllocError>
    requires some { 0 < length blocks.old.blocks }
    requires numbers { AreBlockNumbers lifted.now numbers.now }
    requires target { IfSome (target_of (operation_of last.now)) (λ t. t < length lifted.now.ops) }
    ensures { OnOk result (blocks.new ≡ targeted_at (option_map (block_of lifted.now.begins) (offset_target lifted.now.needed (operation_of last.now))) (extended (tail_if (ends_block (operation_of last.now))) blocks.old)) }
{
    push_if(blocks, !ends_block(last), fallthrough())?;
    aim(blocks, lifted, numbers, target(lifted, last));
    Ok(())
}

/// Gives the last block its target, the block of an operation, if there is one.
fn aim(blocks: &mut Blocks, lifted: &Lifted, numbers: &[u32], target: Option<u32>)
    requires some { 0 < length blocks.old.blocks }
    requires numbers { AreBlockNumbers lifted.now numbers.now }
    requires target { IfSome target (λ t. t < length lifted.now.ops) }
    ensures { blocks.new ≡ targeted_at (option_map (block_of lifted.now.begins) target) blocks.old }
{
    if let Some(target) = target {
        blocks.aim(numbers[target as usize]);
    }
}

/// Adds instructions to the last block.
fn push_all(blocks: &mut Blocks, three: &Three) -> Result<(), AllocError>
    requires { 0 < length blocks.old.blocks }
    ensures { OnOk result (blocks.new ≡ extended (listed three.now) blocks.old) }
{
    push_if(blocks, three.count > 0, three.first)?;
    push_if(blocks, three.count > 1, three.second)?;
    push_if(blocks, three.count > 2, three.third)?;
    Ok(())
}

/// Adds an instruction to the last block, where it is wanted.
fn push_if(blocks: &mut Blocks, wanted: bool, instr: Instr) -> Result<(), AllocError>
    requires { 0 < length blocks.old.blocks }
    ensures { OnOk result (blocks.new ≡ extended (one_if wanted instr) blocks.old) }
{
    if wanted {
        blocks.push(instr)?;
    }
    Ok(())
}
