//! From objects without a fault in their symbols and their layout to a program.

ghost use Rattle.std.specs.Prelude.{◌≡◌, ℕ, ◌<◌, length, map, slice_get, slice_index, Some, MatchResult, IfOk};
ghost use Rattle.blob_codec.specs.Grammar.{IsContainer, container_bytes};
ghost use Rattle.relocs.specs.Images.{AreImages};
ghost use Rattle.lift_blocks.specs.Listed.{Lifts};
ghost use Rattle.lower.specs.Lowering.{lowered_blocks};
ghost use Rattle.jump_table.specs.Laws.{IsAssemblable};
ghost use Rattle.jump_table.specs.Assembling.{Assembles, IsTooLarge as BlocksAreTooLarge};
ghost use Rattle.layout.specs.Faults.{whole};
ghost use Rattle.link_core.specs.Faults.{content_faults, HasNone, IsFirst, Refuses};
ghost use Rattle.link_core.specs.Linked.{HoldsLinked, container_with};
ghost use Rattle.link_core.specs.declared.linker.TheConstants.{CODE_BYTES_TOO_LARGE};

use crate::input::Input;
use crate::link_fault::LinkFault;
use crate::linked_agrees;
use crate::linker::{CODE_BYTES_TOO_LARGE, Linked};
use crate::map_text::map_text;
use blob_codec::{Parts, write_container, write_program};
use elf_objects::Fault;
use jump_table::{AssembleFault, Assembled, assemble};
use lift_blocks::{Lifted, lifted_is_one};
use lower::{blocks_are_implemented, lower};
use pvm_ops::{Blocks, Bytes8};
use relocs::{Images, images_have_lengths};
use std::alloc::{AllocError, Global};

/// Links what has no fault in its symbols and its layout: the operations in code order, the data after relocation, the
/// blocks of instructions, the code, and the container of all.
pub(crate) fn link_input(alloc: Global, input: &Input<'_>) -> Result<Linked, LinkFault>
    ensures { MatchResult result
        (λ linked. HasNone (content_faults input.now) input.now × HoldsLinked input.now linked)
        (Refuses (IsFirst (content_faults input.now) input.now)) }
{
    blocks_are_implemented();
    lifted_is_one();
    let lifted = input.lift(alloc)?;
    let images = input.images(alloc, lifted.map())?;
    let blocks = lower(alloc, &lifted)?;
    let program = assemble_blocks(alloc, &blocks)?;
    Ok(finish(alloc, input, lifted, &blocks, &images, &program)?)
}

/// The code of blocks.
///
/// # Errors
/// `Bad` with code 32 where it has more than 2^25 bytes, and `Memory`.
fn assemble_blocks(alloc: Global, blocks: &Blocks) -> Result<Assembled, LinkFault>
    requires { IsAssemblable blocks.now }
    ensures { MatchResult result (Assembles blocks.now)
        (Refuses (λ fault. BlocksAreTooLarge blocks.now × (fault ≡ whole CODE_BYTES_TOO_LARGE))) }
{
    match assemble(alloc, blocks) {
        Ok(program) => Ok(program),
        Err(AssembleFault::TooLarge) => Err(LinkFault::Bad(Fault {
            code: CODE_BYTES_TOO_LARGE,
            object: 0,
            section: 0,
            offset: 0,
        })),
        Err(AssembleFault::Memory) => Err(LinkFault::Memory),
    }
}

/// The container and the maps of a program.
fn finish(
    alloc: Global,
    input: &Input<'_>,
    lifted: Lifted,
    blocks: &Blocks,
    images: &Images,
    program: &Assembled,
) -> Result<Linked, AllocError>
    requires lifted { Lifts input.now lifted }
    requires blocks { blocks.now ≡ lowered_blocks lifted }
    requires assemblable { IsAssemblable blocks.now }
    requires images { AreImages input.now images.now }
    requires program { Assembles blocks.now program.now }
    ensures { IfOk result (HoldsLinked input.now) }
{
    linked_agrees();
    images_have_lengths();
    input.fits();
    let map = lifted.map();
    let container = write(alloc, input, images, program)?;
    let entries = entry_positions(alloc, blocks, program)?;
    let text = map_text(alloc, input, map, &entries, program.table())?;
    Ok(Linked {
        container,
        map: lifted.into_map(),
        text,
    })
}

/// The container of data and code.
fn write(
    alloc: Global,
    input: &Input<'_>,
    images: &Images,
    program: &Assembled,
) -> Result<Bytes8, AllocError>
    requires { IsContainer (container_with input.now images.now program.now) }
    ensures { IfOk result (λ bytes. bytes ≡ container_bytes (container_with input.now images.now program.now)) }
{
    let program = write_program(
        alloc,
        program.table(),
        program.width(),
        program.code(),
        program.mask(),
    )?;
    let parts = Parts {
        read_only: images.read_only(),
        writable: images.writable(),
        zero_pages: input.zero_pages(),
        stack: input.wanted().stack(),
        program: program.as_slice(),
    };
    write_container(alloc, &parts)
}

/// The position of the block of each entry.
fn entry_positions(
    alloc: Global,
    blocks: &Blocks,
    program: &Assembled,
) -> Result<Vec<u32>, AllocError>
    requires { (entry block : ℕ) → slice_get blocks.now.entries entry ≡ Some block → block < length program.now.starts }
    ensures { IfOk result (λ positions. positions.items ≡ map (λ block. slice_index program.now.starts block) blocks.now.entries) }
{
    let entries = blocks.entries();
    let mut positions = Vec::with_capacity(alloc, entries.len())?;
    for at in 0..entries.len() {
        positions.push(program.start(entries[at]))?;
    }
    Ok(positions)
}
