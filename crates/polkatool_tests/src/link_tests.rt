//! What each phase of a link makes of one small object: the meaning of its relocations, its operations, its blocks, its data
//! and its address map.

ghost use Rattle.std.specs.Prelude.{◌≡◌, IsSome};
ghost use Rattle.symbols.specs.Wanted.{Given};
ghost use Rattle.symbols.specs.Laws.{HasSection};
ghost use Rattle.symbols.specs.Parts.{kind_at};
ghost use Rattle.elf_objects.specs.declared.parts.SectionKind.TheVariants as kinds;
ghost use Rattle.relocs.specs.ByOffset.{HasTables};
ghost use Rattle.relocs.specs.Sites.{IsCodeSection};
ghost use Rattle.relocs.specs.Sources.{IsSourcesOf};

use crate::object_file::object_file;
use crate::phases::{Phases, code, lift_main};
use elf_objects::{Fault, Objects, SectionKind};
use lift_blocks::Lifted;
use link_core::{Bundle, first_fault_is_one, link, linked_is_one};
use lower::lower;
use pvm_ops::Blocks;
use relocs::{Images, Operand, RelocFault, Sources, Tables, images, meaning};
use rv_decode::{Reg, RvOp};
use std::alloc::Global;
use std::process::Abort;
use std::test::*;
use symbols::Wanted;

/// What each relocation of the code means.
fn operand_of(number: u32) -> Operand {
    match number {
        0 => Operand::Target(code(4)),
        1 => Operand::Target(code(8)),
        2 => Operand::Target(code(0)),
        3 => Operand::Target(code(16)),
        4 => Operand::Value(0x1_0018),
        5 => Operand::Value(0x18),
        6 => Operand::Value(0x1_0800),
        7 | 8 => Operand::Value(-0x800),
        9 => Operand::Value(0x1234_6000),
        10 => Operand::Value(-1),
        11 => Operand::Value(1),
        _ => Operand::Nothing,
    }
}

#[test]
fn each_kind_of_relocation_has_its_meaning(rt: HostRuntime) -> Result<(), Fail> {
    let file = object_file(rt.alloc())?;
    let phases = lift_main(&rt, rt.alloc(), &file)??;
    for at in 0..13u32 {
        phases.see_meaning(&rt, at);
    }
    Ok(())
}

impl Phases<'_> {
    fn see_meaning(&self, rt: &impl Abort, at: u32)
        ghost given: { Given }
        requires { given ≡ self.now }
    {
        assert_eq!(rt; self.meaning(rt, at), Ok(operand_of(at)), "at {at}");
    }

    /// What the relocation of the code with a number means.
    fn meaning(&self, rt: &impl Abort, at: u32) -> Result<Operand, Fault>
        ghost given: { Given }
        requires { given ≡ self.now }
    {
        assert_code(rt, &self.objects);
        assert!(rt; at < self.objects.object(0).relocations(1));
        meaning(
            &self.objects,
            &self.resolved,
            &self.placed,
            self.lifted.map(),
            0,
            1,
            at,
        )
    }

    /// The bytes of the data.
    fn images(&self, alloc: Global) -> Result<Images, RelocFault>
        ghost given: { Given }
        requires { given ≡ self.now }
    {
        images(
            alloc,
            &self.objects,
            &self.resolved,
            &self.placed,
            self.lifted.map(),
        )
    }

    /// Asserts what the sources return for some offsets of the code.
    fn see_sources(&self, rt: &impl Abort, tables: &Tables)
        ghost given: { Given }
        requires given { given ≡ self.now }
        requires tables { HasTables self.now.objects tables.now }
    {
        assert_code(rt, &self.objects);
        let sources = Sources::new(
            &self.objects,
            &self.resolved,
            &self.placed,
            self.lifted.map(),
            Some(tables),
        );
        let jump = RvOp::Jalr {
            rd: Reg::R(0),
            rs1: Reg::R(0),
            imm: 0,
        };
        assert_eq!(rt; sources.op_at(0, 1, 12), Some(jump));
        assert_eq!(rt; sources.word_fault(0, 1, 12), None);
        for (offset, pair, second, relocations) in [
            (8, true, false, 1),
            (12, false, true, 0),
            (24, false, false, 1),
            (56, false, false, 0),
        ] {
            assert_eq!(rt; sources.is_pair_at(0, 1, offset), pair, "at {offset}");
            assert_eq!(rt; sources.is_second(0, 1, offset), second, "at {offset}");
            let found = sources.relocations(0, 1, offset);
            assert_eq!(rt; found.len(), relocations, "at {offset}");
            assert_eq!(rt; sources.refusal_code(0, 1, offset), None, "at {offset}");
        }
    }

    /// What the relocation at offset 24 gives.
    fn operand(&self, rt: &impl Abort, tables: &Tables) -> Option<Operand>
        ghost given: { Given }
        requires given { given ≡ self.now }
        requires tables { HasTables self.now.objects tables.now }
    {
        assert_code(rt, &self.objects);
        let sources = Sources::new(
            &self.objects,
            &self.resolved,
            &self.placed,
            self.lifted.map(),
            Some(tables),
        );
        operand_at(sources, 24)
    }
}

/// What the first relocation at an offset of the code gives, where it has no fault.
fn operand_at(sources: Sources<'_, '_, '_>, offset: u64) -> Option<Operand>
    ghost given: { Given }
    requires sources { IsSourcesOf given sources }
    requires section { IsCodeSection given 0 1 }
    requires tables { IsSome sources.tables }
{
    let relocation = sources.relocations(0, 1, offset).first()?;
    match sources.refusal_code(0, 1, relocation.offset) {
        None => Some(sources.operand(0, 1, *relocation)),
        Some(_) => None,
    }
}

/// Asserts that section 1 of the first object is code.
fn assert_code(rt: &impl Abort, objects: &Objects<'_>)
    ensures section { HasSection objects.now 0 1 }
    ensures code { kind_at objects.now 0 1 ≡ kinds.Code }
{
    assert!(rt; 0 < objects.len());
    assert!(rt; 1 < objects.object(0).sections());
    assert!(rt; objects.object(0).section(1).kind == SectionKind::Code);
}

#[test]
fn sources_say_what_is_at_an_offset(rt: HostRuntime) -> Result<(), Fail> {
    let file = object_file(rt.alloc())?;
    let phases = lift_main(&rt, rt.alloc(), &file)??;
    let tables = Tables::new(rt.alloc(), &phases.objects)?;
    phases.see_sources(&rt, &tables);
    let operand = phases.operand(&rt, &tables);
    assert_eq!(rt; operand, Some(Operand::Value(0x1_0018)));
    Ok(())
}

#[test]
fn operations_have_places(rt: HostRuntime) -> Result<(), Fail> {
    let file = object_file(rt.alloc())?;
    let lifted = lift_main(&rt, rt.alloc(), &file)??.lifted;
    assert_eq!(rt; lifted.len(), 13);
    for (at, offset) in [(0, 0), (3, 16), (4, 24), (12, 56)] {
        see_place(&rt, &lifted, at, offset);
    }
    Ok(())
}

fn see_place(rt: &impl Abort, lifted: &Lifted, at: u32, offset: u64) {
    assert!(rt; at < lifted.len());
    assert_eq!(rt; lifted.place(at), code(offset), "at {at}");
}

#[test]
fn operations_have_blocks(rt: HostRuntime) -> Result<(), Fail> {
    let file = object_file(rt.alloc())?;
    let lifted = lift_main(&rt, rt.alloc(), &file)??.lifted;
    let blocks = lower(rt.alloc(), &lifted)?;
    see_blocks(&rt, &blocks);
    Ok(())
}

fn see_blocks(rt: &impl Abort, blocks: &Blocks) {
    assert_eq!(rt; blocks.entries(), [0].as_slice());
    assert_eq!(rt; blocks.needed(), [2, 3, 4].as_slice());
    assert_eq!(rt; blocks.len(), 5);
    for (at, instructions, target) in [
        (0, 1, Some(1)),
        (1, 1, Some(2)),
        (2, 1, Some(0)),
        (3, 1, Some(3)),
        (4, 7, None),
    ] {
        see_block(rt, blocks, at, instructions, target);
    }
}

fn see_block(rt: &impl Abort, blocks: &Blocks, at: u32, instructions: usize, target: Option<u32>) {
    assert!(rt; at < blocks.len());
    assert_eq!(rt; blocks.block(at).len(), instructions, "at {at}");
    assert_eq!(rt; blocks.target(at), target, "at {at}");
}

/// The read-only data after the link.
// A function and no constant, so that what uses it sees an array and not its bytes.
fn read_only() -> [u8; 32] {
    [
        0x04, 0, 0, 0, 0, 0, 0, 0, // the number of the place
        0x00, 0x60, 0x34, 0x12, // the number 0x12345fff and 1
        0xf8, 0, 0, 0, // 0x100 and 0x10008, less 0x10010
        0xf8, 0xff, 0xff, 0xff, // how far 0x10008 is from 0x10010
        0x08, // 0xff and 0x10009
        0x01, // 0 less 0x12345fff
        0xff, 0x5f, // 0x12345fff
        0x08, 0, 0x01, 0, 0, 0, 0, 0, // the slot
    ]
}

#[test]
fn data_hold_values_and_slots(rt: HostRuntime) -> Result<(), Fail> {
    let file = object_file(rt.alloc())?;
    let phases = lift_main(&rt, rt.alloc(), &file)??;
    let images = phases.images(rt.alloc())?;
    see_images(&rt, &images);
    Ok(())
}

fn see_images(rt: &impl Abort, images: &Images) {
    assert_eq!(rt; images.read_only(), read_only().as_slice());
    assert!(rt; images.writable().is_empty());
}

#[tactic(auto, unfolding(link_core::specs::Parts::total))]
#[test]
fn a_linked_program_has_its_address_map(rt: HostRuntime) -> Result<(), Fail> {
    let file = object_file(rt.alloc())?;
    assert!(rt; file.len() < 65536);
    let mut bundle = Bundle::new(rt.alloc());
    bundle.add(&file)?;
    let mut wanted = Wanted::new(rt.alloc(), 4096);
    wanted.entry(b"main")?;
    let linked = link(rt.alloc(), &bundle, &wanted)?;
    let map = linked.map();
    assert_eq!(rt; map.len(), 3);
    for (at, offset, number) in [(0, 8, 2), (1, 16, 4), (2, 24, 6)] {
        assert!(rt; at < map.len());
        assert_eq!(rt; map.place(at), code(offset), "at {at}");
        assert_eq!(rt; map.number(code(offset)), Some(number), "at {at}");
    }
    assert_eq!(rt; map.number(code(0)), None);
    Ok(())
}

#[tactic(auto, unfolding(link_core::specs::Parts::total))]
#[test]
fn keeps_files_apart_in_a_bundle(rt: HostRuntime) -> Result<(), Fail> {
    let mut bundle = Bundle::new(rt.alloc());
    assert_eq!(rt; bundle.len(), 0);
    bundle.add(b"one")?;
    bundle.add(b"")?;
    bundle.add(b"three")?;
    assert_eq!(rt; bundle.len(), 3);
    assert_eq!(rt; bundle.part(0), b"one".as_slice());
    assert!(rt; bundle.part(1).is_empty());
    assert_eq!(rt; bundle.part(2), b"three".as_slice());
    Ok(())
}

/// The laws speak of all lists of files and of all containers, of which a link at hand shows nothing more: the test shows
/// that they can be called.
#[test]
fn laws_of_one_answer_are_there() {
    first_fault_is_one();
    linked_is_one();
}
