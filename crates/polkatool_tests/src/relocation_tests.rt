//! Types of relocations, pairs of words, and relocations by their offset.

use crate::object_file::object_file;
use elf_objects::{Object, Objects};
use relocs::{Kind, Tables, holds_auipc, images_have_lengths, joins, kind_of};
use rv_decode::{Reg, RvOp};
use std::test::*;

#[test]
fn types_have_kinds(rt: HostRuntime) {
    for (number, kind) in [
        (16, Kind::Branch),
        (19, Kind::Call),
        (20, Kind::GotHigh),
        (24, Kind::PcLow),
        (35, Kind::Add(4)),
        (40, Kind::Subtract(8)),
        (57, Kind::Distance),
        (51, Kind::Other),
    ] {
        assert_eq!(rt; kind_of(number), kind, "{number}");
    }
}

#[test]
fn an_auipc_and_a_jalr_join(rt: HostRuntime) {
    let auipc = RvOp::Auipc {
        rd: Reg::R(0),
        value: 0,
    };
    let jalr = RvOp::Jalr {
        rd: Reg::R(0),
        rs1: Reg::R(0),
        imm: 0,
    };
    assert!(rt; joins(Some(auipc), Some(jalr)));
    assert!(rt; !joins(Some(jalr), Some(auipc)));
    assert!(rt; holds_auipc(Some(auipc)));
    assert!(rt; !holds_auipc(Some(jalr)));
}

/// An ADD32 and a SUB32 of the data.
#[test]
fn relocations_are_found_by_offset(rt: HostRuntime) -> Result<(), Fail> {
    let bytes = object_file(rt.alloc())?;
    assert!(rt; bytes.len() < 65536);
    let object = Object::read(rt.alloc(), &bytes, 0)?;
    let mut objects = Objects::new(rt.alloc());
    objects.push(object)?;
    assert!(rt; 3 < objects.object(0).sections());
    let tables = Tables::new(rt.alloc(), &objects)?;
    let found = tables.at(&objects, 0, 3, 12);
    assert_eq!(rt; found.len(), 2);
    assert_eq!(rt;
        (found[0].kind, found[0].symbol, found[0].addend),
        (35, 3, 0)
    );
    assert_eq!(rt;
        (found[1].kind, found[1].symbol, found[1].addend),
        (39, 3, 8)
    );
    assert!(rt; tables.at(&objects, 0, 3, 4).is_empty());
    Ok(())
}

/// Nothing of this law is seen where a program runs: the test shows that it can be called.
#[test]
fn a_law_of_images_is_there() {
    images_have_lengths();
}
