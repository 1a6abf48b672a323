ghost use Rattle.std.specs.Prelude.{◌≡◌, length, IfOk};
ghost use Rattle.jump_table.specs.Laws.{IsAssemblable};

use super::*;
use pvm_ops::{Blocks, Instr};
use std::alloc::{AllocError, Global};
use std::test::Fail;

const TRAP: Instr = Instr {
    op: 0,
    a: 0,
    b: 0,
    d: 0,
    x: 0,
    y: 0,
};

/// A loop that counts down to 0, where the entry is, and a jump through a register, which is in the address map.
fn count_down(alloc: Global) -> Result<Blocks, AllocError>
    ensures assemblable { IfOk result IsAssemblable }
    ensures count { IfOk result (λ blocks. length blocks.blocks ≡ 2) }
{
    let mut blocks = Blocks::new(alloc);
    blocks.begin()?;
    blocks.push(Instr {
        op: 149,
        a: 8,
        b: 8,
        x: u64::MAX,
        ..TRAP
    })?;
    blocks.push(Instr {
        op: 82,
        a: 8,
        ..TRAP
    })?;
    blocks.aim(0);
    blocks.begin()?;
    blocks.push(Instr { op: 50, ..TRAP })?;
    blocks.add_entry(0)?;
    blocks.add_needed(1)?;
    Ok(blocks)
}

#[test]
fn assembles_a_loop(rt: HostRuntime) -> Result<(), Fail> {
    let blocks = count_down(rt.alloc())?;
    let Ok(assembled) = assemble(rt.alloc(), &blocks) else {
        panic!(rt; "no code");
    };
    let code = [
        0x28, 0x05, 0x00, 0x00, 0x00, 0x95, 0x88, 0xff, 0x52, 0x08, 0xfd, 0x32, 0x00,
    ];
    assert_eq!(rt; assembled.code(), code.as_slice());
    assert_eq!(rt; assembled.mask(), [0x21, 0x09].as_slice());
    assert_eq!(rt; assembled.table(), [11].as_slice());
    assert_eq!(rt; assembled.width(), 1);
    assert_eq!(rt; assembled.start(0), 5);
    assert_eq!(rt; assembled.start(1), 11);
    Ok(())
}

#[test]
fn assembles_no_blocks(rt: HostRuntime) {
    let blocks = Blocks::new(rt.alloc());
    let Ok(assembled) = assemble(rt.alloc(), &blocks) else {
        panic!(rt; "no code");
    };
    assert!(rt; assembled.code().is_empty());
    assert!(rt; assembled.mask().is_empty());
    assert!(rt; assembled.table().is_empty());
    assert_eq!(rt; assembled.width(), 1);
}
