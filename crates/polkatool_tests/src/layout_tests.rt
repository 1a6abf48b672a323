//! Where the data of objects are placed, and the limits of their parts.

ghost use Rattle.symbols.specs.Wanted.{given_of};
ghost use Rattle.layout.specs.Placed.{IsPlaced};

use crate::phases::place;
use elf_objects::{Object, Objects};
use layout::{
    CODE_TOO_LARGE, LayoutFault, Placed, READ_ONLY_TOO_LARGE, WRITABLE_TOO_LARGE, ZERO_TOO_LARGE,
    aligned_is_least, zero_pages_are_least,
};
use object_parts::{put_file_header, put_header};
use std::alloc::{AllocError, Global};
use std::process::Abort;
use std::test::*;
use symbols::{Wanted, resolve};

/// A section: its type and flags, its size and its alignment.
type Row = ((u32, u64), u64, u64);

const CODE: (u32, u64) = (1, 6);

const READ_ONLY: (u32, u64) = (1, 2);

const WRITABLE: (u32, u64) = (1, 3);

const ZERO: (u32, u64) = (8, 3);

const STRING_TABLE: (u32, u64) = (3, 0);

const NO_TYPE: (u32, u64) = (0, 0);

/// The bytes of content in a file, which all its sections share.
const CONTENT: u16 = 4096;

/// The object with these sections from 1 on, which have no names.
fn file_of(alloc: Global, rows: &[Row]) -> Result<Vec<u8>, AllocError> {
    let mut out = Vec::new(alloc);
    let strings = (rows.len() % 100) as u16 + 1;
    put_file_header(u64::from(CONTENT) + 64, strings + 1, strings, &mut out)?;
    for _ in 0..CONTENT {
        out.push(0)?;
    }
    put_section((NO_TYPE, 0, 0), &mut out)?;
    for row in rows {
        put_section(*row, &mut out)?;
    }
    put_section((STRING_TABLE, 1, 1), &mut out)?;
    Ok(out)
}

fn put_section(row: Row, out: &mut Vec<u8>) -> Result<(), AllocError> {
    let ((kind, flags), size, align) = row;
    put_header((0, kind, flags, 64, size, 0, 0, align, 0), out)
}

/// Reads an object and adds it to the list the given number of times.
fn add_objects<'a>(
    rt: &impl Abort,
    alloc: Global,
    objects: &mut Objects<'a>,
    file: &'a [u8],
    times: u32,
) -> Result<(), Fail> {
    assert!(rt; file.len() < 65536);
    for _ in 0..times {
        let number = objects.len();
        assert!(rt; number < 1024);
        objects.push(Object::read(alloc, file, number)?)?;
    }
    Ok(())
}

/// The address of a section.
fn address_of(
    rt: &impl Abort,
    objects: &Objects<'_>,
    wanted: &Wanted,
    placed: &Placed,
    object: u32,
    section: u32,
) -> Option<u32>
    requires { IsPlaced (given_of objects.now wanted.now) placed.now }
{
    assert!(rt; object < objects.len());
    assert!(rt; section < objects.object(object).sections());
    placed.address(object, section)
}

fn first_object(alloc: Global) -> Result<Vec<u8>, AllocError> {
    file_of(
        alloc,
        &[
            (CODE, 8, 4),
            (READ_ONLY, 5, 1),
            (READ_ONLY, 0, 16),
            (READ_ONLY, 3, 4),
            (WRITABLE, 7, 8),
            (ZERO, 9, 32),
        ],
    )
}

fn second_object(alloc: Global) -> Result<Vec<u8>, AllocError> {
    file_of(
        alloc,
        &[
            (ZERO, 1, 4096),
            (READ_ONLY, 6, 8),
            (WRITABLE, 4, 0),
            (ZERO, 0, 64),
        ],
    )
}

#[test]
fn sections_have_their_addresses(rt: HostRuntime) -> Result<(), Fail> {
    let first = first_object(rt.alloc())?;
    let second = second_object(rt.alloc())?;
    let mut objects = Objects::new(rt.alloc());
    add_objects(&rt, rt.alloc(), &mut objects, &first, 1)?;
    add_objects(&rt, rt.alloc(), &mut objects, &second, 1)?;
    let wanted = Wanted::new(rt.alloc(), 4096);
    let resolved = resolve(rt.alloc(), &objects, &wanted)?;
    let placed = place(rt.alloc(), &objects, &wanted, &resolved)?;
    see_addresses(&rt, &objects, &wanted, &placed);
    assert_eq!(rt; placed.read_only_len(), 0x1e);
    assert_eq!(rt; placed.writable_len(), 11);
    assert_eq!(rt; placed.zero_pages(), 1);
    Ok(())
}

fn see_addresses(rt: &impl Abort, objects: &Objects<'_>, wanted: &Wanted, placed: &Placed)
    requires { IsPlaced (given_of objects.now wanted.now) placed.now }
{
    for (object, section, address) in [
        (0, 0, None),
        (0, 1, None),
        (0, 2, Some(0x10000)),
        (0, 3, Some(0x10010)),
        (0, 4, Some(0x10010)),
        (0, 5, Some(0x30000)),
        (0, 6, Some(0x30020)),
        (0, 7, None),
        (1, 1, Some(0x31000)),
        (1, 2, Some(0x10018)),
        (1, 3, Some(0x30007)),
        (1, 4, Some(0x31040)),
        (1, 5, None),
    ] {
        let seen = address_of(rt, objects, wanted, placed, object, section);
        assert_eq!(rt; seen, address, "{object}, {section}");
    }
}

/// The code of the fault of the given number of objects with these sections, and 0 where there is none.
fn fault_of(rt: &impl Abort, alloc: Global, rows: &[Row], times: u32) -> Result<u8, Fail> {
    let file = file_of(alloc, rows)?;
    let mut objects = Objects::new(alloc);
    add_objects(rt, alloc, &mut objects, &file, times)?;
    let wanted = Wanted::new(alloc, 4096);
    let resolved = resolve(alloc, &objects, &wanted)?;
    match place(alloc, &objects, &wanted, &resolved) {
        Ok(_) => Ok(0),
        Err(LayoutFault::Bad(fault)) => {
            assert_eq!(rt; (fault.object, fault.section, fault.offset), (0, 0, 0));
            Ok(fault.code)
        }
        Err(LayoutFault::Memory) => Err(Fail::from(AllocError)),
    }
}

#[test]
fn parts_have_limits(rt: HostRuntime) -> Result<(), Fail> {
    for (kind, times, code) in [
        (READ_ONLY, 255, 0),
        (READ_ONLY, 256, READ_ONLY_TOO_LARGE),
        (WRITABLE, 255, 0),
        (WRITABLE, 256, WRITABLE_TOO_LARGE),
        (CODE, 256, 0),
        (CODE, 257, CODE_TOO_LARGE),
    ] {
        let rows = [(kind, 4096, 1); 16];
        assert_eq!(rt; fault_of(&rt, rt.alloc(), &rows, times)?, code, "{times}");
    }
    let mut both = [(READ_ONLY, 4096, 1); 32];
    for row in &mut both[..16] {
        *row = (WRITABLE, 4096, 1);
    }
    assert_eq!(rt; fault_of(&rt, rt.alloc(), &both, 256)?, READ_ONLY_TOO_LARGE);
    Ok(())
}

#[test]
fn zeros_have_a_limit(rt: HostRuntime) -> Result<(), Fail> {
    for (size, align, times, code) in [
        (0x0fff_f000, 1, 1, 0),
        (0x0fff_f001, 1, 1, ZERO_TOO_LARGE),
        (u64::MAX, 4096, 3, ZERO_TOO_LARGE),
    ] {
        let rows = [(ZERO, size, align)];
        assert_eq!(rt; fault_of(&rt, rt.alloc(), &rows, times)?, code, "{size:x}");
    }
    Ok(())
}

/// Nothing of these laws is seen where a program runs: the test shows that they can be called.
#[test]
fn laws_are_there() {
    aligned_is_least();
    zero_pages_are_least();
}
