//! The parts of an ELF object by their bytes, for the tests of what reads them.
#![tactic(auto)]

use std::alloc::AllocError;

/// A section header: name, type, flags, offset, size, link, info, alignment, entry size.
pub type Header = (u32, u32, u64, u64, u64, u32, u32, u64, u64);

/// The header of a file with `count` section headers at an offset, one of which has the names of sections.
pub fn put_file_header(
    sections_at: u64,
    count: u16,
    names: u16,
    out: &mut Vec<u8>,
) -> Result<(), AllocError> {
    out.extend_from_slice(b"\x7fELF\x02\x01\x01\0\0\0\0\0\0\0\0\0")?;
    put_16(1, out)?;
    put_16(243, out)?;
    put_32(1, out)?;
    put_64(0, out)?;
    put_64(0, out)?;
    put_64(sections_at, out)?;
    put_32(8, out)?;
    for number in [64u16, 0, 0, 64, count, names] {
        put_16(number, out)?;
    }
    Ok(())
}

/// The header of a section.
pub fn put_header(header: Header, out: &mut Vec<u8>) -> Result<(), AllocError> {
    let (name, kind, flags, offset, size, link, info, align, entry_size) = header;
    put_32(name, out)?;
    put_32(kind, out)?;
    put_64(flags, out)?;
    put_64(0, out)?;
    put_64(offset, out)?;
    put_64(size, out)?;
    put_32(link, out)?;
    put_32(info, out)?;
    put_64(align, out)?;
    put_64(entry_size, out)
}

/// A relocation with its addend.
pub fn put_relocation(
    offset: u64,
    kind: u32,
    symbol: u32,
    addend: i64,
    out: &mut Vec<u8>,
) -> Result<(), AllocError> {
    put_64(offset, out)?;
    put_32(kind, out)?;
    put_32(symbol, out)?;
    put_64(addend.cast_unsigned(), out)
}

/// A symbol of no size.
pub fn put_symbol(
    name: u32,
    info: u8,
    index: u16,
    value: u64,
    out: &mut Vec<u8>,
) -> Result<(), AllocError> {
    put_32(name, out)?;
    out.extend_from_slice(&[info, 0])?;
    put_16(index, out)?;
    put_64(value, out)?;
    put_64(0, out)
}

fn put_16(n: u16, out: &mut Vec<u8>) -> Result<(), AllocError> {
    out.extend_from_slice(&n.to_le_bytes())
}

fn put_32(n: u32, out: &mut Vec<u8>) -> Result<(), AllocError> {
    out.extend_from_slice(&n.to_le_bytes())
}

fn put_64(n: u64, out: &mut Vec<u8>) -> Result<(), AllocError> {
    out.extend_from_slice(&n.to_le_bytes())
}
