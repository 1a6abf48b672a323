//! The object of a text, byte by byte.

ghost use Rattle.std.specs.Prelude.{◌≡◌, ◌≤◌, ◌<◌, ◌^◌, ◌++◌, length, IfOk, OnOk};
ghost use Rattle.numbers.specs.Bytes.{le_16, le_32, le_64};
ghost use Rattle.generated.specs.Objects.{file_header, file_kind, header_sizes, generated, section_header, section_headers, symbol_table, text, Section as TheSection};

use crate::word::{next, word_of};
use outside::Bytes;
use std::alloc::{AllocError, Global};

/// The return to the caller.
const RETURN: u32 = 0x8067;

/// The names of symbols and of sections, and a zero byte.
const NAMES: &[u8; 40] = b"\0main\0\0.text\0.symtab\0.strtab\0.shstrtab\0\0";

/// The header of a section without an address.
#[derive(Clone, Copy)]
struct Section {
    name: u32,
    kind: u32,
    flags: u64,
    at: u64,
    size: u64,
    link: u32,
    info: u32,
    align: u64,
    entry_size: u64,
}

/// The bytes of an object with the given number of random words and a return, at most 1,000,000, from a seed. Its entry is
/// `main`.
///
/// # Errors
/// An allocation fails.
pub fn generated(alloc: Global, seed: u64, count: u32) -> Result<Bytes, AllocError>
    requires { count ≤ 1000000 }
    ensures bytes { IfOk result (λ bytes. bytes ≡ generated seed count) }
    ensures len { IfOk result (λ bytes. length bytes ≤ 2 ^ 24) }
{
    let bytes = object(alloc, seed, count)?;
    Ok(bytes)
}

/// The bytes of the object.
#[tactic(auto, unfolding(crate::specs::Objects::generated))]
fn object(alloc: Global, seed: u64, count: u32) -> Result<Bytes, AllocError>
    requires { count ≤ 1000000 }
    ensures { IfOk result (λ bytes. bytes ≡ generated seed count) }
{
    let size = 4 * u64::from(count) + 4;
    let mut out = Bytes::new(alloc);
    put_file_header(152 + size, &mut out)?;
    put_text(seed, count, &mut out)?;
    put_symbols(size, &mut out)?;
    out.append(NAMES)?;
    put_sections(size, &mut out)?;
    Ok(out)
}

/// Appends the header of a file whose section headers are at an offset.
#[tactic(auto, unfolding(crate::specs::Objects::file_header))]
fn put_file_header(sections_at: u64, out: &mut Bytes) -> Result<(), AllocError>
    ensures { OnOk result (out.new ≡ out.old ++ file_header sections_at) }
{
    put_file_kind(out)?;
    put_64(0, out)?;
    put_64(0, out)?;
    put_64(sections_at, out)?;
    put_32(8, out)?;
    put_header_sizes(out)
}

/// Appends what a file is.
#[tactic(auto, unfolding(crate::specs::Objects::file_kind))]
fn put_file_kind(out: &mut Bytes) -> Result<(), AllocError>
    ensures { OnOk result (out.new ≡ out.old ++ file_kind) }
{
    put_32(0x464c_457f, out)?;
    put_32(0x1_0102, out)?;
    put_64(0, out)?;
    put_16(1, out)?;
    put_16(243, out)?;
    put_32(1, out)
}

/// Appends the sizes of headers.
#[tactic(auto, unfolding(crate::specs::Objects::header_sizes))]
fn put_header_sizes(out: &mut Bytes) -> Result<(), AllocError>
    ensures { OnOk result (out.new ≡ out.old ++ header_sizes) }
{
    put_16(64, out)?;
    put_16(0, out)?;
    put_16(0, out)?;
    put_16(64, out)?;
    put_16(5, out)?;
    put_16(4, out)
}

/// Appends random words and a return.
fn put_text(seed: u64, count: u32, out: &mut Bytes) -> Result<(), AllocError>
    ensures { OnOk result (out.new ≡ out.old ++ text seed count) }
{
    let mut x = seed;
    for at in 0..count {
        x = next(x);
        put_32(word_of(x), out)?;
    }
    put_32(RETURN, out)?;
    Ok(())
}

/// Appends the symbol table: the null symbol, and `main` with all bytes of the text.
#[tactic(auto, unfolding(crate::specs::Objects::symbol_table))]
fn put_symbols(size: u64, out: &mut Bytes) -> Result<(), AllocError>
    ensures { OnOk result (out.new ≡ out.old ++ symbol_table size) }
{
    put_64(0, out)?;
    put_64(0, out)?;
    put_64(0, out)?;
    put_32(1, out)?;
    put_16(0x12, out)?;
    put_16(1, out)?;
    put_64(0, out)?;
    put_64(size, out)
}

/// Appends the section headers of an object whose text has a size.
#[tactic(auto, unfolding(crate::specs::Objects::section_headers))]
fn put_sections(size: u64, out: &mut Bytes) -> Result<(), AllocError>
    requires { size < 2 ^ 32 }
    ensures { OnOk result (out.new ≡ out.old ++ section_headers size) }
{
    put_section(
        &Section {
            name: 0,
            kind: 0,
            flags: 0,
            at: 0,
            size: 0,
            link: 0,
            info: 0,
            align: 0,
            entry_size: 0,
        },
        out,
    )?;
    put_section(
        &Section {
            name: 1,
            kind: 1,
            flags: 6,
            at: 64,
            size,
            link: 0,
            info: 0,
            align: 4,
            entry_size: 0,
        },
        out,
    )?;
    put_section(
        &Section {
            name: 7,
            kind: 2,
            flags: 0,
            at: 64 + size,
            size: 48,
            link: 3,
            info: 1,
            align: 8,
            entry_size: 24,
        },
        out,
    )?;
    put_section(
        &Section {
            name: 15,
            kind: 3,
            flags: 0,
            at: 112 + size,
            size: 6,
            link: 0,
            info: 0,
            align: 1,
            entry_size: 0,
        },
        out,
    )?;
    put_section(
        &Section {
            name: 23,
            kind: 3,
            flags: 0,
            at: 118 + size,
            size: 33,
            link: 0,
            info: 0,
            align: 1,
            entry_size: 0,
        },
        out,
    )
}

/// Appends the header of a section.
#[tactic(auto, unfolding(crate::specs::Objects::section_header))]
fn put_section(s: &Section, out: &mut Bytes) -> Result<(), AllocError>
    ensures { OnOk result (out.new ≡ out.old ++ section_header (record { name = s.now.name; kind = s.now.kind; flags = s.now.flags; at = s.now.at; size = s.now.size; link = s.now.link; info = s.now.info; align = s.now.align; entry_size = s.now.entry_size })) }
{
    put_32(s.name, out)?;
    put_32(s.kind, out)?;
    put_64(s.flags, out)?;
    put_64(0, out)?;
    put_64(s.at, out)?;
    put_64(s.size, out)?;
    put_32(s.link, out)?;
    put_32(s.info, out)?;
    put_64(s.align, out)?;
    put_64(s.entry_size, out)
}

#[tactic(auto, using(crate::proofs::Lengths::bytes_16))]
fn put_16(number: u16, out: &mut Bytes) -> Result<(), AllocError>
    ensures { OnOk result (out.new ≡ out.old ++ le_16 number) }
{
    out.append(&number.to_le_bytes())
}

#[tactic(auto, using(crate::proofs::Lengths::bytes_32))]
fn put_32(number: u32, out: &mut Bytes) -> Result<(), AllocError>
    ensures { OnOk result (out.new ≡ out.old ++ le_32 number) }
{
    out.append(&number.to_le_bytes())
}

#[tactic(auto, using(crate::proofs::Lengths::bytes_64))]
fn put_64(number: u64, out: &mut Bytes) -> Result<(), AllocError>
    ensures { OnOk result (out.new ≡ out.old ++ le_64 number) }
{
    out.append(&number.to_le_bytes())
}
