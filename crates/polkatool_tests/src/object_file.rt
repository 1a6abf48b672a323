//! Objects by their bytes, one of them with relocations of each kind.

use object_parts::{put_file_header, put_header, put_relocation, put_symbol};
use std::alloc::{AllocError, Global};

/// A relocation: offset, type, symbol and addend.
pub(crate) type RelocationRow = (u64, u32, u32, i64);

/// What an object holds. The code is section 1, and the data are section 3.
#[derive(Clone, Copy)]
pub(crate) struct Parts<'a> {
    pub words: &'a [u32],
    pub code_relocations: &'a [RelocationRow],
    pub data: &'a [u8],
    pub data_relocations: &'a [RelocationRow],
    /// The symbols from 1 on: info, section and value. Those that are not local are named `main`.
    pub symbols: &'a [(u8, u16, u64)],
}

/// The symbols: two labels in the code, a place in the read-only data, a number, and the function `main`.
const GOT_LABEL: u32 = 1;

const LABEL: u32 = 2;

const DATA: u32 = 3;

const NUMBER: u32 = 4;

const MAIN: u32 = 5;

const WORDS: [u32; 15] = [
    0x00a5_0063, // beq a0, a0, 0
    0x0000_00ef, // jal ra, 0
    0x0000_0097, // auipc ra, 0
    0x0000_80e7, // jalr ra, 0(ra)
    0x0000_0097, // auipc ra, 0
    0x0000_80e7, // jalr ra, 0(ra)
    0x0000_0517, // auipc a0, 0
    0x0005_3503, // ld a0, 0(a0)
    0x0000_0597, // auipc a1, 0
    0x0005_8593, // addi a1, a1, 0
    0x00a5_a023, // sw a0, 0(a1)
    0x0000_0637, // lui a2, 0
    0x0006_0613, // addi a2, a2, 0
    0x00a6_2023, // sw a0, 0(a2)
    0x0000_8067, // jalr x0, 0(ra)
];

const CODE_RELOCATIONS: [RelocationRow; 13] = [
    (0, 16, MAIN, 4),
    (4, 17, MAIN, 8),
    (8, 18, MAIN, 0),
    (16, 19, MAIN, 16),
    (24, 20, DATA, 0),
    (28, 24, GOT_LABEL, 0),
    (32, 23, DATA, 0x7f8),
    (36, 24, LABEL, 0),
    (40, 25, LABEL, 0),
    (44, 26, NUMBER, 0),
    (48, 27, NUMBER, 0),
    (52, 28, NUMBER, 2),
    (56, 51, 0, 0),
];

const DATA_BYTES: [u8; 24] = [
    0xff, 0, 0, 0, 0, 0, 0, 0xff, 0xff, 0, 0, 0xff, 0, 1, 0, 0, 0xff, 0, 0, 0, 0xff, 0, 0, 0,
];

const DATA_RELOCATIONS: [RelocationRow; 8] = [
    (0, 2, MAIN, 16),
    (8, 1, NUMBER, 1),
    (12, 35, DATA, 0),
    (12, 39, DATA, 8),
    (16, 57, DATA, 0),
    (20, 33, DATA, 1),
    (21, 37, NUMBER, 0),
    (22, 34, NUMBER, 0),
];

const SYMBOLS: [(u8, u16, u64); 5] = [
    (0, 1, 24),
    (0, 1, 32),
    (0, 3, 8),
    (0, 0xfff1, 0x1234_5fff),
    (0x12, 1, 0),
];

/// The object with relocations of each kind.
pub(crate) fn object_file(alloc: Global) -> Result<Vec<u8>, AllocError> {
    object_of(
        alloc,
        &Parts {
            words: &WORDS,
            code_relocations: &CODE_RELOCATIONS,
            data: &DATA_BYTES,
            data_relocations: &DATA_RELOCATIONS,
            symbols: &SYMBOLS,
        },
    )
}

/// The object of code alone, whose function `main` is at its start.
pub(crate) fn code_alone(alloc: Global, words: &[u32]) -> Result<Vec<u8>, AllocError> {
    object_of(
        alloc,
        &Parts {
            words,
            code_relocations: &[],
            data: &[],
            data_relocations: &[],
            symbols: &[(0x12, 1, 0)],
        },
    )
}

fn object_of(alloc: Global, parts: &Parts<'_>) -> Result<Vec<u8>, AllocError> {
    let mut out = Vec::new(alloc);
    put_file_header(64, 7, 6, &mut out)?;
    put_sections(parts, &mut out)?;
    for word in parts.words {
        out.extend_from_slice(&word.to_le_bytes())?;
    }
    put_relocations(parts.code_relocations, &mut out)?;
    out.extend_from_slice(parts.data)?;
    put_relocations(parts.data_relocations, &mut out)?;
    put_symbol(0, 0, 0, 0, &mut out)?;
    for (info, section, value) in parts.symbols {
        let name = if *info == 0 { 0 } else { 1 };
        put_symbol(name, *info, *section, *value, &mut out)?;
    }
    out.extend_from_slice(b"\0main\0")?;
    Ok(out)
}

/// The headers of the sections, whose contents come after them in their order.
fn put_sections(parts: &Parts<'_>, out: &mut Vec<u8>) -> Result<(), AllocError> {
    let code = size_of(parts.words.len(), 4);
    let code_relocations = size_of(parts.code_relocations.len(), 24);
    let data = size_of(parts.data.len(), 1);
    let data_relocations = size_of(parts.data_relocations.len(), 24);
    let symbols = size_of(parts.symbols.len(), 24).wrapping_add(24);
    put_header((0, 0, 0, 0, 0, 0, 0, 0, 0), out)?;
    let mut at = 512u64;
    for (kind, flags, size, link, info, align, entry_size) in [
        (1, 6, code, 0, 0, 4, 0),
        (4, 0, code_relocations, 5, 1, 8, 24),
        (1, 2, data, 0, 0, 8, 0),
        (4, 0, data_relocations, 5, 3, 8, 24),
        (2, 0, symbols, 6, local_symbols(parts), 8, 24),
        (3, 0, 6, 0, 0, 1, 0),
    ] {
        put_header(
            (0, kind, flags, at, size, link, info, align, entry_size),
            out,
        )?;
        at = at.wrapping_add(size);
    }
    Ok(())
}

/// The number of local symbols, with the one of number 0. They come before the others.
fn local_symbols(parts: &Parts<'_>) -> u32 {
    let mut count = 1u32;
    for (info, _, _) in parts.symbols {
        if *info == 0 {
            count = count.wrapping_add(1);
        }
    }
    count
}

fn size_of(count: usize, each: u64) -> u64 {
    (count as u64).wrapping_mul(each)
}

fn put_relocations(rows: &[RelocationRow], out: &mut Vec<u8>) -> Result<(), AllocError> {
    for (offset, kind, symbol, addend) in rows {
        put_relocation(*offset, *kind, *symbol, *addend, out)?;
    }
    Ok(())
}
