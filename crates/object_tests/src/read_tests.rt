//! Objects that are read, and the faults of files.

use elf_objects::{Binding, Object, ObjectFault, SectionKind, SymbolIndex};
use object_parts::{Header, put_file_header, put_header, put_relocation, put_symbol};
use std::alloc::{AllocError, Global};
use std::process::Abort;
use std::test::*;

/// The section headers of the object.
const HEADERS: [Header; 10] = [
    (0, 0, 0, 0, 0, 0, 0, 0, 0),
    (1, 1, 6, 704, 8, 0, 0, 4, 0), // .text
    (7, 1, 3, 712, 8, 0, 0, 8, 0), // .data
    (13, 8, 3, 720, 16, 0, 0, 0, 0), // .bss
    (18, 4, 0, 720, 48, 6, 1, 8, 24), // .rela.text
    (18, 4, 0, 768, 24, 6, 1, 8, 24), // .rela.text, a second one
    (29, 2, 0, 792, 72, 7, 2, 8, 24), // .symtab
    (37, 3, 0, 864, 10, 0, 0, 1, 0), // .strtab
    (45, 3, 0, 874, 69, 0, 0, 1, 0), // .shstrtab
    (55, 1, 2, 943, 24, 7, 0, 3, 24), // .eh_frame_hdr, which isn't loaded, so that its alignment doesn't count
];

const SECTION_NAMES: &[u8; 69] =
    b"\0.text\0.data\0.bss\0.rela.text\0.symtab\0.strtab\0.shstrtab\0.eh_frame_hdr\0";

const SYMBOL_NAMES: &[u8; 10] = b"\0main\0buf\0";

// The offsets of fields in a section header, in a symbol and in a relocation.
const NAME: usize = 0;

const TYPE: usize = 4;

const FLAGS: usize = 8;

const OFFSET: usize = 24;

const SIZE: usize = 32;

const LINK: usize = 40;

const INFO: usize = 44;

const ALIGN: usize = 48;

const ENTRY_SIZE: usize = 56;

const SYMBOL_INFO: usize = 4;

const SYMBOL_INDEX: usize = 6;

const SYMBOL_VALUE: usize = 8;

const RELOCATION_OFFSET: usize = 0;

const RELOCATION_SYMBOL: usize = 12;

/// The object: the headers of file and sections, and the contents of the sections in their order.
fn object_bytes(alloc: Global) -> Result<Vec<u8>, AllocError> {
    let mut out = Vec::new(alloc);
    put_file_header(64, 10, 8, &mut out)?;
    for header in HEADERS {
        put_header(header, &mut out)?;
    }
    out.extend_from_slice(&[0x13, 0x05, 0x50, 0, 0x67, 0x80, 0, 0])?;
    out.extend_from_slice(&[1, 2, 3, 4, 5, 6, 7, 8])?;
    put_relocation(0, 18, 1, 0, &mut out)?;
    put_relocation(8, 43, 0, 2, &mut out)?;
    put_relocation(4, 16, 2, -1, &mut out)?;
    put_symbol(0, 0, 0, 0, &mut out)?;
    put_symbol(6, 1, 3, 16, &mut out)?;
    put_symbol(1, 0x12, 1, 0, &mut out)?;
    out.extend_from_slice(SYMBOL_NAMES)?;
    out.extend_from_slice(SECTION_NAMES)?;
    out.extend_from_slice(&[0; 24])?;
    Ok(out)
}

/// The object with some bytes changed, by their places.
fn edited(rt: &impl Abort, alloc: Global, edits: &[(usize, u8)]) -> Result<Vec<u8>, AllocError> {
    let mut file = object_bytes(alloc)?;
    for (at, byte) in edits {
        match file.get_mut(*at) {
            Some(place) => *place = *byte,
            None => assert!(rt; false, "no byte {at}"),
        }
    }
    Ok(file)
}

/// The place of a byte of a field in the header of a section.
fn field(section: usize, field: usize) -> usize {
    (section % 10) * 64 + 64 + field % 64
}

/// The place of a byte of a field in a symbol.
fn symbol_field(symbol: usize, field: usize) -> usize {
    (symbol % 3) * 24 + 792 + field % 24
}

/// The place of a byte of a field in a relocation of either table.
fn relocation_field(relocation: usize, field: usize) -> usize {
    (relocation % 3) * 24 + 720 + field % 24
}

/// The code, section and offset of the fault of a file.
fn fault_of(rt: &impl Abort, alloc: Global, file: &[u8]) -> Result<(u8, u32, u64), Fail> {
    assert!(rt; file.len() < 4096);
    match Object::read(alloc, file, 7) {
        Ok(_) => Ok((0, 0, 0)),
        Err(ObjectFault::Bad(fault)) => {
            assert_eq!(rt; fault.object, 7);
            Ok((fault.code, fault.section, fault.offset))
        }
        Err(ObjectFault::Memory) => Err(Fail::from(AllocError)),
    }
}

/// Asserts the fault of the object with one byte changed.
fn expect_fault(
    rt: &impl Abort,
    alloc: Global,
    at: usize,
    byte: u8,
    fault: (u8, u32, u64),
) -> Result<(), Fail> {
    let file = edited(rt, alloc, &[(at, byte)])?;
    assert_eq!(rt; fault_of(rt, alloc, &file)?, fault, "byte {at}");
    Ok(())
}

/// What a section is: its name and kind, its size and alignment, and how long its content is and how many relocations it
/// has.
type Read = (&'static [u8], SectionKind, (u64, u64, usize, u32));

const SECTIONS: [Read; 10] = [
    (b"", SectionKind::Unloaded, (0, 1, 0, 0)),
    (b".text", SectionKind::Code, (8, 4, 8, 3)),
    (b".data", SectionKind::Writable, (8, 8, 8, 0)),
    (b".bss", SectionKind::Zero, (16, 1, 0, 0)),
    (b".rela.text", SectionKind::Unloaded, (48, 8, 48, 0)),
    (b".rela.text", SectionKind::Unloaded, (24, 8, 24, 0)),
    (b".symtab", SectionKind::Unloaded, (72, 8, 72, 0)),
    (b".strtab", SectionKind::Unloaded, (10, 1, 10, 0)),
    (b".shstrtab", SectionKind::Unloaded, (69, 1, 69, 0)),
    (b".eh_frame_hdr", SectionKind::Unloaded, (24, 3, 24, 0)),
];

#[test]
fn reads_sections(rt: HostRuntime) -> Result<(), Fail> {
    let file = object_bytes(rt.alloc())?;
    assert_eq!(rt; file.len(), 967);
    let object = Object::read(rt.alloc(), &file, 0)?;
    assert_eq!(rt; object.sections(), 10);
    assert!(rt; !object.compressed());
    for at in 0..10u32 {
        see_section(&rt, &object, at, SECTIONS[at as usize]);
    }
    assert_eq!(rt;
        object.section(2).content,
        [1, 2, 3, 4, 5, 6, 7, 8].as_slice()
    );
    Ok(())
}

fn see_section(rt: &impl Abort, object: &Object<'_>, at: u32, seen: Read) {
    assert!(rt; at < object.sections());
    let section = object.section(at);
    let (name, kind, (size, align, len, relocations)) = seen;
    assert_eq!(rt; section.name, name);
    assert_eq!(rt; section.kind, kind);
    assert_eq!(rt; section.kind.is_loaded(), kind != SectionKind::Unloaded);
    assert_eq!(rt; (section.size, section.align), (size, align));
    assert_eq!(rt; section.content.len(), len);
    assert_eq!(rt; object.relocations(at), relocations);
}

#[test]
fn reads_long_names(rt: HostRuntime) -> Result<(), Fail> {
    // the names of sections, now at 967, go on with 150 times n and then with m
    let edits = [
        (field(8, OFFSET), 0xc7),
        (field(8, SIZE), 222),
        (field(7, NAME), 69),
        (field(6, NAME), 69 + 64),
        (field(5, NAME), 220),
    ];
    let mut file = edited(&rt, rt.alloc(), &edits)?;
    file.extend_from_slice(SECTION_NAMES)?;
    file.extend_from_slice(&[b'n'; 150])?;
    file.extend_from_slice(b"\0m\0")?;
    assert_eq!(rt; file.len(), 967 + 222);
    let object = Object::read(rt.alloc(), &file, 0)?;
    assert_eq!(rt; object.sections(), 10);
    assert_eq!(rt; object.section(7).name, [b'n'; 150].as_slice());
    assert_eq!(rt; object.section(6).name, [b'n'; 86].as_slice());
    assert_eq!(rt; object.section(5).name, b"m".as_slice());
    assert_eq!(rt; object.section(1).name, b".text".as_slice());
    Ok(())
}

#[test]
fn refuses_too_many_relocations(rt: HostRuntime) -> Result<(), Fail> {
    // 4,096 RELA sections share 4,097 entries, which like all other bytes of sections are zeros
    let at = 64 + 64 * 4100;
    let mut file = Vec::new(rt.alloc());
    put_file_header(64, 4100, 3, &mut file)?;
    put_header((0, 0, 0, 0, 0, 0, 0, 0, 0), &mut file)?;
    put_header((0, 1, 6, at, 8, 0, 0, 4, 0), &mut file)?;
    put_header((0, 2, 0, at, 24, 3, 1, 8, 24), &mut file)?;
    put_header((0, 3, 0, at, 1, 0, 0, 1, 0), &mut file)?;
    for _ in 0..4096 {
        put_header((0, 4, 0, at, 24 * 4097, 2, 1, 8, 24), &mut file)?;
    }
    file.extend_from_slice(vec![in rt.alloc(); 0u8; 24 * 4097]?.as_slice())?;
    assert!(rt; file.len() < 500_000);
    let read = Object::read(rt.alloc(), &file, 0);
    assert!(rt; matches!(read, Err(ObjectFault::Memory)));
    Ok(())
}

#[test]
fn reads_symbols(rt: HostRuntime) -> Result<(), Fail> {
    let file = object_bytes(rt.alloc())?;
    assert_eq!(rt; file.len(), 967);
    let object = Object::read(rt.alloc(), &file, 0)?;
    assert_eq!(rt; (object.symbols(), object.symbol_table()), (3, 6));
    let symbols: [(&[u8], Binding, SymbolIndex, u64); 3] = [
        (b"", Binding::Local, SymbolIndex::Undefined, 0),
        (b"buf", Binding::Local, SymbolIndex::Section(3), 16),
        (b"main", Binding::Global, SymbolIndex::Section(1), 0),
    ];
    for at in 0..3u32 {
        let (name, binding, index, value) = symbols[at as usize];
        let symbol = object.symbol(at);
        assert_eq!(rt; symbol.name, name);
        assert_eq!(rt; symbol.binding, binding);
        assert_eq!(rt; symbol.index, index);
        assert_eq!(rt; symbol.value, value);
    }
    Ok(())
}

#[test]
fn reads_relocations_of_two_tables(rt: HostRuntime) -> Result<(), Fail> {
    let file = object_bytes(rt.alloc())?;
    assert_eq!(rt; file.len(), 967);
    let object = Object::read(rt.alloc(), &file, 0)?;
    assert_eq!(rt; object.sections(), 10);
    assert_eq!(rt; object.relocations(1), 3);
    let relocations = [(0u64, 18u32, 1u32, 0i64), (8, 43, 0, 2), (4, 16, 2, -1)];
    for at in 0..3u32 {
        let (offset, kind, symbol, addend) = relocations[at as usize];
        let relocation = object.relocation(1, at);
        assert_eq!(rt; (relocation.offset, relocation.kind), (offset, kind));
        assert_eq!(rt; (relocation.symbol, relocation.addend), (symbol, addend));
    }
    Ok(())
}

#[test]
fn reads_an_object_without_symbols(rt: HostRuntime) -> Result<(), Fail> {
    // the symbol table becomes a plain section, and the targets of the relocations one that isn't loaded
    let edits = [
        (field(6, TYPE), 1),
        (field(4, INFO), 0),
        (field(5, INFO), 0),
    ];
    let file = edited(&rt, rt.alloc(), &edits)?;
    assert!(rt; file.len() < 4096);
    let object = Object::read(rt.alloc(), &file, 0)?;
    assert_eq!(rt; (object.symbols(), object.symbol_table()), (1, 0));
    let symbol = object.symbol(0);
    assert!(rt; symbol.name.is_empty());
    assert_eq!(rt; symbol.binding, Binding::Local);
    assert_eq!(rt; symbol.index, SymbolIndex::Undefined);
    assert_eq!(rt; object.sections(), 10);
    assert_eq!(rt; object.relocations(1), 0);
    Ok(())
}

#[test]
fn passes_what_breaks_no_rule(rt: HostRuntime) -> Result<(), Fail> {
    // a NOTE with ALLOC, the greatest alignment, and a bad one of a section that isn't loaded; then relocations for a
    // section that isn't loaded with entries of any size, and the indexes ABS and COMMON
    for (at, byte) in [
        (field(2, TYPE), 7),
        (field(3, ALIGN + 1), 0x10),
        (field(8, ALIGN), 3),
        (field(0, NAME), 1),
    ] {
        let file = edited(&rt, rt.alloc(), &[(at, byte)])?;
        assert_eq!(rt; fault_of(&rt, rt.alloc(), &file)?, (0, 0, 0), "byte {at}");
    }
    for edits in [
        [(field(4, INFO), 9), (field(4, ENTRY_SIZE), 1)],
        [
            (symbol_field(2, SYMBOL_INDEX), 0xf1),
            (symbol_field(2, SYMBOL_INDEX + 1), 0xff),
        ],
        [
            (symbol_field(2, SYMBOL_INDEX), 0xf2),
            (symbol_field(2, SYMBOL_INDEX + 1), 0xff),
        ],
    ] {
        let file = edited(&rt, rt.alloc(), &edits)?;
        assert_eq!(rt; fault_of(&rt, rt.alloc(), &file)?, (0, 0, 0));
    }
    Ok(())
}

#[test]
fn refuses_other_files(rt: HostRuntime) -> Result<(), Fail> {
    let alloc = rt.alloc();
    for (len, code) in [(0, 1), (63, 1), (703, 4)] {
        let mut file = object_bytes(alloc)?;
        file.truncate(len);
        assert_eq!(rt; fault_of(&rt, alloc, &file)?, (code, 0, 0));
    }
    for (at, byte, code) in [
        (0, 0, 1),
        (6, 2, 1),
        (16, 2, 2),
        (18, 62, 2),
        (20, 2, 2),
        (48, 9, 3),
        (58, 65, 4),
        (60, 0, 4),
        (41, 255, 4),
        (62, 10, 4),
        (62, 1, 4),
    ] {
        expect_fault(&rt, alloc, at, byte, (code, 0, 0))?;
    }
    Ok(())
}

#[test]
fn refuses_bad_tables(rt: HostRuntime) -> Result<(), Fail> {
    let alloc = rt.alloc();
    // section 0 isn't NULL; bytes past the file; a symbol table without names, with other entries, not whole, or a
    // second one; relocations without a target, by other symbols, with other entries or not whole; alignments of 3, of
    // 8192, and of a section that begins with .eh_frame no more
    for (section, at, byte) in [
        (0u32, TYPE, 1),
        (2, SIZE + 2, 1),
        (6, LINK, 1),
        (6, LINK, 10),
        (6, ENTRY_SIZE, 23),
        (6, SIZE, 71),
        (9, TYPE, 2),
        (4, INFO, 10),
        (4, LINK, 7),
        (4, ENTRY_SIZE, 25),
        (5, SIZE, 23),
        (1, ALIGN, 3),
        (3, ALIGN + 1, 0x20),
        (9, NAME, 1),
    ] {
        expect_fault(
            &rt,
            alloc,
            field(section as usize, at),
            byte,
            (4, section, 0),
        )?;
    }
    Ok(())
}

#[test]
fn refuses_sections_that_are_not_supported(rt: HostRuntime) -> Result<(), Fail> {
    let alloc = rt.alloc();
    // types REL, GROUP and SYMTAB_SHNDX, and TLS, also where the section isn't loaded; INIT_ARRAY with ALLOC;
    // COMPRESSED; instructions that may be written, or that have no bytes; and zeros that may not be written
    for (section, at, byte) in [
        (9u32, TYPE, 9),
        (9, TYPE, 17),
        (9, TYPE, 18),
        (9, FLAGS + 1, 4),
        (2, TYPE, 14),
        (2, FLAGS + 1, 8),
        (1, FLAGS, 7),
        (3, FLAGS, 6),
        (3, FLAGS, 2),
    ] {
        expect_fault(
            &rt,
            alloc,
            field(section as usize, at),
            byte,
            (8, section, 0),
        )?;
    }
    Ok(())
}

#[test]
fn refuses_names_symbols_and_relocations(rt: HostRuntime) -> Result<(), Fail> {
    for (at, byte, fault) in [
        // names past the table, and one without a 00
        (field(2, NAME), 69, (5, 2, 0)),
        (symbol_field(1, NAME), 10, (5, 6, 1)),
        (873, b'x', (5, 6, 1)),
        // a binding, a type, a section that isn't there, LOCAL and undefined, and a value past the section
        (symbol_field(2, SYMBOL_INFO), 0x32, (6, 6, 2)),
        (symbol_field(2, SYMBOL_INFO), 0x15, (6, 6, 2)),
        (symbol_field(2, SYMBOL_INDEX), 10, (6, 6, 2)),
        (symbol_field(1, SYMBOL_INDEX), 0, (6, 6, 1)),
        (symbol_field(1, SYMBOL_VALUE), 17, (6, 6, 1)),
        // a symbol that isn't there, and bytes past the section
        (relocation_field(0, RELOCATION_SYMBOL), 3, (7, 4, 0)),
        (relocation_field(0, RELOCATION_OFFSET), 1, (7, 4, 0)),
        (relocation_field(1, RELOCATION_OFFSET), 9, (7, 4, 1)),
        (relocation_field(2, RELOCATION_OFFSET), 5, (7, 5, 0)),
    ] {
        expect_fault(&rt, rt.alloc(), at, byte, fault)?;
    }
    Ok(())
}

#[test]
fn reports_the_first_fault(rt: HostRuntime) -> Result<(), Fail> {
    // a table, a form, a name, a symbol and a relocation, in this order though most are in earlier sections
    let table = (field(9, NAME), 1);
    let form = (field(3, FLAGS), 2);
    let name = (field(2, NAME), 69);
    let symbol = (symbol_field(1, SYMBOL_VALUE), 17);
    let relocation = (relocation_field(0, RELOCATION_OFFSET), 1);
    for (edits, fault) in [
        ([relocation, symbol], (6, 6, 1)),
        ([symbol, name], (5, 2, 0)),
        ([name, form], (8, 3, 0)),
        ([form, table], (4, 9, 0)),
        ([table, (48, 9)], (3, 0, 0)),
    ] {
        let file = edited(&rt, rt.alloc(), &edits)?;
        assert_eq!(rt; fault_of(&rt, rt.alloc(), &file)?, fault);
    }
    Ok(())
}
