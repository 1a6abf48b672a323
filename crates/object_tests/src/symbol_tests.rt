//! What symbols and entries stand for, and their faults.

ghost use Rattle.symbols.specs.Wanted.{given_of};
ghost use Rattle.symbols.specs.Resolved.{IsResolved};

use elf_objects::{Object, Objects};
use object_parts::{Header, put_file_header, put_header, put_relocation, put_symbol};
use std::alloc::{AllocError, Global};
use std::process::Abort;
use std::test::*;
use symbols::{
    Answer, COMMON, DUPLICATE, ENTRY_MISSING, ENTRY_NOT_CODE, ImportKind, Place, Resolved,
    SymbolFault, UNDEFINED, Wanted, has_effect, places_are_within, resolve,
};

/// A symbol: its name of at most seven bytes, its info, the index of its section, and its value.
type Row = (&'static [u8], u8, u16, u64);

/// The symbols of an object from 1 on, and the kind and symbol of each relocation of its text.
type Parts = ([Row; 5], [(u32, u32); 2]);

const LOCAL: u8 = 0;

const GLOBAL: u8 = 0x10;

const WEAK: u8 = 0x20;

const NOWHERE: u16 = 0;

const TEXT: u16 = 1;

const DATA: u16 = 2;

const COMMENT: u16 = 3;

const ABSOLUTE_INDEX: u16 = 0xfff1;

const COMMON_INDEX: u16 = 0xfff2;

/// The number of the section with the symbol table.
const TABLE: u32 = 5;

/// A symbol that has no part in a case.
const OTHER: Row = (b"", LOCAL, ABSOLUTE_INDEX, 0);

/// A relocation that does nothing.
const NO_RELOCATION: (u32, u32) = (0, 0);

const CALL: u32 = 19;

const RELAX_KIND: u32 = 51;

/// The names of the sections, and their headers.
const SECTION_NAMES: &[u8; 59] =
    b"\0.text\0.data\0.comment\0.rela.text\0.symtab\0.strtab\0.shstrtab\0";

const HEADERS: [Header; 8] = [
    (0, 0, 0, 0, 0, 0, 0, 0, 0),
    (1, 1, 6, 64, 16, 0, 0, 4, 0),
    (7, 1, 3, 80, 16, 0, 0, 8, 0),
    (13, 1, 0, 96, 8, 0, 0, 1, 0),
    (22, 4, 0, 104, 48, 5, 1, 8, 24),
    (33, 2, 0, 152, 144, 6, 1, 8, 24),
    (41, 3, 0, 296, 48, 0, 0, 1, 0),
    (49, 3, 0, 344, 59, 0, 0, 1, 0),
];

/// The object with these symbols and relocations.
fn file_of(alloc: Global, parts: &Parts) -> Result<Vec<u8>, AllocError> {
    let mut out = Vec::new(alloc);
    put_file_header(403, 8, 7, &mut out)?;
    out.extend_from_slice(&[0; 40])?;
    for (kind, symbol) in parts.1 {
        put_relocation(0, kind, symbol, 0, &mut out)?;
    }
    put_symbols(&parts.0, &mut out)?;
    put_names(&parts.0, &mut out)?;
    out.extend_from_slice(SECTION_NAMES)?;
    for header in HEADERS {
        put_header(header, &mut out)?;
    }
    Ok(out)
}

fn put_symbols(rows: &[Row; 5], out: &mut Vec<u8>) -> Result<(), AllocError> {
    out.extend_from_slice(&[0; 24])?;
    let mut name = 0u32;
    for (_, info, index, value) in rows {
        name = name.wrapping_add(8);
        put_symbol(name, *info, *index, *value, out)?;
    }
    Ok(())
}

/// The string table, of eight bytes a symbol.
fn put_names(rows: &[Row; 5], out: &mut Vec<u8>) -> Result<(), AllocError> {
    out.extend_from_slice(&[0; 8])?;
    for (name, _, _, _) in rows {
        for at in 0..8usize {
            out.push(name.get(at).copied().unwrap_or(0))?;
        }
    }
    Ok(())
}

/// Objects and wanted names, with the expected results.
#[derive(Clone, Copy)]
struct Case {
    shows: &'static str,
    objects: [Parts; 2],
    entries: &'static [&'static [u8]],
    imports: &'static [&'static [u8]],
    /// The places of symbols, by object and number.
    places: &'static [(u32, u32, Place)],
    entry_places: &'static [Place],
    answers: &'static [(&'static [u8], Option<Answer>)],
    /// The code, object, section and offset of the fault.
    fault: Option<(u8, u32, u32, u64)>,
}

/// An object whose symbols have no part in a case.
const EMPTY: Parts = (
    [OTHER, OTHER, OTHER, OTHER, OTHER],
    [NO_RELOCATION, NO_RELOCATION],
);

/// A case of two such objects, without a result.
const NOTHING: Case = Case {
    shows: "nothing",
    objects: [EMPTY, EMPTY],
    entries: &[],
    imports: &[],
    places: &[(0, 0, Place::Number(0)), (1, 0, Place::Number(0))],
    entry_places: &[],
    answers: &[(b"f", None)],
    fault: None,
};

fn wanted_of(rt: &impl Abort, alloc: Global, case: &Case) -> Result<Wanted, AllocError> {
    let mut wanted = Wanted::new(alloc, 4096);
    for name in case.entries {
        assert!(rt; wanted.entries() < 1000);
        wanted.entry(*name)?;
    }
    for name in case.imports {
        add_import(rt, &mut wanted, *name)?;
    }
    Ok(wanted)
}

/// Imports `sbrk` under a name that isn't imported.
fn add_import(rt: &impl Abort, wanted: &mut Wanted, name: &[u8]) -> Result<(), AllocError> {
    assert!(rt; wanted.imports() < 1000);
    let found = wanted.find_import(name);
    assert!(rt; found.is_none());
    wanted.import(name, ImportKind::Sbrk)
}

/// Reads an object and adds it to the list.
fn add_object<'a>(
    rt: &impl Abort,
    alloc: Global,
    objects: &mut Objects<'a>,
    file: &'a [u8],
) -> Result<(), Fail> {
    assert!(rt; file.len() < 4096);
    let number = objects.len();
    assert!(rt; number < 1024);
    objects.push(Object::read(alloc, file, number)?)?;
    Ok(())
}

/// What a symbol stands for.
fn place_of(
    rt: &impl Abort,
    objects: &Objects<'_>,
    wanted: &Wanted,
    resolved: &Resolved,
    object: u32,
    number: u32,
) -> Place
    requires { IsResolved (given_of objects.now wanted.now) resolved.now }
{
    assert!(rt; object < objects.len());
    assert!(rt; number < objects.object(object).symbols());
    resolved.place(object, number)
}

/// What an entry stands for.
fn entry_of(
    rt: &impl Abort,
    objects: &Objects<'_>,
    wanted: &Wanted,
    resolved: &Resolved,
    entry: usize,
) -> Place
    requires { IsResolved (given_of objects.now wanted.now) resolved.now }
{
    assert!(rt; entry < wanted.entries() as usize);
    resolved.entry(entry as u32)
}
/// Compares the results of a case with the expected ones.
fn expect(rt: &impl Abort, alloc: Global, case: &Case) -> Result<(), Fail> {
    let first = file_of(alloc, &case.objects[0])?;
    let second = file_of(alloc, &case.objects[1])?;
    let mut objects = Objects::new(alloc);
    add_object(rt, alloc, &mut objects, &first)?;
    add_object(rt, alloc, &mut objects, &second)?;
    let wanted = wanted_of(rt, alloc, case)?;
    match resolve(alloc, &objects, &wanted) {
        Ok(resolved) => {
            assert_eq!(rt; None, case.fault, "{}", case.shows);
            for (object, number, place) in case.places {
                let seen = place_of(rt, &objects, &wanted, &resolved, *object, *number);
                assert_eq!(rt; seen, *place, "{}: {object}, {number}", case.shows);
            }
            for (entry, place) in case.entry_places.iter().enumerate() {
                let seen = entry_of(rt, &objects, &wanted, &resolved, entry);
                assert_eq!(rt; seen, *place, "{}", case.shows);
            }
            for (name, answer) in case.answers {
                assert_eq!(rt; resolved.lookup(*name), *answer, "{}", case.shows);
            }
        }
        Err(SymbolFault::Bad(fault)) => {
            let seen = (fault.code, fault.object, fault.section, fault.offset);
            assert_eq!(rt; Some(seen), case.fault, "{}", case.shows);
        }
        Err(SymbolFault::Memory) => return Err(Fail::from(AllocError)),
    }
    Ok(())
}

/// Offsets of the texts of the two objects.
const FIRST_4: Place = Place::Code {
    object: 0,
    section: 1,
    offset: 4,
};

const FIRST_12: Place = Place::Code {
    object: 0,
    section: 1,
    offset: 12,
};

const SECOND_8: Place = Place::Code {
    object: 1,
    section: 1,
    offset: 8,
};

const SECOND_12: Place = Place::Code {
    object: 1,
    section: 1,
    offset: 12,
};

/// An object with up to two symbols and one relocation, by its kind and symbol.
fn object_with(first: Row, second: Row, relocation: (u32, u32)) -> Parts {
    (
        [first, second, OTHER, OTHER, OTHER],
        [NO_RELOCATION, relocation],
    )
}

#[test]
fn a_name_stands_for_its_definition(rt: HostRuntime) -> Result<(), Fail> {
    let weak_4 = object_with((b"f", WEAK, TEXT, 4), (b"f", GLOBAL, NOWHERE, 0), (CALL, 2));
    let global_8 = object_with((b"f", GLOBAL, TEXT, 8), OTHER, NO_RELOCATION);
    let weak_12 = object_with((b"f", WEAK, TEXT, 12), OTHER, NO_RELOCATION);
    let local_12 = object_with((b"f", LOCAL, TEXT, 12), OTHER, NO_RELOCATION);
    let cases = [
        NOTHING,
        Case {
            shows: "GLOBAL over WEAK",
            objects: [weak_4, global_8],
            entries: &[b"f"],
            places: &[(0, 1, SECOND_8), (0, 2, SECOND_8), (1, 1, SECOND_8)],
            entry_places: &[SECOND_8],
            ..NOTHING
        },
        Case {
            shows: "the first WEAK one",
            objects: [weak_4, weak_12],
            entries: &[b"f"],
            imports: &[b"f"],
            places: &[(0, 1, FIRST_4), (0, 2, FIRST_4), (1, 1, FIRST_4)],
            entry_places: &[FIRST_4],
            ..NOTHING
        },
        Case {
            shows: "a LOCAL one stands for itself",
            objects: [local_12, weak_12],
            places: &[(0, 1, FIRST_12), (1, 1, SECOND_12)],
            ..NOTHING
        },
    ];
    for case in &cases {
        expect(&rt, rt.alloc(), case)?;
    }
    Ok(())
}

#[test]
fn definitions_have_places(rt: HostRuntime) -> Result<(), Fail> {
    let number = object_with((b"f", GLOBAL, ABSOLUTE_INDEX, 7), OTHER, NO_RELOCATION);
    let weak_number = object_with((b"f", WEAK, ABSOLUTE_INDEX, 6), OTHER, NO_RELOCATION);
    let data = object_with((b"f", GLOBAL, DATA, 3), OTHER, NO_RELOCATION);
    let comment = object_with((b"f", GLOBAL, COMMENT, 99), OTHER, NO_RELOCATION);
    let cases = [
        Case {
            shows: "a number",
            objects: [weak_number, number],
            imports: &[b"g"],
            places: &[(0, 1, Place::Number(7)), (1, 1, Place::Number(7))],
            answers: &[
                (b"f", Some(Answer::Number(7))),
                (b"g", Some(Answer::Import(0))),
                (b"h", None),
                (b"", None),
            ],
            ..NOTHING
        },
        Case {
            shows: "data",
            objects: [EMPTY, data],
            places: &[(
                1,
                1,
                Place::Bytes {
                    object: 1,
                    section: 2,
                    offset: 3,
                },
            )],
            ..NOTHING
        },
        Case {
            shows: "a section that isn't loaded",
            objects: [comment, EMPTY],
            imports: &[b"f"],
            places: &[(0, 1, Place::Unloaded)],
            ..NOTHING
        },
    ];
    for case in &cases {
        expect(&rt, rt.alloc(), case)?;
    }
    Ok(())
}

#[test]
fn undefined_names_are_imports_or_absent(rt: HostRuntime) -> Result<(), Fail> {
    let global = object_with((b"f", GLOBAL, NOWHERE, 0), OTHER, (CALL, 1));
    let weak = object_with((b"f", WEAK, NOWHERE, 0), OTHER, (CALL, 1));
    let unnamed = object_with((b"f", GLOBAL, NOWHERE, 0), OTHER, (RELAX_KIND, 1));
    let number = object_with((b"f", WEAK, ABSOLUTE_INDEX, 7), OTHER, NO_RELOCATION);
    let cases = [
        Case {
            shows: "an import",
            objects: [global, weak],
            imports: &[b"g", b"f"],
            places: &[(0, 1, Place::Import(1)), (1, 1, Place::Import(1))],
            answers: &[
                (b"f", Some(Answer::Import(1))),
                (b"g", Some(Answer::Import(0))),
            ],
            ..NOTHING
        },
        Case {
            shows: "a definition over an import",
            objects: [global, number],
            imports: &[b"f"],
            places: &[(0, 1, Place::Number(7))],
            answers: &[(b"f", Some(Answer::Number(7)))],
            ..NOTHING
        },
        Case {
            shows: "an absent WEAK symbol",
            objects: [weak, EMPTY],
            places: &[(0, 1, Place::Absent)],
            ..NOTHING
        },
        Case {
            shows: "an undefined symbol that nothing names",
            objects: [unnamed, EMPTY],
            places: &[(0, 1, Place::Absent)],
            ..NOTHING
        },
    ];
    for case in &cases {
        expect(&rt, rt.alloc(), case)?;
    }
    Ok(())
}

#[test]
fn symbols_have_faults(rt: HostRuntime) -> Result<(), Fail> {
    let common = object_with(OTHER, (b"c", WEAK, COMMON_INDEX, 4), NO_RELOCATION);
    let global = object_with((b"f", GLOBAL, TEXT, 8), OTHER, NO_RELOCATION);
    let twice = object_with(
        (b"f", GLOBAL, TEXT, 8),
        (b"f", GLOBAL, DATA, 4),
        NO_RELOCATION,
    );
    let undefined = object_with(OTHER, (b"g", GLOBAL, NOWHERE, 0), (CALL, 2));
    let undefined_first = object_with(
        (b"g", GLOBAL, NOWHERE, 0),
        (b"c", GLOBAL, COMMON_INDEX, 4),
        (CALL, 1),
    );
    let global_common = object_with((b"f", GLOBAL, COMMON_INDEX, 8), OTHER, NO_RELOCATION);
    let cases = [
        Case {
            shows: "a COMMON symbol",
            objects: [EMPTY, common],
            fault: Some((COMMON, 1, TABLE, 2)),
            ..NOTHING
        },
        Case {
            shows: "a GLOBAL definition of another object again",
            objects: [global, global],
            fault: Some((DUPLICATE, 1, TABLE, 1)),
            ..NOTHING
        },
        Case {
            shows: "and of the same object",
            objects: [twice, common],
            fault: Some((DUPLICATE, 0, TABLE, 2)),
            ..NOTHING
        },
        Case {
            shows: "an undefined symbol",
            objects: [undefined, common],
            entries: &[b"f"],
            imports: &[b"f"],
            fault: Some((UNDEFINED, 0, TABLE, 2)),
            ..NOTHING
        },
        Case {
            shows: "an earlier symbol before an earlier kind",
            objects: [undefined_first, EMPTY],
            fault: Some((UNDEFINED, 0, TABLE, 1)),
            ..NOTHING
        },
        Case {
            shows: "COMMON before a second definition at one symbol",
            objects: [global, global_common],
            fault: Some((COMMON, 1, TABLE, 1)),
            ..NOTHING
        },
    ];
    for case in &cases {
        expect(&rt, rt.alloc(), case)?;
    }
    Ok(())
}

#[test]
fn entries_have_faults(rt: HostRuntime) -> Result<(), Fail> {
    let local = object_with((b"f", LOCAL, TEXT, 8), (b"g", WEAK, TEXT, 0), NO_RELOCATION);
    let data = object_with(
        (b"f", GLOBAL, DATA, 8),
        (b"g", WEAK, TEXT, 0),
        NO_RELOCATION,
    );
    let odd = object_with(
        (b"f", GLOBAL, TEXT, 6),
        (b"g", WEAK, TEXT, 0),
        NO_RELOCATION,
    );
    let number = object_with(
        (b"f", GLOBAL, ABSOLUTE_INDEX, 8),
        (b"g", WEAK, TEXT, 0),
        NO_RELOCATION,
    );
    let cases = [
        Case {
            shows: "a LOCAL definition and an import are no entry",
            objects: [local, EMPTY],
            entries: &[b"g", b"f"],
            imports: &[b"f"],
            fault: Some((ENTRY_MISSING, 1, 0, 0)),
            ..NOTHING
        },
        Case {
            shows: "nor is data",
            objects: [data, EMPTY],
            entries: &[b"g", b"f", b"h"],
            fault: Some((ENTRY_NOT_CODE, 1, 0, 0)),
            ..NOTHING
        },
        Case {
            shows: "nor an offset that is no multiple of 4",
            objects: [odd, EMPTY],
            entries: &[b"f"],
            fault: Some((ENTRY_NOT_CODE, 0, 0, 0)),
            ..NOTHING
        },
        Case {
            shows: "nor a number",
            objects: [number, EMPTY],
            entries: &[b"g", b"f"],
            fault: Some((ENTRY_NOT_CODE, 1, 0, 0)),
            ..NOTHING
        },
    ];
    for case in &cases {
        expect(&rt, rt.alloc(), case)?;
    }
    Ok(())
}

#[test]
fn some_kinds_have_no_effect(rt: HostRuntime) {
    for (kind, effect) in [(0, false), (CALL, true), (43, false), (RELAX_KIND, false)] {
        assert_eq!(rt; has_effect(kind), effect, "{kind}");
    }
}

/// Nothing of this law is seen where a program runs: the test shows that it can be called.
#[test]
fn a_law_of_places_is_there() {
    places_are_within();
}
