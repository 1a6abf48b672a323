ghost use Rattle.std.specs.Prelude.{◌≡◌, ◌<◌, length, slice_get, IfOk};
ghost use Rattle.elf_objects.specs.Objects.{relocations_of};
ghost use Rattle.symbols.specs.Faults.{has_effect as effect_of, names_symbol, is_named_among, is_named};
ghost use Rattle.symbols.specs.Names.{AddsMarks, MarksNamed, is_named_by};

use crate::parts::count_symbols;
use elf_objects::{Object, Objects, Relocation};
use std::alloc::{AllocError, Global};

/// The kind of the relocation that does nothing (psABI, "Relocations").
pub const NONE: u32 = 0;

/// The relocation type for the alignment of code.
pub const ALIGN: u32 = 43;

/// The relocation type that allows a linker to replace the words at its offset.
pub const RELAX: u32 = 51;

/// For each symbol of an object, whether a relocation of a loaded section names it.
pub(crate) fn named_symbols(
    alloc: Global,
    objects: &Objects<'_>,
    object: u32,
) -> Result<Vec<bool>, AllocError>
    requires { object < length objects.now }
    ensures { IfOk result (λ marks. MarksNamed objects.now object marks.items) }
{
    let mut marks = vec![in alloc; false; count_symbols(objects, object) as usize]?;
    mark_sections(objects.object(object), &mut marks);
    Ok(marks)
}

/// Marks the symbols that the relocations of all sections name.
fn mark_sections(object: &Object<'_>, marks: &mut [bool])
    ensures { AddsMarks marks.old marks.new (is_named object.now) }
{
    for section in 0..object.sections() {
        mark_section(object, section, marks);
    }
}

/// Marks the symbols that the relocations of a section name.
fn mark_section(object: &Object<'_>, section: u32, marks: &mut [bool])
    requires { section < length object.now.sections }
    ensures { AddsMarks marks.old marks.new (is_named_by (slice_get object.now.sections section)) }
{
    if object.section(section).kind.is_loaded() {
        mark_relocations(object, section, marks);
    }
}

fn mark_relocations(object: &Object<'_>, section: u32, marks: &mut [bool])
    requires { section < length object.now.sections }
    ensures { AddsMarks marks.old marks.new (is_named_among (relocations_of object.now section)) }
{
    for at in 0..object.relocations(section) {
        mark(object.relocation(section, at), marks);
    }
}

/// Marks the symbol that a relocation names.
fn mark(relocation: Relocation, marks: &mut [bool])
    ensures { AddsMarks marks.old marks.new (λ number. names_symbol number relocation) }
{
    let number = relocation.symbol as usize;
    if has_effect(relocation.kind) && number < marks.len() {
        marks[number] = true;
    }
}

/// Whether a relocation of this kind, its number in the psABI, has an effect, and so names its symbol: all but NONE, ALIGN
/// and RELAX.
pub fn has_effect(kind: u32) -> bool
    ensures { result ≡ effect_of kind }
{
    kind != NONE && kind != ALIGN && kind != RELAX
}
