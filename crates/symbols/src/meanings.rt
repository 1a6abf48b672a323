ghost use Rattle.std.specs.Prelude.{◌≡◌, ◌<◌, length, OnOk, IfOk};
ghost use Rattle.std.specs.Option.{option_map};
ghost use Rattle.elf_objects.specs.Objects.{ShowsSymbol};
ghost use Rattle.symbols.specs.Wanted.{Given, import_of};
ghost use Rattle.symbols.specs.Parts.{symbol_count};
ghost use Rattle.symbols.specs.Resolution.{same_binding, is_defined, definition_at, first_in_object, first_definition};
ghost use Rattle.symbols.specs.Names.{Adds, HoldsMeanings, defined, imported_as};

use crate::names::{Meaning, Names};
use crate::parts::{count_symbols, symbol_of};
use crate::wanted::Wanted;
use elf_objects::{Binding, Objects, SymbolIndex};
use std::alloc::{AllocError, Global};

/// The most bytes that the names of GLOBAL and WEAK symbols may have together. Names that share bytes count each for
/// itself. Files of 2^26 bytes hold less than a quarter of this without sharing.
const MAX_NAME_BYTES: u64 = 1 << 28;

/// The table of what every name means: GLOBAL definitions go before WEAK ones, and both before imports. More than
/// `MAX_NAME_BYTES` are refused as memory is.
pub(crate) fn meanings<'l>(
    alloc: Global,
    objects: &'l Objects<'_>,
    wanted: &'l Wanted,
) -> Result<Names<'l>, AllocError>
    ensures { let given : Given = record { objects = objects.now; wanted = wanted.now } in IfOk result (HoldsMeanings given) }
{
    if name_bytes(objects) > MAX_NAME_BYTES {
        return Err(AllocError);
    }
    let mut names = Names::with_capacity(alloc, most_names(objects, wanted))?;
    add_definitions(&mut names, objects, Binding::Global)?;
    add_definitions(&mut names, objects, Binding::Weak)?;
    add_imports(&mut names, wanted)?;
    Ok(names)
}

/// How many names there are at most. With room for all from the start, the table is never copied.
fn most_names(objects: &Objects<'_>, wanted: &Wanted) -> usize {
    let mut count = wanted.imports() as usize;
    for object in 0..objects.len() {
        count = count.saturating_add(count_symbols(objects, object) as usize);
    }
    count
}

/// How many bytes the names of GLOBAL and WEAK symbols have together.
fn name_bytes(objects: &Objects<'_>) -> u64 {
    let mut bytes: u64 = 0;
    for object in 0..objects.len() {
        for number in 0..count_symbols(objects, object) {
            let symbol = symbol_of(objects, object, number);
            if !has_binding(Binding::Local, symbol.binding) {
                bytes = bytes.saturating_add(symbol.name.len() as u64);
            }
        }
    }
    bytes
}

/// Adds the first definition with a binding of each name.
fn add_definitions<'l>(
    names: &mut Names<'l>,
    objects: &'l Objects<'_>,
    binding: Binding,
) -> Result<(), AllocError>
    ensures { OnOk result (Adds names.old names.new (λ name. option_map defined (first_definition objects.now binding name))) }
{
    for object in 0..objects.len() {
        add_definitions_of(names, objects, object, binding)?;
    }
    Ok(())
}

/// Adds those of an object.
fn add_definitions_of<'l>(
    names: &mut Names<'l>,
    objects: &'l Objects<'_>,
    object: u32,
    binding: Binding,
) -> Result<(), AllocError>
    requires { object < length objects.now }
    ensures { OnOk result (Adds names.old names.new (λ name. option_map defined (first_in_object objects.now binding name object))) }
{
    for number in 0..count_symbols(objects, object) {
        add_definition(names, objects, object, number, binding)?;
    }
    Ok(())
}

/// Adds the definition that a symbol is, if it is one with the binding.
fn add_definition<'l>(
    names: &mut Names<'l>,
    objects: &'l Objects<'_>,
    object: u32,
    number: u32,
    binding: Binding,
) -> Result<(), AllocError>
    requires object { object < length objects.now }
    requires number { number < symbol_count objects.now object }
    ensures { OnOk result (Adds names.old names.new (λ name. option_map defined (definition_at objects.now binding name object number))) }
{
    let symbol = symbol_of(objects, object, number);
    if number != 0 && has_binding(binding, symbol.binding) && has_definition(symbol.index) {
        names.add(symbol.name, Meaning::Defined { object, number })?;
    }
    Ok(())
}

/// Adds the imports.
fn add_imports<'l>(names: &mut Names<'l>, wanted: &'l Wanted) -> Result<(), AllocError>
    ensures { OnOk result (Adds names.old names.new (λ name. imported_as (import_of wanted.now name))) }
{
    for at in 0..wanted.imports() {
        names.add(wanted.import_name(at), Meaning::Imported(at))?;
    }
    Ok(())
}

/// Whether a binding is the wanted one.
pub(crate) fn has_binding(wanted: Binding, binding: Binding) -> bool
    ensures { result ≡ same_binding wanted binding }
{
    match wanted {
        Binding::Local => matches!(binding, Binding::Local),
        Binding::Global => matches!(binding, Binding::Global),
        Binding::Weak => matches!(binding, Binding::Weak),
    }
}

/// Whether a symbol with this index is defined.
pub(crate) fn has_definition(index: SymbolIndex) -> bool
    ensures { result ≡ is_defined index }
{
    !matches!(index, SymbolIndex::Undefined)
}
