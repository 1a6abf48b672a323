ghost use Rattle.std.specs.Prelude.{◌≡◌, ◌<◌, length};
ghost use Rattle.elf_objects.specs.Objects.{ShowsSymbol};
ghost use Rattle.symbols.specs.Parts.{object_at, symbol_at, symbol_count, kind_at};

use elf_objects::{Objects, SectionKind, Symbol};

/// How many symbols an object has.
pub(crate) fn count_symbols(objects: &Objects<'_>, object: u32) -> u32
    requires { object < length objects.now }
    ensures { result ≡ symbol_count objects.now object }
{
    objects.object(object).symbols()
}

/// A symbol of an object, by their numbers.
pub(crate) fn symbol_of<'a>(objects: &Objects<'a>, object: u32, number: u32) -> Symbol<'a>
    requires object { object < length objects.now }
    requires number { number < symbol_count objects.now object }
    ensures { ShowsSymbol result (symbol_at objects.now object number) }
{
    objects.object(object).symbol(number)
}

/// What a section of an object is; a section that the object doesn't have takes no part.
pub(crate) fn kind_of_section(objects: &Objects<'_>, object: u32, section: u32) -> SectionKind
    requires { object < length objects.now }
    ensures { result ≡ kind_at objects.now object section }
{
    let object = objects.object(object);
    if section < object.sections() {
        object.section(section).kind
    } else {
        SectionKind::Unloaded
    }
}

/// The number of the section with an object's symbol table, and 0 where it has none.
pub(crate) fn symbol_table_of(objects: &Objects<'_>, object: u32) -> u32
    requires { object < length objects.now }
    ensures { result ≡ (object_at objects.now object).symbol_table }
{
    objects.object(object).symbol_table()
}
