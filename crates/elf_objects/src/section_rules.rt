ghost use Rattle.std.specs.Prelude.{◌≡◌, ◌<◌};
ghost use Rattle.std.specs.Result.{result_err};
ghost use Rattle.elf_objects.specs.Headers.{section_count};
ghost use Rattle.elf_objects.specs.Rules.{is_string_table, has_entries, is_bad_symbol_table, is_bad_rela, is_bad_align, is_bad_section, is_unknown_form, is_unsupported};
ghost use Rattle.elf_objects.specs.FirstFaults.{in_sections, table_refusal, form_refusal};

use crate::fault::{BAD_TABLE, Refusal, UNSUPPORTED_SECTION};
use crate::section_header::{
    ALLOC, COMPRESSED, EXECINSTR, GROUP, NOBITS, NOTE, NULL, PROGBITS, REL, RELA, STRTAB, SYMTAB,
    SYMTAB_SHNDX, SectionHeader, TLS, WRITE, lies_past,
};
use crate::tables::Tables;

/// The length of an entry of a table of symbols or relocations, in bytes.
const ENTRY_LEN: u64 = 24;

/// The largest alignment of a loaded section, in bytes.
const MAX_ALIGN: u64 = 4096;

/// The first section with a bad table.
pub fn check_tables(tables: &Tables<'_>) -> Result<(), Refusal>
    ensures { let b = tables.now.file.bytes.now in
        result_err result ≡ in_sections b (table_refusal b) }
{
    for section in 0..tables.file.count {
        if is_bad_section(tables, section) {
            return Err(Refusal {
                code: BAD_TABLE,
                section,
                offset: 0,
            });
        }
    }
    Ok(())
}

/// The first section of a form that isn't supported.
pub fn check_supported(tables: &Tables<'_>) -> Result<(), Refusal>
    ensures { let b = tables.now.file.bytes.now in
        result_err result ≡ in_sections b (form_refusal b) }
{
    for section in 0..tables.file.count {
        if is_unsupported(tables, section) {
            return Err(Refusal {
                code: UNSUPPORTED_SECTION,
                section,
                offset: 0,
            });
        }
    }
    Ok(())
}

/// Whether a section breaks a rule of tables.
#[tactic(auto, unfolding(crate::specs::Rules::is_bad_section))]
fn is_bad_section(tables: &Tables<'_>, section: u32) -> bool
    requires { section < section_count tables.now.file.bytes.now }
    ensures { result ≡ is_bad_section tables.now.file.bytes.now section }
{
    let header = tables.file.header(section);
    (section == 0 && header.kind != NULL)
        || (header.kind != NULL && header.kind != NOBITS && lies_past(tables.file.bytes, &header))
        || (header.kind == SYMTAB && is_bad_symbol_table(tables, section, &header))
        || (header.kind == RELA && is_bad_rela(tables, &header))
        || (tables.is_loaded(section) && is_bad_align(header.align))
}

/// Whether a section of type SYMTAB is no symbol table.
#[tactic(auto, unfolding(crate::specs::Rules::is_bad_symbol_table))]
fn is_bad_symbol_table(tables: &Tables<'_>, section: u32, header: &SectionHeader) -> bool
    ensures { result ≡ is_bad_symbol_table tables.now.file.bytes.now section header.now }
{
    !is_string_table(tables, header.link)
        || !has_entries(header)
        || !tables.is_symbol_table(section)
}

/// Whether a section of type RELA has no target, or a loaded one and no whole table.
#[tactic(auto, unfolding(crate::specs::Rules::is_bad_rela))]
fn is_bad_rela(tables: &Tables<'_>, header: &SectionHeader) -> bool
    ensures { result ≡ is_bad_rela tables.now.file.bytes.now header.now }
{
    tables.file.count <= header.info
        || (tables.is_loaded(header.info)
            && (!tables.is_symbol_table(header.link) || !has_entries(header)))
}

fn is_string_table(tables: &Tables<'_>, section: u32) -> bool
    ensures { result ≡ is_string_table tables.now.file.bytes.now section }
{
    section < tables.file.count && tables.file.header(section).kind == STRTAB
}

/// Whether a table of symbols or relocations has whole entries.
fn has_entries(header: &SectionHeader) -> bool
    ensures { result ≡ has_entries header.now }
{
    header.entry_size == ENTRY_LEN && header.size % ENTRY_LEN == 0
}

fn is_bad_align(align: u64) -> bool
    ensures { result ≡ is_bad_align align }
{
    align != 0 && (!align.is_power_of_two() || align > MAX_ALIGN)
}

/// Whether a section is of a form that isn't supported.
#[tactic(auto, unfolding(crate::specs::Rules::is_unsupported, crate::specs::Sections::is_unwinding))]
fn is_unsupported(tables: &Tables<'_>, section: u32) -> bool
    requires { section < section_count tables.now.file.bytes.now }
    ensures { result ≡ is_unsupported tables.now.file.bytes.now section }
{
    let header = tables.file.header(section);
    header.kind == REL
        || header.kind == GROUP
        || header.kind == SYMTAB_SHNDX
        || header.flags & TLS != 0
        || (header.flags & ALLOC != 0 && !tables.is_unwinding(&header) && is_unknown_form(&header))
}

/// Whether a section with ALLOC is of no form that is known.
fn is_unknown_form(header: &SectionHeader) -> bool
    ensures { result ≡ is_unknown_form header.now }
{
    (header.kind != PROGBITS && header.kind != NOBITS && header.kind != NOTE)
        || header.flags & COMPRESSED != 0
        || (header.flags & EXECINSTR != 0 && header.flags & WRITE != 0)
        || (header.flags & EXECINSTR != 0 && header.kind == NOBITS)
        || (header.kind == NOBITS && header.flags & WRITE == 0)
}
