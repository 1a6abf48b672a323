ghost use Rattle.std.specs.Prelude.{◌≡◌, ◌<◌};
ghost use Rattle.std.specs.Result.{result_err};
ghost use Rattle.elf_objects.specs.Headers.{section_count};
ghost use Rattle.elf_objects.specs.FirstFaults.{in_sections, symbol_name_refusal, name_refusal};

use crate::fault::{BAD_NAME, Refusal};
use crate::tables::Tables;

/// The first name of a section or symbol that isn't there, by section.
pub fn check_names(tables: &Tables<'_>) -> Result<(), Refusal>
    ensures { let b = tables.now.file.bytes.now in
        result_err result ≡ in_sections b (name_refusal b) }
{
    for section in 0..tables.file.count {
        check_name(tables, section)?;
    }
    Ok(())
}

/// Whether a section has a name and, if it is the symbol table, its symbols have.
#[tactic(auto, unfolding(crate::specs::FirstFaults::name_refusal))]
fn check_name(tables: &Tables<'_>, section: u32) -> Result<(), Refusal>
    requires { section < section_count tables.now.file.bytes.now }
    ensures { result_err result ≡ name_refusal tables.now.file.bytes.now section }
{
    if !tables.names.has_name(tables.file.header(section).name) {
        return Err(Refusal {
            code: BAD_NAME,
            section,
            offset: 0,
        });
    }
    if !tables.is_symbol_table(section) {
        return Ok(());
    }
    check_symbol_names(tables, section)
}

/// The first symbol without a name.
#[tactic(auto, unfolding(crate::specs::FirstFaults::symbol_name_refusal))]
fn check_symbol_names(tables: &Tables<'_>, section: u32) -> Result<(), Refusal>
    ensures { result_err result ≡ symbol_name_refusal tables.now.file.bytes.now section }
{
    for at in 0..tables.entry_count() {
        if !tables.entry_names.has_name(tables.entry(at).name) {
            return Err(Refusal {
                code: BAD_NAME,
                section,
                offset: u64::from(at),
            });
        }
    }
    Ok(())
}
