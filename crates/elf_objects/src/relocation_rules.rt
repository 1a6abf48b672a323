ghost use Rattle.std.specs.Prelude.{◌≡◌, ◌≤◌, ◌<◌, ◌^◌, length};
ghost use Rattle.std.specs.Result.{result_err};
ghost use Rattle.elf_objects.specs.Headers.{section_count};
ghost use Rattle.elf_objects.specs.Rules.{is_bad_relocation};
ghost use Rattle.elf_objects.specs.FirstFaults.{in_sections, entries_refusal, relocation_refusal};

use crate::fault::{BAD_RELOCATION, Refusal};
use crate::parts::Relocation;
use crate::relocation_entry::{RELA_LEN, read_relocation, width};
use crate::section_header::content;
use crate::tables::Tables;

/// The first bad relocation.
pub fn check_relocations(tables: &Tables<'_>) -> Result<(), Refusal>
    ensures { let b = tables.now.file.bytes.now in
        result_err result ≡ in_sections b (relocation_refusal b) }
{
    for section in 0..tables.file.count {
        check_relocations_of(tables, section)?;
    }
    Ok(())
}

/// The first bad relocation, if a section is a RELA section for a loaded one.
#[tactic(auto, unfolding(crate::specs::FirstFaults::relocation_refusal, crate::specs::Relocations::is_rela))]
fn check_relocations_of(tables: &Tables<'_>, section: u32) -> Result<(), Refusal>
    requires { section < section_count tables.now.file.bytes.now }
    ensures { result_err result ≡ relocation_refusal tables.now.file.bytes.now section }
{
    if !tables.is_rela(section) {
        return Ok(());
    }
    let header = tables.file.header(section);
    check_entries(
        tables,
        section,
        content(tables.file.bytes, &header),
        header.info,
    )
}

/// The first bad relocation among the entries of a section for a target.
#[tactic(auto, unfolding(crate::specs::FirstFaults::entries_refusal))]
fn check_entries(
    tables: &Tables<'_>,
    section: u32,
    entries: &[u8],
    target: u32,
) -> Result<(), Refusal>
    requires target { target < section_count tables.now.file.bytes.now }
    requires small { length entries.now ≤ 2 ^ 24 }
    ensures { let b = tables.now.file.bytes.now in
        result_err result ≡ entries_refusal b section entries.now target }
{
    for at in 0..entries.len() / RELA_LEN {
        if is_bad_relocation(tables, target, &read_relocation(entries, RELA_LEN * at)) {
            return Err(Refusal {
                code: BAD_RELOCATION,
                section,
                offset: at as u64,
            });
        }
    }
    Ok(())
}

fn is_bad_relocation(tables: &Tables<'_>, target: u32, relocation: &Relocation) -> bool
    requires { target < section_count tables.now.file.bytes.now }
    ensures { result ≡ is_bad_relocation tables.now.file.bytes.now target relocation.now }
{
    let size = tables.file.header(target).size;
    let width = width(relocation.kind);
    tables.symbol_count() <= relocation.symbol || size < width || size - width < relocation.offset
}
