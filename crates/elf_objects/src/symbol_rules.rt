ghost use Rattle.std.specs.Prelude.{◌≡◌, ◌<◌};
ghost use Rattle.std.specs.Result.{result_err};
ghost use Rattle.elf_objects.specs.Symbols.{symbol_entry_count};
ghost use Rattle.elf_objects.specs.Rules.{is_bad_symbol, is_out_of_range};
ghost use Rattle.elf_objects.specs.FirstFaults.{in_sections, symbol_refusal};

use crate::fault::{BAD_SYMBOL, Refusal};
use crate::parts::SymbolIndex;
use crate::symbol_entry::index_of;
use crate::tables::Tables;

/// The largest number of a binding, that of WEAK.
const MAX_BINDING: u8 = 2;

/// The largest number of a symbol's type, that of FILE.
const MAX_TYPE: u8 = 4;

/// The first bad symbol.
pub fn check_symbols(tables: &Tables<'_>) -> Result<(), Refusal>
    ensures { let b = tables.now.file.bytes.now in
        result_err result ≡ in_sections b (symbol_refusal b) }
{
    for section in 0..tables.file.count {
        check_symbols_of(tables, section)?;
    }
    Ok(())
}

/// The first bad symbol, if a section is the symbol table.
#[tactic(auto, unfolding(crate::specs::FirstFaults::symbol_refusal))]
fn check_symbols_of(tables: &Tables<'_>, section: u32) -> Result<(), Refusal>
    ensures { result_err result ≡ symbol_refusal tables.now.file.bytes.now section }
{
    if !tables.is_symbol_table(section) {
        return Ok(());
    }
    for at in 0..tables.entry_count() {
        if is_bad_symbol(tables, at) {
            return Err(Refusal {
                code: BAD_SYMBOL,
                section,
                offset: u64::from(at),
            });
        }
    }
    Ok(())
}

#[tactic(auto, unfolding(crate::specs::Rules::is_bad_symbol))]
fn is_bad_symbol(tables: &Tables<'_>, at: u32) -> bool
    requires { at < symbol_entry_count tables.now.file.bytes.now }
    ensures { result ≡ is_bad_symbol tables.now.file.bytes.now at }
{
    let symbol = tables.entry(at);
    at != 0
        && (symbol.info / 16 > MAX_BINDING
            || symbol.info % 16 > MAX_TYPE
            || (symbol.info / 16 == 0 && symbol.index == 0)
            || is_out_of_range(tables, index_of(symbol.index), symbol.value))
}

/// Whether a symbol is in a section that isn't there, or past the end of a loaded one.
fn is_out_of_range(tables: &Tables<'_>, index: SymbolIndex, value: u64) -> bool
    ensures { result ≡ is_out_of_range tables.now.file.bytes.now index value }
{
    match index {
        SymbolIndex::Section(section) => {
            tables.file.count <= section
                || (tables.is_loaded(section) && tables.file.header(section).size < value)
        }
        _ => false,
    }
}
