ghost use Rattle.std.specs.Prelude.{◌≡◌};
ghost use Rattle.symbols.specs.declared.fault.SymbolFault.TheVariants.{Memory};

use elf_objects::Fault;
use std::alloc::AllocError;

/// The code of a COMMON symbol, which has no section.
pub const COMMON: u8 = 9;

/// The code of a GLOBAL definition of a name that an earlier symbol defines as GLOBAL.
pub const DUPLICATE: u8 = 10;

/// The code of a GLOBAL symbol that a relocation names and that nothing defines or imports.
pub const UNDEFINED: u8 = 11;

/// The code of an entry whose name has no definition.
pub const ENTRY_MISSING: u8 = 12;

/// The code of an entry whose definition is no place of an instruction.
pub const ENTRY_NOT_CODE: u8 = 13;

/// Why names aren't resolved.
#[derive(Clone, Copy, Debug, PartialEq, Eq)]
pub enum SymbolFault {
    /// The objects and wanted names have a fault, of which this is the first.
    Bad(Fault),
    /// An allocation failed.
    Memory,
}

impl From<AllocError> for SymbolFault {
    ghost from_gives = { λ _ fault. fault ≡ Memory };

    fn from(_: AllocError) -> Self {
        SymbolFault::Memory
    }
}
