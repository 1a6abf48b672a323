ghost use Rattle.std.specs.Prelude.{◌≡◌};
ghost use Rattle.relocs.specs.declared.fault.RelocFault.TheVariants.{Bad, Memory};

use elf_objects::Fault;
use std::alloc::AllocError;

/// The code of a word that is none of RV64EM.
pub const BAD_WORD: u8 = 20;

/// The code of a word that names a register that programs don't have.
pub const BAD_REGISTER: u8 = 21;

/// The code of a word that is `ecall`.
pub const ECALL: u8 = 22;

/// The code of a word that is a load to x0.
pub const LOAD_TO_ZERO: u8 = 23;

/// The code of an `auipc` without a relocation that gives its value or its target.
pub const AUIPC_UNRELOCATED: u8 = 24;

/// The code of a relocation that may not be where it is.
pub const WRONG_RELOCATION: u8 = 25;

/// The code of a PCREL_LO12 that names no relocated `auipc` of its section.
pub const MISSING_HIGH: u8 = 26;

/// The code of a value outside the range of its relocation.
pub const VALUE_OUT_OF_RANGE: u8 = 27;

/// The code of an address that is no place.
pub const NOT_A_PLACE: u8 = 28;

/// The code of a relocation that may not be in data.
pub const WRONG_DATA_RELOCATION: u8 = 29;

/// The code of a target that is no place.
pub const BAD_TARGET: u8 = 30;

/// The code of the second word of a pair as a target, an address or an entry.
pub const INTO_PAIR: u8 = 31;

/// Why the images of the data aren't made.
#[derive(Clone, Copy, Debug, PartialEq, Eq)]
pub enum RelocFault {
    /// The first fault of the relocations of data.
    Bad(Fault),
    /// An allocation failed.
    Memory,
}

impl From<AllocError> for RelocFault {
    ghost from_gives = { λ _ fault. fault ≡ Memory };

    fn from(_: AllocError) -> Self {
        RelocFault::Memory
    }
}

impl From<Fault> for RelocFault {
    ghost from_gives = { λ first fault. fault ≡ Bad first };

    fn from(fault: Fault) -> Self {
        RelocFault::Bad(fault)
    }
}
