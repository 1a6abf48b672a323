ghost use Rattle.std.specs.Prelude.{◌≡◌};
ghost use Rattle.elf_objects.specs.declared.fault.ObjectFault.TheVariants.{Memory};

use std::alloc::AllocError;

/// Why a command is refused, and where. `docs/faults.md` says what the fields hold for each code.
#[derive(Clone, Copy, Debug, PartialEq, Eq)]
pub struct Fault {
    /// The number of the kind of fault, from 1 to 61.
    pub code: u8,
    /// The number, from 0, of the object in the order of the link, of an entry, or of a file in the order of reading. 0 for
    /// a fault of none of these.
    pub object: u32,
    /// The number of the section in the object, from 0. 0 for a fault of no section.
    pub section: u32,
    /// An offset in bytes in the section or the file, or the number of a symbol, relocation, entry or line. 0 for a fault
    /// of none of these.
    pub offset: u64,
}

/// The code of a file that isn't ELF of 64 bits with the lowest byte first.
pub const NOT_ELF: u8 = 1;

/// The code of a file that isn't a relocatable object for RISC-V.
pub const WRONG_KIND: u8 = 2;

/// The code of an object that isn't for RV64EM.
pub const WRONG_FLAGS: u8 = 3;

/// The code of a table of the file that isn't whole.
pub const BAD_TABLE: u8 = 4;

/// The code of a section or symbol without a name.
pub const BAD_NAME: u8 = 5;

/// The code of a symbol that isn't valid.
pub const BAD_SYMBOL: u8 = 6;

/// The code of a relocation that isn't valid.
pub const BAD_RELOCATION: u8 = 7;

/// The code of a section of a form that isn't supported.
pub const UNSUPPORTED_SECTION: u8 = 8;

/// Why an object isn't read.
#[derive(Clone, Copy, Debug, PartialEq, Eq)]
pub enum ObjectFault {
    /// The bytes are no object that is accepted.
    Bad(Fault),
    /// An allocation failed.
    Memory,
}

impl From<AllocError> for ObjectFault {
    ghost from_gives = { λ _ fault. fault ≡ Memory };

    fn from(_: AllocError) -> Self {
        ObjectFault::Memory
    }
}

/// A fault of a file whose number in the link isn't known.
#[derive(Clone, Copy, Debug, PartialEq, Eq)]
pub struct Refusal {
    /// The number of the fault's kind, from 1 to 8.
    pub code: u8,
    /// The section's number, and 0 for the file as a whole.
    pub section: u32,
    /// The number of the symbol or relocation in the section, and 0 for the section as a whole.
    pub offset: u64,
}
