ghost use Rattle.std.specs.Prelude.{◌≡◌};
ghost use Rattle.link_core.specs.declared.link_fault.LinkFault.TheVariants.{Memory};
ghost use Rattle.link_core.specs.LinkFaults.{of_object, of_symbols, of_layout, of_code, of_data};

use elf_objects::{Fault, ObjectFault};
use layout::LayoutFault;
use lift_blocks::LiftFault;
use relocs::RelocFault;
use std::alloc::AllocError;
use symbols::SymbolFault;
use thiserror::Error;

/// Why objects aren't linked.
#[derive(Clone, Copy, Debug, PartialEq, Eq, Error)]
pub enum LinkFault {
    /// The objects and wanted names have a fault, of which this is the first.
    #[error("the objects have a fault")]
    Bad(Fault),
    /// An allocation failed.
    #[error("out of memory")]
    Memory,
}

impl From<AllocError> for LinkFault {
    ghost from_gives = { λ _ fault. fault ≡ Memory };

    fn from(_: AllocError) -> LinkFault {
        LinkFault::Memory
    }
}

impl From<ObjectFault> for LinkFault {
    ghost from_gives = { λ object_fault fault. fault ≡ of_object object_fault };

    fn from(fault: ObjectFault) -> LinkFault {
        match fault {
            ObjectFault::Bad(fault) => LinkFault::Bad(fault),
            ObjectFault::Memory => LinkFault::Memory,
        }
    }
}

impl From<SymbolFault> for LinkFault {
    ghost from_gives = { λ symbol_fault fault. fault ≡ of_symbols symbol_fault };

    fn from(fault: SymbolFault) -> LinkFault {
        match fault {
            SymbolFault::Bad(fault) => LinkFault::Bad(fault),
            SymbolFault::Memory => LinkFault::Memory,
        }
    }
}

impl From<LayoutFault> for LinkFault {
    ghost from_gives = { λ layout_fault fault. fault ≡ of_layout layout_fault };

    fn from(fault: LayoutFault) -> LinkFault {
        match fault {
            LayoutFault::Bad(fault) => LinkFault::Bad(fault),
            LayoutFault::Memory => LinkFault::Memory,
        }
    }
}

impl From<LiftFault> for LinkFault {
    ghost from_gives = { λ lift_fault fault. fault ≡ of_code lift_fault };

    fn from(fault: LiftFault) -> LinkFault {
        match fault {
            LiftFault::Bad(fault) => LinkFault::Bad(fault),
            LiftFault::Memory => LinkFault::Memory,
        }
    }
}

impl From<RelocFault> for LinkFault {
    ghost from_gives = { λ data_fault fault. fault ≡ of_data data_fault };

    fn from(fault: RelocFault) -> LinkFault {
        match fault {
            RelocFault::Bad(fault) => LinkFault::Bad(fault),
            RelocFault::Memory => LinkFault::Memory,
        }
    }
}
