//! Why what a file holds isn't run.

ghost use Rattle.std.specs.Prelude.{◌≡◌};
ghost use Rattle.polkatool_cmd.specs.declared.run_fault.RunFault.TheVariants.{Bad, Memory};
ghost use Rattle.polkatool_cmd.specs.BlobFaults.{no_container};

use crate::blob::no_container;
use blob_codec::BlobFault;
use elf_objects::Fault;
use std::alloc::AllocError;

/// Why the program of a file isn't run.
#[derive(Clone, Copy, Debug, PartialEq, Eq)]
pub(crate) enum RunFault {
    /// The file has this fault.
    Bad(Fault),
    /// An allocation failed.
    Memory,
}

impl From<BlobFault> for RunFault {
    ghost from_gives = { λ found fault. fault ≡ Bad (no_container found) };

    fn from(fault: BlobFault) -> RunFault {
        RunFault::Bad(no_container(fault))
    }
}

impl From<AllocError> for RunFault {
    ghost from_gives = { λ _ fault. fault ≡ Memory };

    fn from(_: AllocError) -> RunFault {
        RunFault::Memory
    }
}
