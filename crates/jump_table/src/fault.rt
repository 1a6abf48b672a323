ghost use Rattle.std.specs.Prelude.{◌≡◌};
ghost use Rattle.jump_table.specs.declared.fault.AssembleFault.TheVariants.{Memory};

use std::alloc::AllocError;

/// Why blocks have no code.
#[derive(Clone, Copy, Debug, PartialEq, Eq)]
pub enum AssembleFault {
    /// The code would have more than 2^25 bytes.
    TooLarge,
    /// An allocation failed.
    Memory,
}

impl From<AllocError> for AssembleFault {
    ghost from_gives = { λ _ fault. fault ≡ Memory };

    fn from(_: AllocError) -> Self {
        AssembleFault::Memory
    }
}
