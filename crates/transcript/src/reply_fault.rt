ghost use Rattle.std.specs.Prelude.{◌≡◌};
ghost use Rattle.transcript.specs.declared.reply_fault.ReplyFault.TheVariants.{Memory};

use std::alloc::AllocError;

/// Why bytes are not read as replies.
#[derive(Clone, Copy, Debug, PartialEq, Eq)]
pub enum ReplyFault {
    /// The line with this number, counted from 1, is no reply.
    BadLine(u32),
    /// An allocation failed.
    Memory,
}

impl From<AllocError> for ReplyFault {
    ghost from_gives = { λ _ fault. fault ≡ Memory };

    fn from(_: AllocError) -> ReplyFault {
        ReplyFault::Memory
    }
}
