ghost use Rattle.std.specs.Prelude.{◌≡◌, ℕ, List, Option, OnOk};
ghost use Rattle.outside.specs.Outside.{Files, AnswersRead, ReadCause, AnswersWrite, KeepsOthers, HasCause};

use crate::bytes::Bytes;
use std::alloc::{AllocError, Global};

/// Why a file was not read.
#[derive(Clone, Copy, Debug, PartialEq, Eq)]
pub enum ReadFault {
    /// The name is not there, or the outside failed.
    Failed,
    /// The file has more bytes than the caller's limit.
    TooLarge,
    /// An allocation failed.
    Memory,
}

impl From<AllocError> for ReadFault {
    ghost use Rattle.std.specs.Prelude.{◌≡◌};
    ghost use Rattle.outside.specs.declared.folder.ReadFault.TheVariants.{Memory};

    ghost from_gives = { λ _ fault. fault ≡ Memory };

    fn from(_: AllocError) -> ReadFault {
        ReadFault::Memory
    }
}

/// A call that the outside failed.
#[derive(Clone, Copy, Debug, PartialEq, Eq)]
pub struct Failed;

/// Files by name.
///
/// A folder means a finite map from names to lists of bytes, if its contents are known, and two counts of
/// faults that never fall: one of its reads and one of its writes. Each count is kept in a `u64`,
/// and stays at that type's last value once it is there.
pub trait Folder {
    /// What each name holds: nothing if it is no file. None if the contents aren't known.
    ghost files: { Self → Option Files };

    /// How many reads the outside has failed.
    ghost read_faults: { Self → ℕ };

    /// How many writes the outside has failed.
    ghost write_faults: { Self → ℕ };

    /// The bytes of the file of this name, which may have at most `limit` bytes.
    fn read(&mut self, alloc: Global, name: &str, limit: u32) -> Result<Bytes, ReadFault>
        ensures answer { AnswersRead (files self.old) name.now limit result }
        ensures same { files self.new ≡ files self.old }
        ensures cause { ReadCause (files self.old) name.now (read_faults self.old) (read_faults self.new) result }
        ensures writes { write_faults self.new ≡ write_faults self.old };

    /// Makes these bytes what the name holds, whether it was there or not. Where the call fails,
    /// the name may hold anything; no other name is touched.
    fn write(&mut self, name: &str, bytes: &[u8]) -> Result<(), Failed>
        ensures answer { OnOk result (AnswersWrite (files self.new) name.now bytes.now) }
        ensures others { KeepsOthers name.now (files self.old) (files self.new) }
        ensures cause { HasCause (write_faults self.old) (write_faults self.new) result }
        ensures reads { read_faults self.new ≡ read_faults self.old };
}
