ghost use Rattle.std.specs.Prelude.{ℕ, List, Option, OnOk, OnErr};
ghost use Rattle.std.specs.Io.KnownBytes.{Appends};
ghost use Rattle.outside.specs.Outside.{AppendsPrefix, HasCause};

use crate::folder::Failed;

/// Something that takes bytes, in order.
///
/// A sink means the list of the bytes that were put, if they are known, and a count of faults that
/// never falls. The count is kept in a `u64`, and stays at that type's last value once it is there.
pub trait Sink {
    /// The bytes that were put. None if they aren't known.
    ghost bytes: { Self → Option (List ℕ) };

    /// How many calls the outside has failed.
    ghost faults: { Self → ℕ };

    /// Appends the whole piece to what was put before. If the call fails, a prefix of the piece was
    /// appended.
    fn put(&mut self, piece: &[u8]) -> Result<(), Failed>
        ensures ok { OnOk result (Appends (bytes self.old) (bytes self.new) piece.now) }
        ensures err { OnErr result (AppendsPrefix (bytes self.old) (bytes self.new) piece.now) }
        ensures cause { HasCause (faults self.old) (faults self.new) result };
}
