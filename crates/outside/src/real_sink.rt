ghost use Rattle.std.specs.Prelude.{◌≡◌, OnOk, OnErr};
ghost use Rattle.std.specs.Io.KnownBytes.{Appends};
ghost use Rattle.outside.specs.Outside.{AppendsPrefix, HasCause};

use crate::folder::Failed;
use crate::sink::Sink;
use crate::transfer::write_whole;
use std::io::Write;

/// A writer of the system, as a standard stream. Its bytes aren't known to contracts.
///
/// Each piece goes to the writer at once, and nothing is flushed: a writer that keeps bytes back
/// may lose them.
#[derive(Drop)]
pub struct RealSink<W: Write> {
    writer: W,
    faults: u64,
}

impl<W: Write> RealSink<W> {
    ghost use Rattle.outside.specs.Real.{writer_of, faults_of};

    /// Puts to this writer. No call has failed yet.
    pub fn new(writer: W) -> Self
        ensures writer { writer_of result ≡ writer }
        ensures faults { faults_of result ≡ 0 }
    {
        RealSink { writer, faults: 0 }
    }
}

impl<W: Write> Sink for RealSink<W> {
    ghost use Rattle.std.specs.Prelude.{None};
    ghost use Rattle.outside.specs.Real.{writer_of, faults_of};

    ghost bytes = { λ _. None };

    ghost faults = { faults_of };

    /// Fails where the writer does, or takes nothing of what is left.
    fn put(&mut self, piece: &[u8]) -> Result<(), Failed>
        ensures ok { OnOk result (Appends (W.contents (writer_of self.old)) (W.contents (writer_of self.new)) piece.now) }
        ensures err { OnErr result (AppendsPrefix (W.contents (writer_of self.old)) (W.contents (writer_of self.new)) piece.now) }
        ensures cause { HasCause (faults_of self.old) (faults_of self.new) result }
    {
        let answer = write_whole(&mut self.writer, piece);
        if answer.is_err() {
            self.faults = self.faults.saturating_add(1);
        }
        answer
    }
}
