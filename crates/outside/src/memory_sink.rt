ghost use Rattle.std.specs.Prelude.{◌≡◌, ◌-◌, ◌<◌, ◌↔◌, ◌⊎◌, ◌++◌, ◌∷◌, [], Some, length, IsTrue, IsErr, IfOk, OnOk, OnErr};
ghost use Rattle.outside.specs.Outside.{HasCause, next_count};
ghost use Rattle.outside.specs.Calls.{is_listed, counted};

use crate::calls::Calls;
use crate::folder::Failed;
use crate::sink::Sink;
use std::alloc::{AllocError, Global};
use std::marker::Model;

/// A sink in memory, in which calls can be made to fail, and fail where the room is used up.
#[derive(Debug, Drop)]
pub struct MemorySink {
    bytes: Vec<u8>,
    room: u32,
    calls: Calls,
    faults: u64,
}

impl Model for MemorySink {
    ghost use Rattle.std.specs.Prelude.{◌+◌, ◌≤◌, vec_len, vec_capacity};
    ghost use Rattle.outside.specs.Memory.{SinkState};

    ghost Value = { SinkState };

    ghost view = { λ s. record { bytes = s.bytes.items; room = s.room; calls = s.calls; faults = s.faults } };

    ghost invariant = { λ s. vec_len s.bytes + s.room ≤ vec_capacity s.bytes };
}

impl MemorySink {
    /// An empty sink with room for `room` bytes, which is made now: no later `put` takes memory.
    pub fn new(alloc: Global, room: u32) -> Result<MemorySink, AllocError>
        ensures { IfOk result (λ sink. sink ≡ record { bytes = []; room = room; calls = record { made = 0; failing = [] }; faults = 0 }) }
    {
        Ok(MemorySink {
            bytes: Vec::with_capacity(alloc, room as usize)?,
            room,
            calls: Calls::new(alloc),
            faults: 0,
        })
    }

    /// Makes the `put` of this number fail. The first is number 0.
    pub fn fail(&mut self, call: u64) -> Result<(), AllocError>
        ensures ok { OnOk result (self.new ≡ record self.old { calls = record self.old.calls { failing = self.old.calls.failing ++ call ∷ [] } }) }
        ensures err { OnErr result (self.new ≡ self.old) }
    {
        self.calls.fail(call)
    }

    /// The bytes that were put.
    pub fn bytes(&self) -> &[u8]
        ensures { result.now ≡ self.now.bytes }
    {
        self.bytes.as_slice()
    }
}

impl Sink for MemorySink {
    ghost bytes = { λ s. Some s.bytes };

    ghost faults = { λ s. s.faults };

    /// Fails if the call was made to fail, and if the piece has more bytes than there is room left.
    /// Then nothing is put.
    fn put(&mut self, piece: &[u8]) -> Result<(), Failed>
        ensures fails { IsErr result ↔ (IsTrue (is_listed self.old.calls) ⊎ (self.old.room < length piece.now)) }
        ensures ok { OnOk result (self.new ≡ record self.old { bytes = self.old.bytes ++ piece.now; room = self.old.room - length piece.now; calls = counted self.old.calls }) }
        ensures err { OnErr result (self.new ≡ record self.old { calls = counted self.old.calls; faults = next_count self.old.faults }) }
        ensures cause { HasCause self.old.faults self.new.faults result }
    {
        let is_listed = self.calls.begin();
        if is_listed
            || piece.len() > self.room as usize
            || self.bytes.extend_from_slice(piece).is_err()
        {
            self.faults = self.faults.saturating_add(1);
            return Err(Failed);
        }
        self.room -= piece.len() as u32;
        Ok(())
    }
}
