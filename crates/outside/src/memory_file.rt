ghost use Rattle.std.specs.Prelude.{◌≡◌, ◌↔◌, None, Some, length, IsErr, OnOk, OnErr, IfOk};
ghost use Rattle.outside.specs.Memory.{LacksRoom};
ghost use Rattle.std.specs.Option.{option_copied};

use crate::folder::Failed;
use std::alloc::{AllocError, Global};
use std::marker::Model;

/// A name with what it holds, where it is there, and the room that it was given.
#[derive(Debug, Drop)]
pub(crate) struct MemoryFile {
    name: Vec<u8>,
    is_there: bool,
    content: Vec<u8>,
    room: Option<u32>,
}

impl Model for MemoryFile {
    ghost use Rattle.std.specs.Prelude.{◌≤◌, ℕ, List, Some, None, vec_capacity, if◌then◌else◌};
    ghost use Rattle.std.specs.Option.{ForSome};
    ghost use Rattle.outside.specs.Memory.{Slot};

    ghost Value = { List ℕ × Slot };

    ghost view = { λ f. (f.name.items, record { content = if f.is_there then Some f.content.items else None; room = f.room }) };

    ghost invariant = { λ f. ForSome f.room (λ room. room ≤ vec_capacity f.content) };
}

impl MemoryFile {
    /// A name that isn't there and has no room.
    pub(crate) fn new(alloc: Global, name: &str) -> Result<MemoryFile, AllocError>
        ensures { IfOk result (λ file. file ≡ (name.now, record { content = None; room = None })) }
    {
        let mut bytes = Vec::new(alloc);
        bytes.extend_from_slice(name.as_bytes())?;
        Ok(MemoryFile {
            name: bytes,
            is_there: false,
            content: Vec::new(alloc),
            room: None,
        })
    }

    pub(crate) fn name(&self) -> &[u8]
        ensures { result.now ≡ self.now.0 }
    {
        self.name.as_slice()
    }

    /// What the name holds. None where it isn't there.
    pub(crate) fn content(&self) -> Option<&[u8]>
        ensures { option_copied result ≡ self.now.1.content }
    {
        if self.is_there {
            Some(self.content.as_slice())
        } else {
            None
        }
    }

    /// Makes these bytes what the name holds, in more memory where that is needed.
    pub(crate) fn set_content(&mut self, bytes: &[u8]) -> Result<(), AllocError>
        ensures ok { OnOk result (self.new ≡ (self.old.0, record { content = Some bytes.now; room = self.old.1.room })) }
        ensures err { OnErr result (self.new ≡ self.old) }
    {
        self.content.reserve(bytes.len())?;
        self.content.clear();
        self.content.extend_from_slice(bytes)?;
        self.is_there = true;
        Ok(())
    }

    /// Makes room for `len` bytes.
    pub(crate) fn set_room(&mut self, len: u32) -> Result<(), AllocError>
        ensures ok { OnOk result (self.new ≡ (self.old.0, record { content = self.old.1.content; room = Some len })) }
        ensures err { OnErr result (self.new ≡ self.old) }
    {
        self.content.reserve(len as usize)?;
        self.room = Some(len);
        Ok(())
    }

    /// Makes these bytes what the name holds, in the room that it was given.
    pub(crate) fn write(&mut self, bytes: &[u8]) -> Result<(), Failed>
        ensures fails { IsErr result ↔ LacksRoom self.old.1.room (length bytes.now) }
        ensures ok { OnOk result (self.new ≡ (self.old.0, record { content = Some bytes.now; room = self.old.1.room })) }
        ensures err { OnErr result (self.new ≡ self.old) }
    {
        let Some(room) = self.room else {
            return Err(Failed);
        };
        if bytes.len() > room as usize {
            return Err(Failed);
        }
        self.content.clear();
        if self.content.extend_from_slice(bytes).is_err() {
            return Err(Failed);
        }
        self.is_there = true;
        Ok(())
    }
}
