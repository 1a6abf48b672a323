ghost use Rattle.std.specs.Prelude.{◌≡◌, ◌⊎◌, ◌↔◌, ◌++◌, ◌∷◌, [], None, Some, length, IsTrue, IsErr, IsErrOf, OnOk, OnErr, if◌then◌else◌};
ghost use Rattle.std.specs.List.{position};
ghost use Rattle.std.specs.Str.{bytes_eq};
ghost use Rattle.std.specs.Option.{option_copied};
ghost use Rattle.std.specs.FinMap as map;
ghost use Rattle.outside.specs.Outside.{next_count, ReadsContent, ReadCause, HasCause};
ghost use Rattle.outside.specs.Calls.{is_listed, counted};
ghost use Rattle.outside.specs.Memory.{content_of, room_of, with_content, with_room, LacksRoom};

use crate::bytes::Bytes;
use crate::calls::Calls;
use crate::folder::{Failed, Folder, ReadFault};
use crate::memory_file::MemoryFile;
use std::alloc::{AllocError, Global};
use std::marker::Model;

/// A folder in memory, in which calls can be made to fail. Reads and writes are numbered together, in
/// the order in which they are made; no other call has a number.
///
/// A write takes no memory: it goes into room that was made for its name before.
#[derive(Debug, Drop)]
pub struct MemoryFolder {
    alloc: Global,
    files: Vec<MemoryFile>,
    calls: Calls,
    read_faults: u64,
    write_faults: u64,
}

impl Model for MemoryFolder {
    ghost use Rattle.std.specs.FinMap as map;
    ghost use Rattle.outside.specs.Memory.{FolderState, folder_code};

    ghost Value = { FolderState };

    ghost coded = { folder_code };

    ghost view = { λ f. record { slots = map.from_entries f.files.items; calls = f.calls; read_faults = f.read_faults; write_faults = f.write_faults } };
}

impl MemoryFolder {
    /// A folder without files. It takes no memory.
    pub fn new(alloc: Global) -> MemoryFolder
        ensures { result ≡ record { slots = map.empty; calls = record { made = 0; failing = [] }; read_faults = 0; write_faults = 0 } }
    {
        MemoryFolder {
            alloc,
            files: Vec::new(alloc),
            calls: Calls::new(alloc),
            read_faults: 0,
            write_faults: 0,
        }
    }

    /// Makes these bytes what the name holds, whether it was there or not.
    pub fn add(&mut self, name: &str, bytes: &[u8]) -> Result<(), AllocError>
        ensures ok { OnOk result (self.new ≡ with_content self.old name.now bytes.now) }
        ensures err { OnErr result (self.new ≡ self.old) }
    {
        if let Some(at) = position(&self.files, name) {
            return self.files[at].set_content(bytes);
        }
        let mut file = MemoryFile::new(self.alloc, name)?;
        file.set_content(bytes)?;
        self.files.push(file)?;
        Ok(())
    }

    /// Lets every later write of the name have up to `len` bytes, and no longer as many as an
    /// earlier call let it. What the name holds stays.
    pub fn room(&mut self, name: &str, len: u32) -> Result<(), AllocError>
        ensures ok { OnOk result (self.new ≡ with_room self.old name.now len) }
        ensures err { OnErr result (self.new ≡ self.old) }
    {
        if let Some(at) = position(&self.files, name) {
            return self.files[at].set_room(len);
        }
        let mut file = MemoryFile::new(self.alloc, name)?;
        file.set_room(len)?;
        self.files.push(file)?;
        Ok(())
    }

    /// Makes the read or write of this number fail. The first is number 0.
    pub fn fail(&mut self, call: u64) -> Result<(), AllocError>
        ensures ok { OnOk result (self.new ≡ record self.old { calls = record self.old.calls { failing = self.old.calls.failing ++ call ∷ [] } }) }
        ensures err { OnErr result (self.new ≡ self.old) }
    {
        self.calls.fail(call)
    }

    /// What the name holds. None exactly where it isn't there.
    pub fn file(&self, name: &str) -> Option<&[u8]>
        ensures { option_copied result ≡ content_of self.now name.now }
    {
        match position(&self.files, name) {
            Some(at) => self.files[at].content(),
            None => None,
        }
    }

    /// Makes these bytes what the name holds, in the room that it was given.
    fn replace(&mut self, name: &str, bytes: &[u8]) -> Result<(), Failed>
        ensures fails { IsErr result ↔ LacksRoom (room_of self.old name.now) (length bytes.now) }
        ensures ok { OnOk result (self.new ≡ with_content self.old name.now bytes.now) }
        ensures err { OnErr result (self.new ≡ self.old) }
    {
        match position(&self.files, name) {
            Some(at) => self.files[at].write(bytes),
            None => Err(Failed),
        }
    }
}

impl Folder for MemoryFolder {
    ghost use Rattle.std.specs.Prelude.{Some};
    ghost use Rattle.outside.specs.Memory.{content_of};

    ghost files = { λ f. Some (content_of f) };

    ghost read_faults = { λ f. f.read_faults };

    ghost write_faults = { λ f. f.write_faults };

    /// Fails if the call was made to fail, and if the name isn't there.
    fn read(&mut self, alloc: Global, name: &str, limit: u32) -> Result<Bytes, ReadFault>
        ensures fails { IsErrOf result ReadFault.Failed ↔ (IsTrue (is_listed self.old.calls) ⊎ (content_of self.old name.now ≡ None)) }
        ensures answer { ReadsContent (content_of self.old name.now) limit result }
        ensures after { self.new ≡ record self.old { calls = counted self.old.calls; read_faults = if is_listed self.old.calls then next_count self.old.read_faults else self.old.read_faults } }
        ensures cause { ReadCause (Some (content_of self.old)) name.now self.old.read_faults self.new.read_faults result }
    {
        if self.calls.begin() {
            self.read_faults = self.read_faults.saturating_add(1);
            return Err(ReadFault::Failed);
        }
        match self.file(name) {
            Some(content) => copied(alloc, content, limit),
            None => Err(ReadFault::Failed),
        }
    }

    /// Fails if the call was made to fail, and if the name was given no room or less than the bytes
    /// need. Then no name changes.
    fn write(&mut self, name: &str, bytes: &[u8]) -> Result<(), Failed>
        ensures fails { IsErr result ↔ (IsTrue (is_listed self.old.calls) ⊎ LacksRoom (room_of self.old name.now) (length bytes.now)) }
        ensures ok { OnOk result (self.new ≡ record (with_content self.old name.now bytes.now) { calls = counted self.old.calls }) }
        ensures err { OnErr result (self.new ≡ record self.old { calls = counted self.old.calls; write_faults = next_count self.old.write_faults }) }
        ensures cause { HasCause self.old.write_faults self.new.write_faults result }
    {
        if self.calls.begin() || self.replace(name, bytes).is_err() {
            self.write_faults = self.write_faults.saturating_add(1);
            return Err(Failed);
        }
        Ok(())
    }
}

/// The position of the first file of this name.
fn position(files: &[MemoryFile], name: &str) -> Option<usize>
    ensures { result ≡ position (λ file. bytes_eq name.now file.0) files.now }
{
    files.iter().position(|file| name.as_bytes() == file.name())
}

/// The bytes in a list of their own, where they are within the limit.
fn copied(alloc: Global, content: &[u8], limit: u32) -> Result<Bytes, ReadFault>
    ensures answer { ReadsContent (Some content.now) limit result }
    ensures served { ¬ (IsErrOf result ReadFault.Failed) }
{
    if content.len() > limit as usize {
        return Err(ReadFault::TooLarge);
    }
    let mut bytes = Bytes::new(alloc);
    bytes.append(content)?;
    Ok(bytes)
}
