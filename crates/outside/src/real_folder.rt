ghost use Rattle.std.specs.Prelude.{◌≡◌, ◌≤◌, length, IfOk};

use crate::bytes::Bytes;
use crate::folder::{Failed, Folder, ReadFault};
use crate::transfer::{read_rest, write_whole};
use std::alloc::Global;
use std::fs;
use std::fs::OpenFile;
use std::rt::Files;

/// The files of the system, by their paths. Their contents aren't known to contracts.
#[derive(Drop)]
pub struct RealFolder<'a, R: Files> {
    rt: &'a R,
    read_faults: u64,
    write_faults: u64,
}

impl<'a, R: Files> RealFolder<'a, R> {
    ghost use Rattle.outside.specs.Real.{read_faults_of, write_faults_of};

    /// The files that this runtime reaches. No call has failed yet.
    pub fn new(rt: &'a R) -> Self
        ensures reads { read_faults_of result ≡ 0 }
        ensures writes { write_faults_of result ≡ 0 }
    {
        RealFolder {
            rt,
            read_faults: 0,
            write_faults: 0,
        }
    }
}

impl<R: Files> Folder for RealFolder<'_, R> {
    ghost use Rattle.std.specs.Prelude.{None};
    ghost use Rattle.outside.specs.Real.{read_faults_of, write_faults_of};

    ghost files = { λ _. None };

    ghost read_faults = { read_faults_of };

    ghost write_faults = { write_faults_of };

    /// Reads at most `limit + 1` bytes. Fails where the file can't be opened or read.
    fn read(&mut self, alloc: Global, name: &str, limit: u32) -> Result<Bytes, ReadFault> {
        let answer = read_file(self.rt, alloc, name, limit);
        if let Err(ReadFault::Failed) = answer {
            self.read_faults = self.read_faults.saturating_add(1);
        }
        answer
    }

    /// Makes the file where it isn't there. Fails where it can't be opened or written.
    fn write(&mut self, name: &str, bytes: &[u8]) -> Result<(), Failed> {
        let answer = write_file(self.rt, name, bytes);
        if answer.is_err() {
            self.write_faults = self.write_faults.saturating_add(1);
        }
        answer
    }
}

/// The bytes of the file of this path, of which there may be at most `limit`.
fn read_file<R: Files>(rt: &R, alloc: Global, name: &str, limit: u32) -> Result<Bytes, ReadFault>
    ensures { IfOk result (λ bytes. length bytes ≤ limit) }
{
    let Ok(mut file) = fs::open(rt, name) else {
        return Err(ReadFault::Failed);
    };
    let expected = file.metadata().map_or(0, |metadata| metadata.len());
    read_rest(&mut file, alloc, expected, limit)
}

/// Makes the file of this path hold these bytes.
fn write_file<R: Files>(rt: &R, name: &str, bytes: &[u8]) -> Result<(), Failed> {
    match fs::create(rt, name) {
        Ok(mut file) => write_whole(&mut file, bytes),
        Err(_) => Err(Failed),
    }
}
