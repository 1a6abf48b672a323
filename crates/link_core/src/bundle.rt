ghost use Rattle.std.specs.Prelude.{◌≡◌, ◌≤◌, ◌<◌, ◌^◌, ◌+◌, ◌++◌, ◌∷◌, [], length, slice_get, Some, OnOk, OnErr};
ghost use Rattle.link_core.specs.Parts.{parts, total, start_at, Rise};

use std::alloc::{AllocError, Global};
use std::marker::Model;

/// The files of a link's objects in one buffer: at most 1,024 files of at most 2^24 bytes each, 2^26 bytes together.
/// Contracts see the list of the files' bytes.
#[derive(Debug, Drop)]
pub struct Bundle {
    bytes: Vec<u8>,
    ends: Vec<u32>,
}

impl Model for Bundle {
    ghost use Rattle.std.specs.Prelude.{ℕ, List};
    ghost use Rattle.link_core.specs.Parts.{parts, IsBundle};

    ghost Value = { List (List ℕ) };

    ghost view = { λ b. parts 0 b.ends.items b.bytes.items };

    ghost invariant = { λ b. IsBundle b.ends.items b.bytes.items };
}

impl Bundle {
    /// No files. It takes no memory.
    #[tactic(auto, unfolding(crate::specs::Parts::parts))]
    pub fn new(alloc: Global) -> Bundle
        ensures { result ≡ [] }
    {
        Bundle {
            bytes: Vec::new(alloc),
            ends: Vec::new(alloc),
        }
    }

    /// Adds a file at the end, for which there is room. If an allocation fails, the bundle is as before.
    pub fn add(&mut self, bytes: &[u8]) -> Result<(), AllocError>
        requires count { length self.old < 1024 }
        requires one { length bytes.now ≤ 2 ^ 24 }
        requires all { total self.old + length bytes.now ≤ 2 ^ 26 }
        ensures ok { OnOk result (self.new ≡ self.old ++ bytes.now ∷ []) }
        ensures err { OnErr result (self.new ≡ self.old) }
    {
        let start = len_of(&self.bytes);
        self.bytes.extend_from_slice(bytes)?;
        match self.ends.push((start + bytes.len()) as u32) {
            Ok(()) => Ok(()),
            Err(_) => {
                self.bytes.truncate(start);
                Err(AllocError)
            }
        }
    }

    /// How many files there are.
    #[tactic(auto, using(crate::proofs::PartsLaws::length_parts))]
    pub fn len(&self) -> u32
        ensures count { result ≡ length self.now }
        ensures few { result ≤ 1024 }
    {
        self.ends.len() as u32
    }

    /// The bytes of a file by its number, from 0.
    pub fn part(&self, at: u32) -> &[u8]
        requires { at < length self.now }
        ensures there { slice_get self.now at ≡ Some result.now }
        ensures len { length result.now ≤ 2 ^ 24 }
    {
        part_in(&self.bytes, &self.ends, at as usize)
    }
}

/// The file with a number in a buffer of files that end at these places.
fn part_in<'a>(bytes: &'a [u8], ends: &[u32], at: usize) -> &'a [u8]
    requires at { at < length ends.now }
    requires rise { Rise 0 ends.now (length bytes.now) }
    ensures there { slice_get (parts 0 ends.now bytes.now) at ≡ Some result.now }
    ensures len { length result.now ≤ 2 ^ 24 }
{
    let start = start_of(ends, at);
    let end = ends[at] as usize;
    &bytes[start..end]
}

/// Where the file with a number begins.
fn start_of(ends: &[u32], at: usize) -> usize
    requires { at < length ends.now }
    ensures { result ≡ start_at 0 ends.now at }
{
    if at == 0 { 0 } else { ends[at - 1] as usize }
}

fn len_of(bytes: &[u8]) -> usize
    ensures { result ≡ length bytes.now }
{
    bytes.len()
}
