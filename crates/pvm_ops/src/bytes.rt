ghost use Rattle.std.specs.Prelude.{◌≡◌, ◌++◌, ◌∷◌, [], length, take, OnOk, OnErr};

use std::alloc::{AllocError, Global};
use std::marker::Model;

/// A list of bytes that grows at its end. If an allocation fails, it stays as it was.
#[derive(Debug, Drop)]
pub struct Bytes8 {
    bytes: Vec<u8>,
}

impl Model for Bytes8 {
    ghost use Rattle.std.specs.Prelude.{ℕ, List};

    ghost Value = { List ℕ };

    ghost view = { λ b. b.bytes.items };
}

impl Bytes8 {
    /// The empty list, which takes no memory yet.
    pub fn new(alloc: Global) -> Bytes8
        ensures { result ≡ [] }
    {
        Bytes8 {
            bytes: Vec::new(alloc),
        }
    }

    /// How many bytes there are.
    pub fn len(&self) -> usize
        ensures { result ≡ length self.now }
    {
        self.bytes.len()
    }

    /// The bytes.
    pub fn as_slice(&self) -> &[u8]
        ensures { result.now ≡ self.now }
    {
        self.bytes.as_slice()
    }

    /// Adds a byte at the end.
    pub fn push(&mut self, byte: u8) -> Result<(), AllocError>
        ensures ok { OnOk result (self.new ≡ self.old ++ byte ∷ []) }
        ensures err { OnErr result (self.new ≡ self.old) }
    {
        self.bytes.push(byte)?;
        Ok(())
    }

    /// Adds some bytes at the end.
    pub fn append(&mut self, piece: &[u8]) -> Result<(), AllocError>
        ensures ok { OnOk result (self.new ≡ self.old ++ piece.now) }
        ensures err { OnErr result (self.new ≡ self.old) }
    {
        self.bytes.extend_from_slice(piece)?;
        Ok(())
    }

    /// Adds a few bytes at the end, one by one.
    #[inline(always)]
    pub(crate) fn append_few(&mut self, piece: &[u8]) -> Result<(), AllocError>
        ensures ok { OnOk result (self.new ≡ self.old ++ piece.now) }
        ensures err { OnErr result (self.new ≡ self.old) }
    {
        let before = self.bytes.len();
        for byte in piece {
            if self.bytes.push(*byte).is_err() {
                self.bytes.truncate(before);
                return Err(AllocError);
            }
        }
        Ok(())
    }

    /// Keeps the first bytes alone.
    pub(crate) fn truncate(&mut self, len: usize)
        ensures { self.new ≡ take len self.old }
    {
        self.bytes.truncate(len);
    }
}
