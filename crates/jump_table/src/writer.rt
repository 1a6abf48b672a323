ghost use Rattle.std.specs.Prelude.{◌≡◌, ◌*◌, ◌/◌, ◌<◌, [], length, replicate, false, IsTrue, IfOk, OnOk};
ghost use Rattle.pvm_ops.specs.Listing.{packed};
ghost use Rattle.pvm_ops.specs.Opcodes.{is_known};
ghost use Rattle.pvm_ops.specs.Spelling.{spelling, IsEncodable};
ghost use Rattle.jump_table.specs.Assembling.{with_mark, with_word};

use pvm_ops::{Bytes8, Instr, encode_into};
use std::alloc::{AllocError, Global};
use std::marker::Model;

/// Code that grows at its end, beside a mask for all the bytes that it is going to have.
#[derive(Drop)]
pub(crate) struct Writer {
    bytes: Bytes8,
    mask: Vec<u8>,
}

impl Model for Writer {
    ghost use Rattle.pvm_ops.specs.Listing.{Listing};

    ghost Value = { Listing };

    ghost view = { λ w. record { bytes = w.bytes; mask = w.mask.items } };
}

impl Writer {
    /// No bytes, and a mask without marks for the given number of bytes.
    pub(crate) fn new(alloc: Global, size: u32) -> Result<Writer, AllocError>
        ensures { IfOk result (λ writer. writer ≡ record { bytes = []; mask = packed (replicate size false) }) }
    {
        Ok(Writer {
            bytes: Bytes8::new(alloc),
            mask: vec![in alloc; 0; size.div_ceil(8) as usize]?,
        })
    }

    /// How many bytes there are.
    pub(crate) fn len(&self) -> usize
        ensures { result ≡ length self.now.bytes }
    {
        self.bytes.len()
    }

    /// Adds an instruction at the end, with an offset of `len` bytes, and a mark at its first byte.
    pub(crate) fn place(&mut self, instr: &Instr, len: u8) -> Result<(), AllocError>
        requires known { IsTrue (is_known instr.now.op) }
        requires encodable { IsEncodable instr.now len }
        requires room { length self.old.bytes < 8 * length self.old.mask }
        ensures { OnOk result (self.new ≡ with_word self.old (spelling instr.now len)) }
    {
        let start = self.bytes.len();
        encode_into(instr, len, &mut self.bytes)?;
        set_mark(&mut self.mask, start);
        Ok(())
    }

    /// The bytes and the mask.
    pub(crate) fn into_parts(self) -> (Bytes8, Vec<u8>)
        ensures bytes { result.0 ≡ self.bytes }
        ensures mask { result.1.items ≡ self.mask }
    {
        (self.bytes, self.mask)
    }
}

/// Sets the mark of a position.
fn set_mark(mask: &mut Vec<u8>, at: usize)
    requires { at < 8 * length mask.old.items }
    ensures { mask.new.items ≡ with_mark at mask.old.items }
{
    mask[at / 8] |= 1 << (at % 8);
}
