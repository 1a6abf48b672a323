ghost use Rattle.std.specs.Prelude.{◌≡◌, ◌≤◌, ◌+◌, length};
ghost use Rattle.elf_objects.specs.Fields.{word_16, word_32, word_64};

use byteorder::{ByteOrder, LittleEndian};

/// The number of two bytes at an offset.
#[tactic(auto, using(crate::proofs::FieldLaws::fields), unfolding(crate::specs::Fields::word_16))]
pub fn read_16(bytes: &[u8], at: usize) -> u16
    requires { at + 2 ≤ length bytes.now }
    ensures { result ≡ word_16 bytes.now at }
{
    LittleEndian::read_u16(&bytes[at..])
}

/// The number of four bytes at an offset.
#[tactic(auto, using(crate::proofs::FieldLaws::fields), unfolding(crate::specs::Fields::word_32))]
pub fn read_32(bytes: &[u8], at: usize) -> u32
    requires { at + 4 ≤ length bytes.now }
    ensures { result ≡ word_32 bytes.now at }
{
    LittleEndian::read_u32(&bytes[at..])
}

/// The number of eight bytes at an offset.
#[tactic(auto, using(crate::proofs::FieldLaws::fields), unfolding(crate::specs::Fields::word_64))]
pub fn read_64(bytes: &[u8], at: usize) -> u64
    requires { at + 8 ≤ length bytes.now }
    ensures { result ≡ word_64 bytes.now at }
{
    LittleEndian::read_u64(&bytes[at..])
}
