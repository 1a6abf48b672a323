ghost use Rattle.std.specs.Prelude.{◌≡◌, ◌≤◌, ◌+◌, length};
ghost use Rattle.elf_objects.specs.Relocations.{relocation_in};
ghost use Rattle.elf_objects.specs.Widths.{width};

use crate::little_endian::{read_32, read_64};
use crate::parts::Relocation;

/// The length of an entry of a RELA section in bytes.
pub const RELA_LEN: usize = 24;

/// The relocation at an offset.
#[tactic(auto, unfolding(crate::specs::Relocations::relocation_in))]
pub fn read_relocation(entries: &[u8], at: usize) -> Relocation
    requires { at + 24 ≤ length entries.now }
    ensures { result ≡ relocation_in entries.now at }
{
    Relocation {
        offset: read_64(entries, at),
        kind: read_32(entries, at + 8),
        symbol: read_32(entries, at + 12),
        addend: read_64(entries, at + 16).cast_signed(),
    }
}

/// How many bytes a relocation of a type changes.
pub fn width(kind: u32) -> u64
    ensures { result ≡ width kind }
{
    match kind {
        18 | 19 | 2 | 36 | 40 => 8,
        0 | 51 | 43 => 0,
        33 | 37 => 1,
        34 | 38 => 2,
        _ => 4,
    }
}
