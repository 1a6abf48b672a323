ghost use Rattle.std.specs.Prelude.{◌≡◌, ◌++◌, ◌^◌, ◌<◌, ◌≤◌, OnOk, IfOk, length};
ghost use Rattle.std.specs.List.{flat_map};
ghost use Rattle.numbers.specs.Bytes.{little};
ghost use Rattle.blob_codec.specs.Grammar.{program_with, program_bytes, IsProgram, spelled_container, HoldsProgram};

use crate::naturals_out::{put_low_bytes, put_natural};
use pvm_ops::Bytes8;
use std::alloc::{AllocError, Global};

/// The parts of a container, with the program as its bytes.
#[derive(Clone, Copy, Debug)]
pub struct Parts<'a> {
    /// The bytes of read-only data, fewer than 2^24.
    pub read_only: &'a [u8],
    /// The bytes that writable data begins with, fewer than 2^24.
    pub writable: &'a [u8],
    /// How many zero pages of 4096 bytes follow the writable data, below 2^16.
    pub zero_pages: u32,
    /// The size of the stack in bytes, below 2^24.
    pub stack: u32,
    /// The bytes of a program, fewer than 2^32.
    pub program: &'a [u8],
}

/// The bytes of a program: its jump table with the width of an entry in bytes, its code, and the mask of the code.
///
/// # Errors
/// An allocation failed.
pub fn write_program(
    alloc: Global,
    table: &[u32],
    width: u8,
    code: &[u8],
    mask: &[u8],
) -> Result<Bytes8, AllocError>
    requires { IsProgram (program_with table.now width code.now mask.now) }
    ensures spelled { IfOk result (λ bytes. bytes ≡ program_bytes (program_with table.now width code.now mask.now)) }
    ensures program { IfOk result HoldsProgram }
{
    let mut out = Bytes8::new(alloc);
    put_natural(table.len() as u64, &mut out)?;
    out.push(width)?;
    put_natural(code.len() as u64, &mut out)?;
    put_table(table, width, &mut out)?;
    out.append(code)?;
    out.append(mask)?;
    Ok(out)
}

/// The bytes of a container.
///
/// # Errors
/// An allocation failed.
pub fn write_container(alloc: Global, parts: &Parts<'_>) -> Result<Bytes8, AllocError>
    requires read_only { length parts.now.read_only.now < 2 ^ 24 }
    requires writable { length parts.now.writable.now < 2 ^ 24 }
    requires zero_pages { parts.now.zero_pages < 2 ^ 16 }
    requires stack { parts.now.stack < 2 ^ 24 }
    requires program_len { length parts.now.program.now < 2 ^ 32 }
    requires program { HoldsProgram parts.now.program.now }
    ensures { let p = parts.now in
        IfOk result
        (λ bytes. bytes ≡ spelled_container p.read_only.now p.writable.now p.zero_pages p.stack p.program.now) }
{
    let mut out = Bytes8::new(alloc);
    put_low_bytes(parts.read_only.len() as u64, 3, &mut out)?;
    put_low_bytes(parts.writable.len() as u64, 3, &mut out)?;
    put_low_bytes(u64::from(parts.zero_pages), 2, &mut out)?;
    put_low_bytes(u64::from(parts.stack), 3, &mut out)?;
    out.append(parts.read_only)?;
    out.append(parts.writable)?;
    put_low_bytes(parts.program.len() as u64, 4, &mut out)?;
    out.append(parts.program)?;
    Ok(out)
}

/// Appends the entries of a jump table, each in the width.
fn put_table(table: &[u32], width: u8, out: &mut Bytes8) -> Result<(), AllocError>
    requires { width ≤ 8 }
    ensures { OnOk result (out.new ≡ out.old ++ flat_map (little width) table.now) }
{
    for entry in table {
        put_low_bytes(u64::from(*entry), width, out)?;
    }
    Ok(())
}
