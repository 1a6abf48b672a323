//! Containers of one instruction, by their bytes.

ghost use Rattle.std.specs.Prelude.{◌≤◌, length};

use std::alloc::AllocError;

/// Adds the length of a program and the program, whose code has one instruction and a `fallthrough` after it. It has no
/// jump table.
pub(crate) fn push_program(bytes: &mut Vec<u8>, instr: &[u8]) -> Result<(), AllocError>
    requires { length instr.now ≤ 10 }
{
    let len = instr.len();
    let mask_len = if len < 8 { 1 } else { 2 };
    bytes.extend_from_slice(&[(len + 4 + mask_len) as u8, 0, 0, 0])?;
    bytes.extend_from_slice(&[0, 1, (len + 1) as u8])?;
    bytes.extend_from_slice(instr)?;
    bytes.push(1)?;
    let mask = 1u32 | 1 << len;
    bytes.extend_from_slice(&mask.to_le_bytes()[..mask_len])
}
