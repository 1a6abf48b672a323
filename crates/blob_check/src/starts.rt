ghost use Rattle.std.specs.Prelude.{◌≡◌, ◌<◌, true, length, slice_index};
ghost use Rattle.pvm_ops.specs.Listing.{is_marked};
ghost use Rattle.blob_check.specs.Starts.{is_terminator, leads, any_below, is_start};

use pvm_ops::{Code, known};

/// Whether a block starts at a position of the code, so that a jump may lead there: an instruction of a known opcode is
/// marked at it, and the position is 0 or follows an instruction that ends a block.
///
/// The position may be any number. At most the 25 marks before it are looked at, and no memory is taken.
pub fn is_start(code: &Code<'_>, at: u64) -> bool
    ensures { result ≡ is_start code.now at }
{
    if !code.marked(at) || !known(opcode(code, at)) {
        return false;
    }
    at == 0 || follows(code, at)
}

/// The opcode of the instruction that is marked at a position.
pub(crate) fn opcode(code: &Code<'_>, at: u64) -> u8
    requires { is_marked code.now at ≡ true }
    ensures { result ≡ slice_index code.now.bytes at }
{
    code.bytes()[at as usize]
}

/// Whether an instruction that ends a block is right before a marked position. Only the nearest mark can be its own.
fn follows(code: &Code<'_>, at: u64) -> bool
    requires { is_marked code.now at ≡ true }
    ensures { result ≡ any_below (leads code.now at) at }
{
    match code.mark_before(at) {
        Some(from) => is_terminator(opcode(code, from)),
        None => false,
    }
}

/// Whether instructions of the opcode end a block.
pub(crate) fn is_terminator(op: u8) -> bool
    ensures { result ≡ is_terminator op }
{
    // Most blocks follow a branch, so branches are asked for first.
    if op >= 80 {
        op <= 90 || matches!(op, 170..=175 | 180)
    } else {
        matches!(op, 0..=1 | 40 | 50)
    }
}
