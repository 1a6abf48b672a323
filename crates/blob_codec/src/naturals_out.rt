ghost use Rattle.std.specs.Prelude.{◌≡◌, ◌++◌, ◌∷◌, ◌≤◌, ◌+◌, OnOk};
ghost use Rattle.numbers.specs.Bytes.{little};
ghost use Rattle.blob_codec.specs.Grammar.{natural};

use pvm_ops::Bytes8;
use std::alloc::AllocError;

/// Appends a number in its shortest spelling: the first byte has the highest bits, and as many leading ones as bytes
/// follow.
#[tactic(auto, unfolding(crate::specs::Grammar::natural, crate::specs::Grammar::natural_len))]
pub fn put_natural(x: u64, out: &mut Bytes8) -> Result<(), AllocError>
    ensures { OnOk result (out.new ≡ out.old ++ natural x) }
{
    if x < 1 << 7 {
        put_led(x as u8, x, 0, out)
    } else if x < 1 << 14 {
        put_led(0x80 + (x >> 8) as u8, x, 1, out)
    } else if x < 1 << 21 {
        put_led(0xc0 + (x >> 16) as u8, x, 2, out)
    } else if x < 1 << 28 {
        put_led(0xe0 + (x >> 24) as u8, x, 3, out)
    } else if x < 1 << 35 {
        put_led(0xf0 + (x >> 32) as u8, x, 4, out)
    } else if x < 1 << 42 {
        put_led(0xf8 + (x >> 40) as u8, x, 5, out)
    } else if x < 1 << 49 {
        put_led(0xfc + (x >> 48) as u8, x, 6, out)
    } else if x < 1 << 56 {
        put_led(0xfe, x, 7, out)
    } else {
        put_led(0xff, x, 8, out)
    }
}

/// Appends a first byte and then the low bytes of a number.
fn put_led(first: u8, x: u64, len: u8, out: &mut Bytes8) -> Result<(), AllocError>
    requires { len ≤ 8 }
    ensures { OnOk result (out.new ≡ out.old ++ (first ∷ little len x)) }
{
    out.push(first)?;
    put_low_bytes(x, len, out)
}

/// Appends the low `len` bytes of x, the lowest first.
pub fn put_low_bytes(x: u64, len: u8, out: &mut Bytes8) -> Result<(), AllocError>
    requires { len ≤ 8 }
    ensures { OnOk result (out.new ≡ out.old ++ little len x) }
{
    let bytes = x.to_le_bytes();
    out.append(&bytes[..len as usize])
}
