ghost use Rattle.std.specs.Prelude.{◌≡◌};

use blob_codec::{BlobFault, Program};
use pvm_ops::{
    Bytes8, Code, Instr, encode_into, fetch, marks_come_back, mask_is_padded, mask_length,
    reads_back, stops_come_back,
};
use std::test::*;

/// `load_imm r7 5`
fn load_five() -> Instr
    ensures { result ≡ record { op = 51; a = 7; b = 0; d = 0; x = 5; y = 0 } }
{
    Instr {
        op: 51,
        a: 7,
        b: 0,
        d: 0,
        x: 5,
        y: 0,
    }
}

#[tactic(auto, unfolding(pvm_ops::specs::Opcodes::is_known, pvm_ops::specs::Opcodes::form_of))]
#[test]
fn an_instruction_is_spelled(rt: HostRuntime) -> Result<(), Fail> {
    reads_back();
    let mut out = Bytes8::new(rt.alloc());
    encode_into(&load_five(), 4, &mut out)?;
    encode_into(&load_five(), 4, &mut out)?;
    assert_eq!(rt; out.as_slice(), [51, 7, 5, 51, 7, 5].as_slice());
    Ok(())
}

#[test]
fn what_is_at_a_mark_is_fetched(rt: HostRuntime) {
    marks_come_back();
    stops_come_back();
    let bytes = [51, 7, 5, 51, 7, 5];
    let code = Code::new(&bytes, &[0x09]);
    for (at, marked, next) in [(0, true, 3), (1, false, 1), (3, true, 6), (6, false, 6)] {
        assert_eq!(rt; code.marked(at), marked, "at {at}");
        let fetched = fetch(&code, at);
        assert_eq!(rt; fetched.next, next, "at {at}");
        assert_eq!(rt; fetched.instr == load_five(), marked, "at {at}");
    }
    for (at, nearest) in [(0, None), (3, Some(0)), (5, Some(3))] {
        assert_eq!(rt; code.mark_before(at), nearest, "before {at}");
    }
}

#[test]
fn a_mask_has_a_bit_for_each_byte_and_zeros_after(rt: HostRuntime) -> Result<(), Fail> {
    mask_length();
    mask_is_padded();
    // nine traps, each with its mark
    let whole = [0, 1, 9, 0, 0, 0, 0, 0, 0, 0, 0, 0, 0xff, 0x01];
    let program = Program::read(&whole)?;
    for (at, marked) in [(0, true), (7, true), (8, true), (9, false)] {
        assert_eq!(rt; program.code().marked(at), marked, "at {at}");
    }
    let short = Program::read(&whole[..13]).err();
    assert_eq!(rt; short, Some(BlobFault::Truncated));
    let padded = [0, 1, 9, 0, 0, 0, 0, 0, 0, 0, 0, 0, 0xff, 0x03];
    assert_eq!(rt; Program::read(&padded).err(), Some(BlobFault::BadPadding));
    Ok(())
}
