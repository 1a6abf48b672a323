//! Whole reads and writes over readers and writers, which may take or give less than is asked for.

ghost use Rattle.std.specs.Prelude.{◌≡◌, ◌+◌, ◌<◌, ◌≤◌, ◌^◌, Some, length, take, MatchOption, IfOk, IsErrOf, OnOk, OnErr};
ghost use Rattle.std.specs.Io.{ReadsAtMost, WritesAtMost};
ghost use Rattle.std.specs.Io.KnownBytes.{Appends, Consumes, Keeps, IsAtEnd};
ghost use Rattle.outside.specs.Outside.{AppendsPrefix, ReadsContent};
ghost use Rattle.outside.specs.Transfer.{Takes, TakesAtMost};

use crate::bytes::Bytes;
use crate::folder::{Failed, ReadFault};
use std::alloc::Global;
use std::io::{ErrorKind, Read, Write};

/// The most bytes that one call asks for.
const LONGEST_READ: usize = 64 * 1024;

/// The fewest bytes that one call asks for, unless the limit is nearer.
const SHORTEST_READ: usize = 4 * 1024;

/// Writes all of the bytes, in as many calls as it takes. A call that takes none is a fault.
pub(crate) fn write_whole<W: Write>(writer: &mut W, bytes: &[u8]) -> Result<(), Failed>
    ensures ok { OnOk result (Appends (W.contents writer.old) (W.contents writer.new) bytes.now) }
    ensures err { OnErr result (AppendsPrefix (W.contents writer.old) (W.contents writer.new) bytes.now) }
{
    let mut done = 0;
    while done < bytes.len() {
        let count = write_some(writer, &bytes[done..])?;
        if count == 0 {
            return Err(Failed);
        }
        done += count;
    }
    Ok(())
}

/// One write, made again where it was interrupted.
fn write_some<W: Write>(writer: &mut W, bytes: &[u8]) -> Result<usize, Failed>
    ensures bound { WritesAtMost result bytes.now }
    ensures ok { IfOk result (λ count. Appends (W.contents writer.old) (W.contents writer.new) (take count bytes.now)) }
    ensures err { OnErr result (Keeps (W.contents writer.old) (W.contents writer.new)) }
{
    for _ in 0..u64::MAX {
        match writer.write(bytes) {
            Ok(count) => return Ok(count),
            Err(error) if error.kind() == ErrorKind::Interrupted => {}
            Err(_) => return Err(Failed),
        }
    }
    Err(Failed)
}

/// All bytes that the reader has left, where they are at most `limit`. At most `limit + 1` are read.
/// Memory for `expected` bytes is made first, so that a right guess leaves none unused.
pub(crate) fn read_rest<R: Read>(
    reader: &mut R,
    alloc: Global,
    expected: u64,
    limit: u32,
) -> Result<Bytes, ReadFault>
    ensures answer { MatchOption (R.remaining reader.old) (IfOk result (λ bytes. length bytes ≤ limit)) (λ rest. ReadsContent (Some rest) limit result) }
    ensures few { TakesAtMost (limit + 1) (R.remaining reader.old) (R.remaining reader.new) }
{
    let most = limit as usize + 1;
    let expected = expected.min(most as u64) as usize;
    let mut bytes = Bytes::with_capacity(alloc, expected)?;
    let mut piece = vec![in alloc; 0u8; piece_len(expected)]?;
    for _ in 0..u64::MAX {
        let room = piece.len().min(most - bytes.len());
        if read_onto(reader, &mut piece[..room], &mut bytes)? == 0 {
            return Ok(bytes);
        }
        if bytes.len() == most {
            return Err(ReadFault::TooLarge);
        }
    }
    Err(ReadFault::Failed)
}

/// How many bytes each call asks for, given the number that is expected: one more, so that the end is
/// reached too.
fn piece_len(expected: usize) -> usize
    requires { expected ≤ 2 ^ 32 }
    ensures { 0 < result }
{
    (expected + 1).clamp(SHORTEST_READ, LONGEST_READ)
}

/// One read through `piece` onto the end of `bytes`, of at most the given number of bytes.
fn read_onto<R: Read>(
    reader: &mut R,
    piece: &mut [u8],
    bytes: &mut Bytes,
) -> Result<usize, ReadFault>
    requires { 0 < length piece.old }
    ensures count { IfOk result (λ count. (count ≤ length piece.old) × (length bytes.new ≡ length bytes.old + count)) }
    ensures taken { OnOk result (Takes (R.remaining reader.old) (R.remaining reader.new) bytes.old bytes.new) }
    ensures end { IfOk result (λ count. count ≡ 0 → IsAtEnd (R.remaining reader.new)) }
    ensures err { ¬ (IsErrOf result ReadFault.TooLarge) }
    ensures few { TakesAtMost (length piece.old) (R.remaining reader.old) (R.remaining reader.new) }
{
    match read_some(reader, piece) {
        Ok(count) => {
            bytes.append(&piece[..count])?;
            Ok(count)
        }
        Err(Failed) => Err(ReadFault::Failed),
    }
}

/// One read, made again where it was interrupted.
fn read_some<R: Read>(reader: &mut R, buffer: &mut [u8]) -> Result<usize, Failed>
    ensures bound { ReadsAtMost result buffer.new }
    ensures ok { IfOk result (λ count. Consumes (R.remaining reader.old) (R.remaining reader.new) (take count buffer.new)) }
    ensures end { IfOk result (λ count. count ≡ 0 → 0 < length buffer.old → IsAtEnd (R.remaining reader.new)) }
    ensures err { OnErr result (Keeps (R.remaining reader.old) (R.remaining reader.new)) }
{
    for _ in 0..u64::MAX {
        match reader.read(buffer) {
            Ok(count) => return Ok(count),
            Err(error) if error.kind() == ErrorKind::Interrupted => {}
            Err(_) => return Err(Failed),
        }
    }
    Err(Failed)
}
