ghost use Rattle.std.specs.Prelude.{◌≡◌, ◌+◌, ◌≤◌, ◌<◌, ◌^◌, ◌++◌, [], true, length, codes, OnOk, OnErr};
ghost use Rattle.std.specs.Io.KnownBytes.{Appends};
ghost use Rattle.std.specs.List.{slice_range};
ghost use Rattle.arrayvec.specs.ArrayString.{array_string_len};
ghost use Rattle.faults.specs.Present.{each_below};
ghost use Rattle.outside.specs.Outside.{AppendsPrefix, HasCause};
ghost use Rattle.pvm_ops.specs.Listing.{is_marked};
ghost use Rattle.disasm.specs.Digits.{hex, hex_digits};
ghost use Rattle.disasm.specs.Disassembly.{disassembly, end_of, entry_line, instruction, line, line_at, size_line};
ghost use Rattle.disasm.specs.Putting.{Adds};

use crate::digits::{push_byte, push_hex};
use crate::text::{LINE_LEN, PIECE_LEN, Text, push_instruction, push_number};
use arrayvec::ArrayString;
use blob_codec::Program;
use outside::{Failed, Sink};
use pvm_ops::Code;

/// Puts the text of a program, without memory.
///
/// The first line is `code N table M width Z`: how many bytes the code has, how many entries the jump table, and how
/// many bytes an entry takes. A line for each marked position follows: the position in eight hexadecimal digits, the
/// bytes up to the next marked position or the end in hexadecimal, the name of the opcode and the operands, as registers
/// `r7`, signed immediates and `@` with the signed position to which an offset leads; the name is `unknown` where the
/// opcode is. Last a line `table I P` for each entry of the jump table, its number and its position.
///
/// The code has at most 2^32 bytes, so that eight digits hold a position.
///
/// # Errors
/// A put failed; a prefix of the text was put then.
pub fn disassemble<S: Sink>(program: &Program<'_>, out: &mut S) -> Result<(), Failed>
    requires { length program.now.code.bytes ≤ 2 ^ 32 }
    ensures ok { OnOk result (Appends (S.bytes out.old) (S.bytes out.new) (disassembly program.now)) }
    ensures err { OnErr result (AppendsPrefix (S.bytes out.old) (S.bytes out.new) (disassembly program.now)) }
    ensures cause { HasCause (S.faults out.old) (S.faults out.new) result }
{
    let mut text = ArrayString::new();
    push_sizes(program, &mut text);
    put_lines(&program.code(), &mut text, out)?;
    put_table(program, &mut text, out)?;
    out.put(text.as_str().as_bytes())?;
    Ok(())
}

/// Adds the line on the sizes.
#[tactic(auto, unfolding(crate::specs::Disassembly::size_line))]
fn push_sizes(program: &Program<'_>, text: &mut Text)
    requires { array_string_len text.old + LINE_LEN ≤ PIECE_LEN }
    ensures { text.new.bytes ≡ text.old.bytes ++ size_line program.now }
{
    push_number("code ", program.code().len(), text);
    push_number(" table ", program.table_len(), text);
    push_number(" width ", u64::from(program.width()), text);
    text.push_str("\n");
}

/// Adds the lines of the marked positions.
fn put_lines<S: Sink>(code: &Code<'_>, text: &mut Text, out: &mut S) -> Result<(), Failed>
    ensures ok { OnOk result (Adds (S.bytes out.old) (S.bytes out.new) text.old.bytes text.new.bytes (each_below (length code.now.bytes) (line_at code.now))) }
    ensures err { OnErr result (AppendsPrefix (S.bytes out.old) (S.bytes out.new) (text.old.bytes ++ each_below (length code.now.bytes) (line_at code.now))) }
    ensures cause { HasCause (S.faults out.old) (S.faults out.new) result }
{
    for at in 0..code.len() {
        put_line_at(code, at, text, out)?;
    }
    Ok(())
}

/// Adds the line of a position, where it is marked.
fn put_line_at<S: Sink>(
    code: &Code<'_>,
    at: u64,
    text: &mut Text,
    out: &mut S,
) -> Result<(), Failed>
    ensures ok { OnOk result (Adds (S.bytes out.old) (S.bytes out.new) text.old.bytes text.new.bytes (line_at code.now at)) }
    ensures err { OnErr result (AppendsPrefix (S.bytes out.old) (S.bytes out.new) (text.old.bytes ++ line_at code.now at)) }
    ensures cause { HasCause (S.faults out.old) (S.faults out.new) result }
{
    if !code.marked(at) {
        return Ok(());
    }
    put_line(code, at, text, out)
}

/// Adds the line of a marked position.
#[tactic(auto, unfolding(crate::specs::Disassembly::line))]
fn put_line<S: Sink>(code: &Code<'_>, at: u64, text: &mut Text, out: &mut S) -> Result<(), Failed>
    requires { is_marked code.now at ≡ true }
    ensures ok { OnOk result (Adds (S.bytes out.old) (S.bytes out.new) text.old.bytes text.new.bytes (line code.now at)) }
    ensures err { OnErr result (AppendsPrefix (S.bytes out.old) (S.bytes out.new) (text.old.bytes ++ line code.now at)) }
    ensures cause { HasCause (S.faults out.old) (S.faults out.new) result }
{
    make_room(text, out)?;
    push_position(at, text);
    put_bytes(bytes_of(code, at), text, out)?;
    make_room(text, out)?;
    push_end(code, at, text);
    Ok(())
}

/// Adds what a line begins with.
fn push_position(at: u64, text: &mut Text)
    requires { array_string_len text.old + LINE_LEN ≤ PIECE_LEN }
    ensures { text.new.bytes ≡ text.old.bytes ++ (hex_digits 8 at ++ codes " ") }
{
    push_hex(4, at, text);
    text.push_str(" ");
}

/// Adds what a line ends with.
fn push_end(code: &Code<'_>, at: u64, text: &mut Text)
    requires marked { is_marked code.now at ≡ true }
    requires room { array_string_len text.old + LINE_LEN ≤ PIECE_LEN }
    ensures { text.new.bytes ≡ text.old.bytes ++ (instruction code.now at ++ codes "\n") }
{
    push_instruction(code, at, text);
    text.push_str("\n");
}

/// The bytes from a marked position up to the next, or to the end of the code.
fn bytes_of<'a>(code: &Code<'a>, at: u64) -> &'a [u8]
    requires { is_marked code.now at ≡ true }
    ensures { result.now ≡ slice_range code.now.bytes at (end_of code.now at) }
{
    let end = end_of(code, at);
    &code.bytes()[at as usize..end as usize]
}

/// The next marked position after one, or the end of the code.
fn end_of(code: &Code<'_>, at: u64) -> u64
    requires { at < length code.now.bytes }
    ensures value { result ≡ end_of code.now at }
    ensures range { (at ≤ result) × (result ≤ length code.now.bytes) }
{
    let len = code.len();
    let mut end = at + 1;
    while end < len && !code.marked(end) {
        end += 1;
    }
    end
}

/// Adds bytes in hexadecimal.
fn put_bytes<S: Sink>(bytes: &[u8], text: &mut Text, out: &mut S) -> Result<(), Failed>
    ensures ok { OnOk result (Adds (S.bytes out.old) (S.bytes out.new) text.old.bytes text.new.bytes (hex bytes.now)) }
    ensures err { OnErr result (AppendsPrefix (S.bytes out.old) (S.bytes out.new) (text.old.bytes ++ hex bytes.now)) }
    ensures cause { HasCause (S.faults out.old) (S.faults out.new) result }
{
    for at in 0..bytes.len() {
        make_room(text, out)?;
        push_byte(bytes[at], text);
    }
    Ok(())
}

/// Adds the lines of the jump table.
fn put_table<S: Sink>(program: &Program<'_>, text: &mut Text, out: &mut S) -> Result<(), Failed>
    ensures ok { OnOk result (Adds (S.bytes out.old) (S.bytes out.new) text.old.bytes text.new.bytes (each_below (length program.now.table) (entry_line program.now))) }
    ensures err { OnErr result (AppendsPrefix (S.bytes out.old) (S.bytes out.new) (text.old.bytes ++ each_below (length program.now.table) (entry_line program.now))) }
    ensures cause { HasCause (S.faults out.old) (S.faults out.new) result }
{
    for entry in 0..program.table_len() {
        make_room(text, out)?;
        push_entry(program, entry, text);
    }
    Ok(())
}

/// Adds the line of an entry of the jump table.
#[tactic(auto, unfolding(crate::specs::Disassembly::entry_line))]
fn push_entry(program: &Program<'_>, entry: u64, text: &mut Text)
    requires within { entry < length program.now.table }
    requires room { array_string_len text.old + LINE_LEN ≤ PIECE_LEN }
    ensures { text.new.bytes ≡ text.old.bytes ++ entry_line program.now entry }
{
    push_number("table ", entry, text);
    push_number(" ", program.table_entry(entry), text);
    text.push_str("\n");
}

/// Puts the text that is kept where it leaves no room for a line.
fn make_room<S: Sink>(text: &mut Text, out: &mut S) -> Result<(), Failed>
    ensures ok { OnOk result (Adds (S.bytes out.old) (S.bytes out.new) text.old.bytes text.new.bytes []) }
    ensures room { OnOk result (array_string_len text.new + LINE_LEN ≤ PIECE_LEN) }
    ensures err { OnErr result (AppendsPrefix (S.bytes out.old) (S.bytes out.new) text.old.bytes) }
    ensures cause { HasCause (S.faults out.old) (S.faults out.new) result }
{
    if text.len() + LINE_LEN > PIECE_LEN {
        out.put(text.as_str().as_bytes())?;
        text.clear();
    }
    Ok(())
}
