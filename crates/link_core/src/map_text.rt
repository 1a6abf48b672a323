//! The map of a linked program as text.

ghost use Rattle.std.specs.Prelude.{◌≡◌, ◌≤◌, ◌+◌, ◌<◌, ◌^◌, ◌++◌, ◌∷◌, [], true, length, codes, slice_get, OnOk, IfOk};
ghost use Rattle.std.specs.Char.{digit_char};
ghost use Rattle.disasm.specs.Digits.{hex_digits};
ghost use Rattle.symbols.specs.Parts.{sections_of};
ghost use Rattle.symbols.specs.Wanted.{import_name_at};
ghost use Rattle.layout.specs.Addresses.{got_of};
ghost use Rattle.relocs.specs.AddressMap.{number_at};
ghost use Rattle.relocs.specs.CodeMap.{place_of, is_mapped};
ghost use Rattle.link_core.specs.DataParts.{holds};
ghost use Rattle.link_core.specs.MapText.{entry_line, entry_lines, section_name, range_text, data_line, section_line, object_lines, lines_of, data_lines, got_line, place_text, code_line, code_lines};

use crate::data_part::DataPart;
use crate::input::Input;
use itoa::Buffer;
use layout::bytes_of;
use relocs::CodeMap;
use std::alloc::{AllocError, Global};
use symbols::{Place, Wanted};

/// The map: the lines of the entries, whose first instructions are at these positions, those of the data, and those of
/// the address map, whose places have these positions.
pub(crate) fn map_text(
    alloc: Global,
    input: &Input<'_>,
    map: &CodeMap,
    entries: &[u32],
    table: &[u32],
) -> Result<Vec<u8>, AllocError>
    requires entries { length entries.now ≡ length input.now.wanted.entries }
    requires table { length table.now ≡ length map.now }
    requires few { length map.now ≤ 2 ^ 28 }
    ensures { IfOk result (λ text. text.items ≡ entry_lines 0 input.now.wanted.entries entries.now ++ data_lines input.now ++ got_line (got_of input.now) ++ code_lines input.now 0 map.now table.now) }
{
    let mut text = entry_lines(alloc, input.wanted(), entries)?;
    push_data_lines(input, &mut text)?;
    push_got_line(input.got(), &mut text)?;
    push_code_lines(input, map, table, &mut text)?;
    Ok(text)
}

/// Adds the line of the table of slots, where there is one.
#[tactic(auto, unfolding(crate::specs::MapText::got_line))]
fn push_got_line(got: Option<(u32, u32)>, text: &mut Vec<u8>) -> Result<(), AllocError>
    ensures { OnOk result (text.new.items ≡ text.old.items ++ got_line got) }
{
    if let Some((address, size)) = got {
        text.extend_from_slice(b"got ")?;
        push_range(address, u64::from(size), text)?;
        text.extend_from_slice(b"\n")?;
    }
    Ok(())
}

/// Adds the lines of the address map, whose places have these positions.
fn push_code_lines(
    input: &Input<'_>,
    map: &CodeMap,
    table: &[u32],
    text: &mut Vec<u8>,
) -> Result<(), AllocError>
    requires same { length table.now ≡ length map.now }
    requires few { length map.now ≤ 2 ^ 28 }
    ensures { OnOk result (text.new.items ≡ text.old.items ++ code_lines input.now 0 map.now table.now) }
{
    for at in 0..map.len() {
        push_code_line(input, 2 * (at + 1), table[at as usize], map.place(at), text)?;
    }
    Ok(())
}

/// Adds the line of a code address.
#[tactic(auto, unfolding(crate::specs::MapText::code_line))]
fn push_code_line(
    input: &Input<'_>,
    number: u32,
    position: u32,
    place: Place,
    text: &mut Vec<u8>,
) -> Result<(), AllocError>
    requires { is_mapped place ≡ true }
    ensures { OnOk result (text.new.items ≡ text.old.items ++ code_line input.now number position (place_of place)) }
{
    text.extend_from_slice(b"code ")?;
    push_range(number, u64::from(position), text)?;
    text.extend_from_slice(b" ")?;
    push_place(input, place, text)?;
    text.extend_from_slice(b"\n")
}

/// Adds a place of code by its section and offset, or an import by its name.
#[tactic(auto, unfolding(crate::specs::MapText::place_text))]
fn push_place(input: &Input<'_>, place: Place, text: &mut Vec<u8>) -> Result<(), AllocError>
    requires { is_mapped place ≡ true }
    ensures { OnOk result (text.new.items ≡ text.old.items ++ place_text input.now (place_of place)) }
{
    match place {
        Place::Code {
            object,
            section,
            offset,
        } => {
            push_section_name(object, section, text)?;
            text.extend_from_slice(b"+")?;
            push_eight_digits(offset, text)
        }
        Place::Import(number) => {
            text.extend_from_slice(b"import ")?;
            text.extend_from_slice(import_name(input.wanted(), number))
        }
        _ => Ok(()),
    }
}

/// The name of an import, or none past the last.
fn import_name(wanted: &Wanted, number: u32) -> &[u8]
    ensures { result.now ≡ import_name_at wanted.now number }
{
    if number < wanted.imports() {
        wanted.import_name(number)
    } else {
        &[]
    }
}

/// The lines of the entries, of which the first instructions begin at these positions.
fn entry_lines(alloc: Global, wanted: &Wanted, positions: &[u32]) -> Result<Vec<u8>, AllocError>
    requires { length positions.now ≡ length wanted.now.entries }
    ensures { IfOk result (λ text. text.items ≡ entry_lines 0 wanted.now.entries positions.now) }
{
    let mut text = Vec::new(alloc);
    for at in 0..wanted.entries() {
        push_line(at, positions[at as usize], wanted.entry_name(at), &mut text)?;
    }
    Ok(text)
}

/// Adds the line of an entry.
#[tactic(auto, unfolding(crate::specs::MapText::entry_line))]
fn push_line(number: u32, position: u32, name: &[u8], text: &mut Vec<u8>) -> Result<(), AllocError>
    ensures { OnOk result (text.new.items ≡ text.old.items ++ entry_line number position name.now) }
{
    text.extend_from_slice(b"entry ")?;
    text.extend_from_slice(Buffer::new().format(number).as_bytes())?;
    text.extend_from_slice(b" ")?;
    push_eight_digits(u64::from(position), text)?;
    text.extend_from_slice(b" ")?;
    text.extend_from_slice(name)?;
    text.extend_from_slice(b"\n")
}

/// Adds the lines of all data, in the order of their addresses.
fn push_data_lines(input: &Input<'_>, text: &mut Vec<u8>) -> Result<(), AllocError>
    ensures { OnOk result (text.new.items ≡ text.old.items ++ data_lines input.now) }
{
    push_lines(input, DataPart::ReadOnly, text)?;
    push_lines(input, DataPart::Writable, text)?;
    push_lines(input, DataPart::Zero, text)
}

/// Adds the lines of a part.
fn push_lines(input: &Input<'_>, part: DataPart, text: &mut Vec<u8>) -> Result<(), AllocError>
    ensures { OnOk result (text.new.items ≡ text.old.items ++ lines_of (holds part) input.now) }
{
    for object in 0..input.objects() {
        push_object_lines(input, object, part, text)?;
    }
    Ok(())
}

/// Adds the lines of an object's sections in a part.
fn push_object_lines(
    input: &Input<'_>,
    object: u32,
    part: DataPart,
    text: &mut Vec<u8>,
) -> Result<(), AllocError>
    requires { object < length input.now.objects }
    ensures { OnOk result (text.new.items ≡ text.old.items ++ object_lines (holds part) input.now object) }
{
    for section in 0..input.sections(object) {
        push_section_line(input, object, section, part, text)?;
    }
    Ok(())
}

/// Adds the line of a section, if it belongs to a part and has bytes.
fn push_section_line(
    input: &Input<'_>,
    object: u32,
    section: u32,
    part: DataPart,
    text: &mut Vec<u8>,
) -> Result<(), AllocError>
    requires { section < length (sections_of (slice_get input.now.objects object)) }
    ensures { OnOk result (text.new.items ≡ text.old.items ++ section_line (holds part) input.now object section (slice_get (sections_of (slice_get input.now.objects object)) section)) }
{
    let found = input.section(object, section);
    let size = bytes_of(&found);
    if part.holds(found.kind) && size > 0 {
        if let Some(address) = input.address(object, section) {
            push_data_line(address, size, object, section, text)?;
        }
    }
    Ok(())
}

/// Adds the line of a section of a size at an address.
#[tactic(auto, unfolding(crate::specs::MapText::data_line))]
fn push_data_line(
    address: u32,
    size: u64,
    object: u32,
    section: u32,
    text: &mut Vec<u8>,
) -> Result<(), AllocError>
    ensures { OnOk result (text.new.items ≡ text.old.items ++ data_line address size object section) }
{
    text.extend_from_slice(b"data ")?;
    push_range(address, size, text)?;
    text.extend_from_slice(b" ")?;
    push_section_name(object, section, text)?;
    text.extend_from_slice(b"\n")
}

/// Adds an address and a size in eight hexadecimal digits each.
#[tactic(auto, unfolding(crate::specs::MapText::range_text))]
fn push_range(address: u32, size: u64, text: &mut Vec<u8>) -> Result<(), AllocError>
    ensures { OnOk result (text.new.items ≡ text.old.items ++ range_text address size) }
{
    push_eight_digits(u64::from(address), text)?;
    text.extend_from_slice(b" ")?;
    push_eight_digits(size, text)
}

/// Adds a section by the numbers of its object and its own.
#[tactic(auto, unfolding(crate::specs::MapText::section_name))]
fn push_section_name(object: u32, section: u32, text: &mut Vec<u8>) -> Result<(), AllocError>
    ensures { OnOk result (text.new.items ≡ text.old.items ++ section_name object section) }
{
    text.extend_from_slice(Buffer::new().format(object).as_bytes())?;
    text.extend_from_slice(b":")?;
    text.extend_from_slice(Buffer::new().format(section).as_bytes())
}

/// Adds the lowest eight hexadecimal digits of a number.
fn push_eight_digits(number: u64, text: &mut Vec<u8>) -> Result<(), AllocError>
    ensures { OnOk result (text.new.items ≡ text.old.items ++ hex_digits 8 number) }
{
    push_digits(8, number, text)
}

/// Adds the lowest `count` hexadecimal digits of `number`, the highest first.
fn push_digits(count: u8, number: u64, text: &mut Vec<u8>) -> Result<(), AllocError>
    ensures { OnOk result (text.new.items ≡ text.old.items ++ hex_digits count number) }
{
    if count > 0 {
        push_digits(count - 1, number / 16, text)?;
        text.push(hex_digit(number % 16))?;
    }
    Ok(())
}

/// The hexadecimal digit of a number, in lower case.
fn hex_digit(digit: u64) -> u8
    requires { digit < 16 }
    ensures { result ≡ digit_char digit }
{
    if digit < 10 {
        b'0' + digit as u8
    } else {
        b'a' + (digit - 10) as u8
    }
}
