ghost use Rattle.std.specs.Prelude.{◌≡◌, length, not, true, IfSome};
ghost use Rattle.std.specs.Result.{result_err};
ghost use Rattle.faults.specs.First.{first_below, where_true};
ghost use Rattle.blob_check.specs.Starts.{is_start};
ghost use Rattle.blob_check.specs.Faults.{check_of, is_no_start, last_mark, target_of, IsChecked};
ghost use Rattle.blob_check.specs.Finding.{fault_at, fault_of_end, fault_of_entry, found_in};
ghost use Rattle.pvm_ops.specs.Listing.{is_marked};

use crate::starts::{is_start, is_terminator, opcode};
use blob_codec::Program;
use pvm_ops::{Code, Form, fetch, form, known};
use std::marker::Model;

/// What is wrong with a program. Positions are offsets in bytes from the start of its code.
#[derive(Clone, Copy, Debug, PartialEq, Eq)]
pub enum CheckFault {
    /// No block starts at position 0.
    NoFirst,
    /// The instruction at the position has an unknown opcode.
    UnknownOpcode(u64),
    /// The instruction at the position leads by its offset to where no block starts.
    BadTarget(u64),
    /// The entry of the jump table with the number, from 0, is a position at which no block starts.
    BadEntry(u64),
    /// The instruction at the position is the last of the code, and doesn't end a block.
    OpenEnd(u64),
}

/// A program that was checked, as slices of its bytes.
#[derive(Debug, Drop)]
pub struct Checked<'a> {
    program: Program<'a>,
}

impl<'a> Model for Checked<'a> {
    ghost use Rattle.blob_codec.specs.Grammar.{Program as Content};
    ghost use Rattle.blob_check.specs.Faults.{IsChecked};

    ghost Value = { Content };

    ghost view = { λ checked. checked.program };

    ghost invariant = { λ checked. IsChecked checked.program };
}

impl<'a> Checked<'a> {
    /// The program, which has no fault.
    pub fn program(&self) -> Program<'a>
        ensures same { result ≡ self.now }
        ensures checked { IsChecked result }
    {
        self.program.borrowed_again()
    }
}

/// Checks a program, in a time that grows with its bytes, without memory.
///
/// # Errors
/// The first fault in this order: `NoFirst`; at each marked position upwards `UnknownOpcode`, then `BadTarget`;
/// `OpenEnd`; `BadEntry` of the least number.
pub fn check(program: Program<'_>) -> Result<Checked<'_>, CheckFault>
    ensures { result ≡ check_of program.entry }
{
    find_fault(&program)?;
    Ok(Checked { program })
}

/// The first fault of a program.
#[tactic(auto, unfolding(crate::specs::Finding::found_in))]
fn find_fault(program: &Program<'_>) -> Result<(), CheckFault>
    ensures { result_err result ≡ found_in program.now }
{
    let code = program.code();
    check_first(&code)?;
    check_instructions(&code)?;
    check_end(&code)?;
    check_table(program)
}

/// The start at position 0.
fn check_first(code: &Code<'_>) -> Result<(), CheckFault>
    ensures { result_err result ≡ where_true (not (is_start code.now 0)) CheckFault.NoFirst }
{
    if !is_start(code, 0) {
        return Err(CheckFault::NoFirst);
    }
    Ok(())
}

/// The instructions of a code, one after another.
fn check_instructions(code: &Code<'_>) -> Result<(), CheckFault>
    ensures { result_err result ≡ first_below (length code.now.bytes) (fault_at code.now) }
{
    for at in 0..code.len() {
        check_instruction(code, at)?;
    }
    Ok(())
}

/// The instruction at a position, where one is marked.
#[tactic(auto, unfolding(crate::specs::Finding::fault_at))]
fn check_instruction(code: &Code<'_>, at: u64) -> Result<(), CheckFault>
    ensures { result_err result ≡ fault_at code.now at }
{
    if !code.marked(at) {
        return Ok(());
    }
    if !known(opcode(code, at)) {
        return Err(CheckFault::UnknownOpcode(at));
    }
    if leads_astray(code, at) {
        return Err(CheckFault::BadTarget(at));
    }
    Ok(())
}

/// Whether the instruction at a position leads by its offset to where no block starts.
fn leads_astray(code: &Code<'_>, at: u64) -> bool
    ensures { result ≡ is_no_start code.now (target_of code.now at) }
{
    match target(code, at) {
        Some(to) => !is_start(code, to),
        None => false,
    }
}

/// Where the instruction at a position leads, if it has an offset.
fn target(code: &Code<'_>, at: u64) -> Option<u64>
    ensures { result ≡ target_of code.now at }
{
    let instr = fetch(code, at).instr;
    match form(instr.op) {
        Form::O | Form::RRO => Some(at.wrapping_add(instr.x)),
        Form::RXO => Some(at.wrapping_add(instr.y)),
        _ => None,
    }
}

/// The end of a code.
fn check_end(code: &Code<'_>) -> Result<(), CheckFault>
    ensures { result_err result ≡ fault_of_end code.now (last_mark code.now (length code.now.bytes)) }
{
    match last_mark(code) {
        Some(at) if !is_terminator(opcode(code, at)) => Err(CheckFault::OpenEnd(at)),
        _ => Ok(()),
    }
}

/// The last marked position of a code.
fn last_mark(code: &Code<'_>) -> Option<u64>
    ensures last { result ≡ last_mark code.now (length code.now.bytes) }
    ensures marked { IfSome result (λ at. is_marked code.now at ≡ true) }
{
    let mut after = code.len();
    while after > 0 {
        after -= 1;
        if code.marked(after) {
            return Some(after);
        }
    }
    None
}

/// The entries of the jump table, one after another.
fn check_table(program: &Program<'_>) -> Result<(), CheckFault>
    ensures { result_err result ≡ first_below (length program.now.table) (fault_of_entry program.now) }
{
    let code = program.code();
    for entry in 0..program.table_len() {
        if !is_start(&code, program.table_entry(entry)) {
            return Err(CheckFault::BadEntry(entry));
        }
    }
    Ok(())
}
