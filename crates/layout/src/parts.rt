ghost use Rattle.std.specs.Prelude.{◌≡◌, ◌<◌, ◌≤◌, ◌^◌, ◌-◌, min, MatchResult};
ghost use Rattle.symbols.specs.Wanted.{Wanted, given_of};
ghost use Rattle.layout.specs.Addresses.{end_of_slots as the_end_of_slots};
ghost use Rattle.layout.specs.Faults.{whole};
ghost use Rattle.layout.specs.Slots.{slot_count};
ghost use Rattle.layout.specs.Parts.{IsMeasured, ReportsFault};
ghost use Rattle.machine_state.specs.Start.{pages_of, start_after};

use crate::ends::{bytes_of_code, end_of_kind, next_multiple};
use crate::fault::{CODE_TOO_LARGE, READ_ONLY_TOO_LARGE, WRITABLE_TOO_LARGE, ZERO_TOO_LARGE};
use crate::next::Next;
use elf_objects::{Fault, Objects, SectionKind};

/// Where the read-only data begin.
const READ_ONLY_START: u64 = 1 << 16;

/// The bytes of a slot.
const SLOT_LEN: u64 = 8;

/// The most bytes of read-only and of writable data.
const MOST_BYTES: u64 = (1 << 24) - 1;

/// The most pages of zeros.
const MOST_PAGES: u64 = 65535;

/// The most bytes of code.
const MOST_CODE: u64 = 1 << 24;

/// The parts of a program's data.
#[derive(Clone, Copy, Debug)]
pub(crate) struct Parts {
    /// Where the table of slots begins, where there is one.
    pub slots_start: u32,
    pub read_only_len: u32,
    pub writable_len: u32,
    pub zero_pages: u32,
    /// Where the sections of each kind begin.
    pub starts: Next,
}

/// The parts of the objects' data.
///
/// # Errors
/// The first fault of the layout.
pub(crate) fn measure(objects: &Objects<'_>, slots: usize) -> Result<Parts, Fault>
    ghost wanted: { Wanted }
    requires { slots ≡ slot_count (given_of objects.now wanted) }
    ensures { let given = given_of objects.now wanted in MatchResult result (IsMeasured given) (ReportsFault given) }
{
    let sections_end = end_of_kind(objects, SectionKind::ReadOnly, READ_ONLY_START);
    let read_only_end = end_of_slots(sections_end, slots);
    let read_only_len = within(
        read_only_end - READ_ONLY_START,
        MOST_BYTES,
        READ_ONLY_TOO_LARGE,
    )?;
    let writable_start = writable_start_after(read_only_len);
    let writable_end = end_of_kind(objects, SectionKind::Writable, writable_start);
    let writable_len = within(
        writable_end - writable_start,
        MOST_BYTES,
        WRITABLE_TOO_LARGE,
    )?;
    let zero_end = end_of_kind(objects, SectionKind::Zero, writable_end);
    let zero_pages = within(
        pages_for(zero_end - writable_start) - pages_for(writable_len),
        MOST_PAGES,
        ZERO_TOO_LARGE,
    )?;
    within(bytes_of_code(objects), MOST_CODE, CODE_TOO_LARGE)?;
    Ok(Parts {
        slots_start: next_multiple(sections_end, SLOT_LEN) as u32,
        read_only_len: read_only_len as u32,
        writable_len: writable_len as u32,
        zero_pages: zero_pages as u32,
        starts: Next {
            read_only: READ_ONLY_START,
            writable: writable_start,
            zero: writable_end,
        },
    })
}

/// Where n slots after an address end. An end above 2^64 - 1 becomes 2^64 - 1.
fn end_of_slots(at: u64, slots: usize) -> u64
    ensures { result ≡ min (the_end_of_slots at slots) (2 ^ 64 - 1) }
{
    if slots == 0 {
        at
    } else {
        next_multiple(at, SLOT_LEN).saturating_add((slots as u64).saturating_mul(SLOT_LEN))
    }
}

/// The size, where it is within a limit.
///
/// # Errors
/// The fault with the code, of the link as a whole.
fn within(size: u64, most: u64, code: u8) -> Result<u64, Fault>
    ensures { MatchResult result (λ found. (found ≡ size) × (size ≤ most)) (λ fault. (most < size) × (fault ≡ whole code)) }
{
    if size <= most {
        Ok(size)
    } else {
        Err(Fault {
            code,
            object: 0,
            section: 0,
            offset: 0,
        })
    }
}

/// Where the writable data begin after the given number of bytes of read-only data.
fn writable_start_after(len: u64) -> u64
    requires { len < 2 ^ 24 }
    ensures { result ≡ start_after len }
{
    (2 + len.div_ceil(1 << 16)) << 16
}

/// The number of pages that hold the given number of bytes.
fn pages_for(bytes: u64) -> u64
    ensures { result ≡ pages_of bytes }
{
    bytes.div_ceil(4096)
}
