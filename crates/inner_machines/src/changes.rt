ghost use Rattle.std.specs.Prelude.{◌≡◌, ◌+◌, ◌<◌, ◌≤◌, ◌^◌, ◌↔◌, ◌≢◌, true, Err, OnOk, OnErr};
ghost use Rattle.std.specs.FinMap as map;
ghost use Rattle.page_memory.specs.Mapping.{with_zero_pages};
ghost use Rattle.inner_machines.specs.Inner.{most_frames};
ghost use Rattle.inner_machines.specs.Calls.{has_pages, change_pages, page_after, no_such_pages, means_pages, is_mapping};

use page_memory::{MapFault, Memory, Mode};

/// The most pages that all machines of a run have together.
const MOST_FRAMES: u64 = 131_072;

/// Whether arguments mean pages of a memory: how they change, the number of the first, and how many they are.
pub(crate) fn means_pages(memory: &Memory, how: u64, first: u64, count: u64) -> bool
    ensures value { result ≡ means_pages memory.now how first count }
    ensures known { result ≡ true → how ≤ 4 }
    ensures low { result ≡ true → 16 ≤ first }
    ensures high { result ≡ true → first + count < 2 ^ 20 }
    ensures there { result ≡ true → 2 < how → has_pages memory.now first count ≡ true }
{
    if no_such_pages(how, first, count) {
        return false;
    }
    how <= 2 || has_pages(memory, first as u32, count as u32)
}

/// Whether arguments mean no pages of any memory.
fn no_such_pages(how: u64, first: u64, count: u64) -> bool
    ensures { result ≡ no_such_pages how first count }
{
    how > 4 || first < 16 || first >= 0x10_0000 || count >= 0x10_0000 - first
}

/// Whether a memory has `count` pages from a number on.
pub(crate) fn has_pages(memory: &Memory, first: u32, count: u32) -> bool
    requires { first + count ≤ 2 ^ 20 }
    ensures { result ≡ has_pages memory.now first count }
{
    for page in first..first + count {
        match memory.mode(page) {
            Mode::Unmapped => return false,
            Mode::Readable => {}
            Mode::Writable => {}
        }
    }
    true
}

/// Changes `count` pages of a memory from a number on. `Full` if with new zero pages this memory and the pages of the
/// other machines would be more than the limit.
pub(crate) fn change(
    memory: &mut Memory,
    how: u64,
    first: u32,
    count: u32,
    others: u64,
) -> Result<(), MapFault>
    requires known { how ≤ 4 }
    requires low { 16 ≤ first }
    requires high { first + count ≤ 2 ^ 20 }
    requires there { 2 < how → has_pages memory.old first count ≡ true }
    ensures full { (result ≡ Err MapFault.Full) ↔ ((is_mapping how ≡ true) × (most_frames < others + map.len (change_pages (page_after how) count first memory.old))) }
    ensures changed { OnOk result (memory.new ≡ change_pages (page_after how) count first memory.old) }
    ensures stays { OnErr result (memory.new ≡ memory.old) }
{
    match how {
        0 => {
            memory.unmap(first, count);
            Ok(())
        }
        1 => map_zeros(memory, first, count, Mode::Readable, others),
        2 => map_zeros(memory, first, count, Mode::Writable, others),
        3 => {
            memory.protect(first, count, Mode::Readable);
            Ok(())
        }
        _ => {
            memory.protect(first, count, Mode::Writable);
            Ok(())
        }
    }
}

/// Makes `count` zero pages from a number on, beside the pages of the other machines.
fn map_zeros(
    memory: &mut Memory,
    first: u32,
    count: u32,
    mode: Mode,
    others: u64,
) -> Result<(), MapFault>
    requires low { 16 ≤ first }
    requires high { first + count ≤ 2 ^ 20 }
    requires allows { mode ≢ Mode.Unmapped }
    ensures full { (result ≡ Err MapFault.Full) ↔ (most_frames < others + map.len (with_zero_pages count first mode memory.old)) }
    ensures mapped { OnOk result (memory.new ≡ with_zero_pages count first mode memory.old) }
    ensures stays { OnErr result (memory.new ≡ memory.old) }
{
    if others > MOST_FRAMES {
        return Err(MapFault::Full);
    }
    memory.map(first, count, mode, (MOST_FRAMES - others) as u32)
}
