ghost use Rattle.std.specs.Prelude.{◌≡◌, ◌≤◌, ◌<◌, ◌+◌, ◌/◌, ◌^◌, ◌==◌, length, position, IfOk, IfSome};
ghost use Rattle.elf_objects.specs.Contents.{name_at};
ghost use Rattle.elf_objects.specs.NameEnds.{block_start, name_end, HoldsEnds};

use std::alloc::{AllocError, Global};

/// How many bytes of a string table share an entry of the index.
const BLOCK_LEN: usize = 64;

/// A string table with an index of where its names end. A name is found in constant time, however long it is.
#[derive(Drop)]
pub struct NameIndex<'a> {
    pub bytes: &'a [u8],
    ends: Vec<u32>,
    ghost ends_are: { HoldsEnds bytes.now ends.items },
}

impl<'a> NameIndex<'a> {
    /// The index of these bytes, which are read once.
    pub fn new(alloc: Global, bytes: &'a [u8]) -> Result<NameIndex<'a>, AllocError>
        requires { length bytes.now ≤ 2 ^ 24 }
        ensures { IfOk result (λ index. index.bytes.now ≡ bytes.now) }
    {
        Ok(NameIndex {
            bytes,
            ends: ends_of_blocks(alloc, bytes)?,
        })
    }

    /// The name at a place.
    #[tactic(auto, unfolding(crate::specs::Contents::name_at))]
    pub fn name(&self, at: u32) -> &'a [u8]
        ensures { result.now ≡ name_at self.now.bytes.now at }
    {
        let at = at as usize;
        if self.bytes.len() <= at {
            return &[];
        }
        let next = at / BLOCK_LEN + 1;
        let to = block_start(self.bytes, next);
        let end = end_before(self.bytes, at, to, self.ends[next]);
        &self.bytes[at..end as usize]
    }
}

/// For each block, and for the end of the table, where the name at its start ends.
fn ends_of_blocks(alloc: Global, table: &[u8]) -> Result<Vec<u32>, AllocError>
    requires { length table.now ≤ 2 ^ 24 }
    ensures { IfOk result (λ ends. HoldsEnds table.now ends.items) }
{
    let mut block = table.len() / BLOCK_LEN + 1;
    let mut ends = vec![in alloc; table.len() as u32; block + 1]?;
    while block > 0 {
        let to = block_start(table, block);
        let next = ends[block];
        block -= 1;
        ends[block] = end_before(table, block_start(table, block), to, next);
    }
    Ok(ends)
}

/// Where a block begins; past the table it is the table's end.
fn block_start(table: &[u8], block: usize) -> usize
    requires { block ≤ length table.now / 64 + 1 }
    ensures { result ≡ block_start table.now block }
{
    table.len().min(BLOCK_LEN * block)
}

/// Where the name at a place ends, by the end of the one at a later place.
fn end_before(table: &[u8], at: usize, to: usize, next: u32) -> u32
    requires small { length table.now ≤ 2 ^ 24 }
    requires order { at ≤ to }
    requires within { to ≤ length table.now }
    requires next { next ≡ name_end table.now to }
    ensures end { result ≡ name_end table.now at }
    ensures after { at ≤ result }
    ensures within { result ≤ length table.now }
{
    match first_zero(&table[at..to]) {
        Some(len) => (at + len) as u32,
        None => next,
    }
}

/// The place of the first 00.
fn first_zero(bytes: &[u8]) -> Option<usize>
    ensures position { result ≡ position (λ b. b == 0) bytes.now }
    ensures within { IfSome result (λ len. len < length bytes.now) }
{
    bytes.iter().position(|b| *b == 0)
}
