ghost use Rattle.std.specs.Prelude.{◌≤◌, ◌<◌, ◌+◌, length, IfOk, OnOk, vec_len, slice_index_or};
ghost use Rattle.elf_objects.specs.Index.{IsEmptyAt, AddsPart, HoldsPart, no_part};

use std::alloc::{AllocError, Global};

/// A RELA section, and the number of relocations of its target in those before it.
#[derive(Clone, Copy, Debug)]
pub struct Part {
    /// The number of the RELA section.
    pub section: u32,
    /// The number of relocations before it.
    pub before: u32,
}

/// The RELA sections of one section, and how many relocations they hold.
#[derive(Drop)]
pub struct Row {
    pub parts: Vec<Part>,
    pub total: u32,
}

/// Rows with nothing in them.
pub fn empty_rows(alloc: Global, count: u32) -> Result<Vec<Row>, AllocError>
    ensures { IfOk result (λ rows. IsEmptyAt rows.items count) }
{
    let mut rows = Vec::with_capacity(alloc, count as usize)?;
    for _ in 0..count {
        rows.push(Row {
            parts: Vec::new(alloc),
            total: 0,
        })?;
    }
    Ok(rows)
}

/// Adds a RELA section with `entries` relocations at the end of a row. A row of 2^32 entries or more is an `AllocError`.
pub fn add_part(
    rows: &mut Vec<Row>,
    target: u32,
    section: u32,
    entries: u32,
) -> Result<(), AllocError>
    requires { target < vec_len rows.old }
    ensures { OnOk result (AddsPart rows.old.items rows.new.items target section entries) }
{
    let row = &mut rows[target as usize];
    let Some(total) = row.total.checked_add(entries) else {
        return Err(AllocError);
    };
    row.parts.push(Part {
        section,
        before: row.total,
    })?;
    row.total = total;
    Ok(())
}

/// The last part that begins at or before a place.
pub fn part_at(parts: &[Part], at: u32) -> usize
    requires some { 0 < length parts.now }
    requires first { (slice_index_or parts.now 0 no_part).before ≤ at }
    ensures { HoldsPart parts.now at result }
{
    let mut low = 0;
    let mut high = parts.len();
    while high - low > 1 {
        let middle = low + (high - low) / 2;
        if parts[middle].before <= at {
            low = middle;
        } else {
            high = middle;
        }
    }
    low
}
