ghost use Rattle.std.specs.Prelude.{ℕ, ◌<◌};

use std::alloc::{AllocError, Global};

/// The slack where there is no offset.
const NO_OFFSET: u32 = u32::MAX;

/// How many bytes more the offsets of one length bear, by groups of neighbouring blocks. A group whose slack is used up
/// waits in a queue until its blocks are looked at again.
#[derive(Drop)]
pub(crate) struct Slack {
    pub(crate) len: u8,
    groups: Vec<Group>,
    queue: Vec<usize>,
}

/// Where neighbouring blocks begin and end, and the least growth that an offset ahead or back may not bear.
#[derive(Clone, Copy)]
struct Group {
    begin: u32,
    end: u32,
    ahead: u32,
    back: u32,
}

/// Neighbouring blocks, of which those with an offset of this length are to be looked at.
#[derive(Clone, Copy)]
pub(crate) struct BlockRange {
    pub(crate) len: u8,
    pub(crate) first: usize,
    pub(crate) end: usize,
}

impl Slack {
    /// The groups of blocks at these positions, all in the queue.
    pub(crate) fn new(
        alloc: Global,
        len: u8,
        starts: &[u32],
        end: u32,
    ) -> Result<Slack, AllocError> {
        let size = group_size(len);
        let mut groups: Vec<Group> = Vec::new(alloc);
        let mut queue = Vec::new(alloc);
        for (block, start) in starts.iter().enumerate() {
            if block % size == 0 {
                if let Some(last) = groups.last_mut() {
                    last.end = *start;
                }
                queue.push(block / size)?;
                let group = Group {
                    begin: *start,
                    end,
                    ahead: 0,
                    back: 0,
                };
                groups.push(group).map_err(AllocError::from)?;
            }
        }
        Ok(Slack { len, groups, queue })
    }

    /// The blocks of a group of the queue, whose offsets are then to be counted anew.
    pub(crate) fn next(&mut self) -> Option<BlockRange> {
        let number = self.queue.pop()?;
        if let Some(group) = self.groups.get_mut(number) {
            group.ahead = NO_OFFSET;
            group.back = NO_OFFSET;
        }
        let size = group_size(self.len);
        let first = number.saturating_mul(size);
        let end = first.saturating_add(size);
        Some(BlockRange {
            len: self.len,
            first,
            end,
        })
    }

    /// Counts the offset of a block, from a position to another.
    pub(crate) fn count(&mut self, block: usize, from: u32, to: u32) {
        let reach = reach(self.len);
        if let Some(group) = self.groups.get_mut(block / group_size(self.len)) {
            if from < to {
                group.ahead = group
                    .ahead
                    .min(from.saturating_add(reach).saturating_sub(to));
            } else {
                group.back = group
                    .back
                    .min(to.saturating_add(reach + 1).saturating_sub(from));
            }
        }
    }

    /// A block got longer: the groups from which an offset may reach over it have less slack.
    pub(crate) fn use_up(&mut self, block: usize, by: u32) -> Result<(), AllocError> {
        let own = block / group_size(self.len);
        let Some(group) = self.groups.get(own) else {
            return Ok(());
        };
        let Group { begin, end, .. } = *group;
        self.use_up_ahead(own, begin, by)?;
        self.use_up_back(own, end, by)
    }

    /// Takes from the slack of the offsets ahead that reach a position, in the groups up to one.
    fn use_up_ahead(&mut self, last: usize, to: u32, by: u32) -> Result<(), AllocError> {
        let reach = reach(self.len);
        for number in (0..last.saturating_add(1)).rev() {
            let Some(group) = self.groups.get_mut(number) else {
                break;
            };
            if group.end.saturating_add(reach) < to {
                break;
            }
            if take(&mut group.ahead, by) {
                self.queue.push(number)?;
            }
        }
        Ok(())
    }

    /// Takes from the slack of the offsets back that reach a position, in the groups from one on.
    fn use_up_back(&mut self, first: usize, to: u32, by: u32) -> Result<(), AllocError> {
        let reach = reach(self.len);
        for number in first..self.groups.len() {
            let Some(group) = self.groups.get_mut(number) else {
                break;
            };
            if to.saturating_add(reach) < group.begin {
                break;
            }
            if take(&mut group.back, by) {
                self.queue.push(number)?;
            }
        }
        Ok(())
    }
}

/// Takes from what is left, and returns whether nothing is left that was there before.
fn take(left: &mut u32, by: u32) -> bool {
    let before = *left;
    *left = before.saturating_sub(by);
    0 < before && before <= by
}

/// How far offsets of a length reach: one byte less ahead than back.
fn reach(len: u8) -> u32
    ensures { result < 16777216 }
{
    match len {
        1 => 0x80,
        2 => 0x8000,
        _ => 0x80_0000,
    }
}

/// How many blocks a group of offsets of a length has.
fn group_size(len: u8) -> usize
    ensures { 0 < result }
{
    match len {
        1 => 64,
        2 => 256,
        _ => 2048,
    }
}
