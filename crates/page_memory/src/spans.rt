ghost use Rattle.std.specs.Prelude.{◌≡◌, ◌+◌, ◌^◌, ◌≤◌, false, None, IfSome, length};
ghost use Rattle.std.specs.Option.{option_copied};
ghost use Rattle.page_memory.specs.Access.{least_refused, touched};
ghost use Rattle.page_memory.specs.Ranges.{is_barred, IsLeastBarred, lent};

use crate::memory::Memory;

/// Ranges of bytes.
impl Memory {
    /// The least address of a range that may not be read, or written. The range does not wrap: an address of 2^32 or
    /// more may be neither.
    pub fn refused(&self, at: u64, len: u64, writing: bool) -> Option<u64>
        ensures { IsLeastBarred self.now writing at len result }
    {
        let mut next = at;
        let mut left = len;
        while left > 0 {
            if self.bars(writing, next) {
                return Some(next);
            }
            let step = left.min(4096 - next % 4096);
            next += step;
            left -= step;
        }
        None
    }

    /// Whether an address may not be read, or written.
    fn bars(&self, writing: bool, at: u64) -> bool
        ensures { result ≡ is_barred self.now writing at }
    {
        if at >= 0x1_0000_0000 {
            return true;
        }
        self.refuses(writing, at as u32)
    }

    /// The least address that an access touches and may not.
    pub(crate) fn least_refused(&self, writing: bool, at: u32, len: u32) -> Option<u32>
        ensures { result ≡ least_refused self.now writing at len }
    {
        let end = u64::from(at) + u64::from(len);
        if end <= 0x1_0000_0000 {
            return self.least_in(writing, at, u64::from(len));
        }
        match self.least_in(writing, 0, end - 0x1_0000_0000) {
            Some(least) => Some(least),
            None => self.least_in(writing, at, 0x1_0000_0000 - u64::from(at)),
        }
    }

    /// The least address that an access touches and may not, where it ends at 2^32 or before.
    fn least_in(&self, writing: bool, at: u32, len: u64) -> Option<u32>
        requires { at + len ≤ 2 ^ 32 }
        ensures { result ≡ least_refused self.now writing at len }
    {
        match self.refused(u64::from(at), len, writing) {
            Some(least) => Some(least as u32),
            None => None,
        }
    }

    /// Borrows the bytes of a range, where it is within one page that may be read. An empty range always is.
    pub fn lend(&self, at: u32, len: u32) -> Option<&[u8]>
        ensures lent { option_copied result ≡ lent self.now at len }
        ensures whole { IfSome result (λ bytes. length bytes.now ≡ len) }
        ensures touched { IfSome result (λ bytes. bytes.now ≡ touched self.now at len) }
    {
        self.view(at, len)
    }

    /// What `lend` returns: bytes that a load may touch.
    #[tactic(auto, using(crate::proofs::Views::viewed_at), unfolding(crate::specs::Access::least_refused, crate::specs::Access::touched))]
    pub(crate) fn view(&self, at: u32, len: u32) -> Option<&[u8]>
        ensures lent { option_copied result ≡ lent self.now at len }
        ensures whole { IfSome result (λ bytes. length bytes.now ≡ len) }
        ensures touched { IfSome result (λ bytes. bytes.now ≡ touched self.now at len) }
        ensures allowed { IfSome result (λ _. least_refused self.now false at len ≡ None) }
    {
        if len == 0 {
            return Some(&[]);
        }
        match self.pages.page(at / 4096) {
            Some(page) => page.lend((at % 4096) as usize, len as usize),
            None => None,
        }
    }
}
