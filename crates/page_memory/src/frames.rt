ghost use Rattle.std.specs.Prelude.{◌≡◌, List, ℕ, replicate, IfOk, length};
ghost use Rattle.std.specs.Borrow.{sem};

use std::alloc::{AllocError, Global};
use std::marker::Model;

/// 4096 bytes of memory of their own, which are given back when the frame is dropped.
///
/// A frame is one pointer to its bytes, since `Global` takes no space. Raw pointers are in its four functions alone:
/// `zeroed`, `view`, `view_mut` and `drop`.
pub struct Frame {
    at: *const [u8; 4096],
    alloc: Global,
    pub ghost bytes: { List ℕ },
}

impl Model for Frame {
    ghost use Rattle.std.specs.Prelude.{List, ℕ};
    ghost use Rattle.std.specs.Borrow.{Array, u8};
    ghost use Rattle.std_alloc.specs.Box.Ownership.{box_owns};
    ghost use Rattle.page_memory.specs.Tokens.{may_free};
    ghost use denote.Struct.Lending.{lent_at};

    ghost also_owns = { λ b. box_owns (may_free b.alloc) (Array u8 4096) b.at b.bytes };

    ghost also_shares = { λ b _ κ. lent_at (Array u8 4096) b.at b.bytes κ };
}

impl Frame {
    ghost use Rattle.page_memory.specs.Lending.{LendsBytes};

    /// A frame of zeros.
    pub fn zeroed(alloc: Global) -> Result<Frame, AllocError>
        ensures { IfOk result (λ f. f.bytes ≡ replicate 4096 0) }
    {
        match zeros(alloc) {
            Ok(block) => {
                let at = Box::into_raw(block).cast_const();
                Ok(Frame { at, alloc })
            }
            Err(refused) => Err(refused),
        }
    }

    /// The bytes.
    pub fn view(&self) -> &[u8]
        ensures bytes { result.now ≡ self.now.bytes }
        ensures whole { length result.now ≡ 4096 }
    {
        unsafe { &*self.at }
    }

    /// The bytes, to be changed.
    pub fn view_mut(&mut self) -> &mut [u8]
        ensures* writes_back { sem 𝓛 (LendsBytes self.entry result) }
        ensures bytes { result.now ≡ self.old.bytes }
        ensures whole { length result.now ≡ 4096 }
    {
        unsafe { &mut *self.at.cast_mut() }
    }
}

impl Drop for Frame {
    fn drop(self) {
        let Frame { at, alloc } = self;
        free(unsafe { Box::from_raw(alloc, at.cast_mut()) });
    }
}

/// Gives back the memory of the bytes.
fn free(block: Box<[u8; 4096]>) {
    drop(block);
}

/// 4096 zeros on the heap.
fn zeros(alloc: Global) -> Result<Box<[u8; 4096]>, AllocError>
    ensures { IfOk result (λ b. b.value ≡ replicate 4096 0) }
{
    let block = Box::new(alloc, [0; 4096])?;
    Ok(block)
}
