ghost use Rattle.std.specs.Prelude.{◌≡◌, ◌<◌, ◌/◌, ◌^◌, ℕ, [], length, slice_index_or, slice_set, Some, None, IfOk, OnOk, replicate};
ghost use Rattle.std.specs.Option.{option_copied, option_copied_mut};
ghost use Rattle.std.specs.Borrow.{sem};
ghost use Rattle.page_memory.specs.Pages.{kept_at, with_place, memory_of, IsKept, HasPlace, SamePlaces};

use crate::page::Page;
use std::alloc::{AllocError, Global};
use std::marker::Model;

/// A page table of the lower level: places for the pages with 1,024 numbers in a row.
#[derive(Drop)]
pub(crate) struct LeafTable {
    places: Vec<Option<Page>>,
}

impl Model for LeafTable {
    ghost use Rattle.std.specs.Prelude.{◌≡◌, List, Option, length};
    ghost use Rattle.page_memory.specs.Pages.{Kept};

    ghost Value = { List (Option Kept) };

    ghost view = { λ s. s.places.items };

    ghost invariant = { λ s. length s.places.items ≡ 1024 };
}

impl LeafTable {
    ghost use Rattle.page_memory.specs.Places.{LendsPlace};

    /// The page at a place.
    pub(crate) fn page(&self, at: usize) -> Option<&Page>
        requires { at < 1024 }
        ensures { option_copied result ≡ slice_index_or self.now at None }
    {
        self.places[at].as_ref()
    }

    /// The page at a place, to be changed.
    pub(crate) fn page_mut(&mut self, at: usize) -> Option<&mut Page>
        requires { at < 1024 }
        ensures* writes_back { sem 𝓛 (LendsPlace self.entry at result) }
        ensures value { option_copied_mut result ≡ slice_index_or self.old at None }
    {
        self.places[at].as_mut()
    }

    /// Puts a page at a place, or none.
    pub(crate) fn set(&mut self, at: usize, page: Option<Page>)
        requires { at < 1024 }
        ensures { self.new ≡ slice_set self.old at page }
    {
        self.places[at] = page;
    }

    /// A leaf has 1,024 places. A law: it does nothing.
    pub(crate) fn is_whole(&self)
        ensures { length self.now ≡ 1024 }
    {
        let _ = &self.places;
    }

    /// A leaf without a page.
    pub(crate) fn empty(alloc: Global) -> Result<LeafTable, AllocError>
        ensures { IfOk result (λ s. s ≡ replicate 1024 None) }
    {
        let mut places = Vec::with_capacity(alloc, 1024)?;
        for _ in 0..1024_u32 {
            places.push(None)?;
        }
        Ok(LeafTable { places })
    }
}

/// A page table of two levels, as that of RISC-V's Sv32: a root of 1,024 leaves, so places for 2^20 pages. The root is
/// made with the first page, and each leaf with the first page in it.
#[derive(Drop)]
pub(crate) struct PageTable {
    leaves: Vec<Option<LeafTable>>,
}

impl Model for PageTable {
    ghost use Rattle.std.specs.Prelude.{◌≡◌, ◌<◌, List, Option, length};
    ghost use Rattle.page_memory.specs.Pages.{Kept};

    ghost Value = { List (Option (List (Option Kept))) };

    ghost view = { λ t. t.leaves.items };

    ghost invariant = { λ t. 0 < length t.leaves.items → length t.leaves.items ≡ 1024 };
}

impl PageTable {
    ghost use Rattle.page_memory.specs.Places.{LendsLeaf, LendsPage};

    /// A page table without a root.
    pub(crate) fn new(alloc: Global) -> PageTable
        ensures { result ≡ [] }
    {
        PageTable {
            leaves: Vec::new(alloc),
        }
    }

    /// The page at the place of a number.
    pub(crate) fn page(&self, number: u32) -> Option<&Page>
        ensures { option_copied result ≡ kept_at self.now number }
    {
        match self.leaves.get((number / 1024) as usize) {
            Some(Some(leaf)) => leaf.page((number % 1024) as usize),
            Some(None) => None,
            None => None,
        }
    }

    /// The leaf of a number.
    fn leaf_mut(&mut self, number: u32) -> Option<&mut LeafTable>
        ensures* writes_back { sem 𝓛 (LendsLeaf self.entry number result) }
        ensures value { option_copied_mut result ≡ slice_index_or self.old (number / 1024) None }
    {
        let place = self.leaves.get_mut((number / 1024) as usize)?;
        place.as_mut()
    }

    /// The page at the place of a number, to be changed.
    pub(crate) fn page_mut(&mut self, number: u32) -> Option<&mut Page>
        ensures* writes_back { sem 𝓛 (LendsPage self.entry number result) }
        ensures value { option_copied_mut result ≡ kept_at self.old number }
    {
        let place = self.leaves.get_mut((number / 1024) as usize)?;
        let leaf = place.as_mut()?;
        leaf.page_mut((number % 1024) as usize)
    }

    /// Puts a page at the place of a number, or none.
    pub(crate) fn set(&mut self, number: u32, page: Option<Page>)
        ensures { self.new ≡ with_place self.old number page }
    {
        match self.leaf_mut(number) {
            Some(leaf) => leaf.set((number % 1024) as usize, page),
            None => drop(page),
        }
    }

    /// Reserves a page for a number, if none is kept. The memory stays as it is.
    pub(crate) fn reserve(&mut self, alloc: Global, number: u32) -> Result<(), AllocError>
        requires { number < 2 ^ 20 }
        ensures same { memory_of self.new ≡ memory_of self.old }
        ensures there { OnOk result (IsKept self.new number) }
        ensures kept { (q : ℕ) → IsKept self.old q → IsKept self.new q }
    {
        self.make_root(alloc)?;
        self.make_leaf(alloc, number)?;
        if self.page(number).is_none() {
            let page = Page::unmapped(alloc)?;
            self.set(number, Some(page));
        }
        Ok(())
    }

    /// Makes the root, if there is none.
    fn make_root(&mut self, alloc: Global) -> Result<(), AllocError>
        ensures same { SamePlaces self.old self.new }
        ensures made { OnOk result (length self.new ≡ 1024) }
    {
        if self.leaves.is_empty() {
            self.leaves = empty_root(alloc)?;
        }
        Ok(())
    }

    /// Makes the leaf of a number, if there is none.
    fn make_leaf(&mut self, alloc: Global, number: u32) -> Result<(), AllocError>
        requires within { number < 2 ^ 20 }
        requires made { length self.old ≡ 1024 }
        ensures same { SamePlaces self.old self.new }
        ensures place { OnOk result (HasPlace self.new number) }
    {
        let at = (number / 1024) as usize;
        if let Some(leaf) = &self.leaves[at] {
            leaf.is_whole();
            return Ok(());
        }
        let leaf = LeafTable::empty(alloc)?;
        self.leaves[at] = Some(leaf);
        Ok(())
    }
}

/// A root without leaves.
fn empty_root(alloc: Global) -> Result<Vec<Option<LeafTable>>, AllocError>
    ensures { IfOk result (λ v. v.items ≡ replicate 1024 None) }
{
    let mut leaves = Vec::with_capacity(alloc, 1024)?;
    for _ in 0..1024_u32 {
        leaves.push(None)?;
    }
    Ok(leaves)
}
