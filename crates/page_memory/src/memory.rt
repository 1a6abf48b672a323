ghost use Rattle.std.specs.Prelude.{◌≡◌, ◌≢◌, ◌%◌, length, if◌then◌else◌, is_some, IsSome};
ghost use Rattle.std.specs.FinMap as map;
ghost use Rattle.machine_state.specs.Memory.{no_memory};
ghost use Rattle.machine_state.specs.Output.{page_at};
ghost use Rattle.page_memory.specs.Access.{byte_of, with_bytes, is_refused};
ghost use Rattle.page_memory.specs.Answers.{mode_of};
ghost use Rattle.page_memory.specs.Pages.{with_page, takes, HasAddresses};
ghost use Rattle.page_memory.specs.Mapping.{with_mode};

use crate::mode::Mode;
use crate::tables::PageTable;
use std::alloc::Global;
use std::marker::Model;

/// A memory of 2^32 bytes in pages of 4096. Page numbers are addresses divided by 4096, so below 2^20.
#[derive(Drop)]
pub struct Memory {
    pub(crate) pages: PageTable,
    pub(crate) mapped: u32,
    pub(crate) alloc: Global,
}

impl Model for Memory {
    ghost use Rattle.std.specs.Prelude.{◌≡◌};
    ghost use Rattle.std.specs.FinMap as map;
    ghost use Rattle.machine_state.specs.Memory as model;
    ghost use Rattle.machine_state.specs.Codes.{memory_code};
    ghost use Rattle.page_memory.specs.Pages.{memory_of, HasAddresses};

    ghost Value = { model.Memory };

    ghost coded = { memory_code };

    ghost view = { λ m. memory_of m.pages };

    ghost invariant = { λ m. (m.mapped ≡ map.len (memory_of m.pages)) × HasAddresses (memory_of m.pages) };
}

impl Memory {
    /// A memory without a page.
    pub fn new(alloc: Global) -> Memory
        ensures { result ≡ no_memory }
    {
        Memory {
            pages: PageTable::new(alloc),
            mapped: 0,
            alloc,
        }
    }

    /// How many pages the memory has.
    pub fn frames(&self) -> u32
        ensures { result ≡ map.len self.now }
    {
        self.mapped
    }

    /// The mode of the page with a number. One that isn't in the memory is unmapped, as is each from 2^20 on.
    #[tactic(auto, using(crate::proofs::Views::whole))]
    pub fn mode(&self, page: u32) -> Mode
        ensures { result ≡ mode_of self.now page }
    {
        let pages = &self.pages;
        if page >= 0x10_0000 {
            return Mode::Unmapped;
        }
        match pages.page(page) {
            Some(found) => found.mode(),
            None => Mode::Unmapped,
        }
    }

    /// Whether the memory has the page with a number.
    pub(crate) fn has(&self, page: u32) -> bool
        ensures { result ≡ is_some (map.get self.now page) }
    {
        match self.mode(page) {
            Mode::Unmapped => false,
            Mode::Readable => true,
            Mode::Writable => true,
        }
    }

    /// Pages have the numbers from 16 on, below 2^20: so addresses from 2^16 on, below 2^32. A law: it does nothing.
    pub fn pages_have_numbers(&self)
        ensures { HasAddresses self.now }
    {
        let _ = &self.pages;
    }

    /// Gives a page another mode. It keeps its bytes.
    pub(crate) fn set_mode(&mut self, page: u32, mode: Mode)
        requires allows { mode ≢ Mode.Unmapped }
        requires mapped { IsSome (map.get self.old page) }
        ensures { self.new ≡ with_page self.old page (with_mode mode (map.get self.old page)) }
    {
        if let Some(found) = self.pages.page_mut(page) {
            found.set_mode(mode);
        }
    }

    /// Takes a page out of the memory, if it is one of it.
    pub(crate) fn remove(&mut self, page: u32)
        ensures { self.new ≡ map.remove self.old page }
    {
        if self.has(page) {
            self.pages.set(page, None);
            self.mapped -= 1;
        }
    }

    /// The byte at an address, and 0 where its page isn't in the memory.
    #[tactic(auto, using(crate::proofs::Views::viewed_at))]
    pub(crate) fn byte(&self, at: u32) -> u8
        ensures { result ≡ byte_of self.now at }
    {
        match self.pages.page(at / 4096) {
            Some(page) => page.byte((at % 4096) as usize),
            None => 0,
        }
    }

    /// Stores bytes from an address on, where they are within one page that may be written. Returns whether they are.
    #[inline(always)]
    pub(crate) fn put(&mut self, at: u32, bytes: &[u8]) -> bool
        ensures answer { result ≡ takes (page_at self.old at) (at % 4096) (length bytes.now) }
        ensures memory { self.new ≡ (if result then with_bytes self.old at bytes.now else self.old) }
    {
        match self.pages.page_mut(at / 4096) {
            Some(page) => page.put((at % 4096) as usize, bytes),
            None => false,
        }
    }

    /// Whether a load, or a store, may not touch an address.
    pub(crate) fn refuses(&self, writing: bool, at: u32) -> bool
        ensures { result ≡ is_refused self.now writing at }
    {
        match self.mode(at / 4096) {
            Mode::Unmapped => true,
            Mode::Readable => writing,
            Mode::Writable => false,
        }
    }
}
