ghost use Rattle.std.specs.Prelude.{◌≡◌, ◌<◌, ◌+◌, ◌*◌, ◌^◌, length, slice_get, ◌++◌, ◌∷◌, [], Some, IsSome, IfOk, OnOk};
ghost use Rattle.layout.specs.Placed.{place_in, slot_in, got_in};

use crate::parts::Parts;
use crate::slots::Slots;
use std::alloc::{AllocError, Global};
use std::marker::Model;
use symbols::Place;

/// Where the sections of a link's objects are loaded.
#[derive(Drop)]
pub struct Placed {
    addresses: Vec<Addresses>,
    slots: Slots,
    slots_start: u32,
    read_only_len: u32,
    writable_len: u32,
    zero_pages: u32,
}

/// The addresses of the sections of an object.
#[derive(Drop)]
pub(crate) struct Addresses {
    items: Vec<Option<u32>>,
}

impl Model for Addresses {
    ghost use Rattle.std.specs.Prelude.{ℕ, List, Option};

    ghost Value = { List (Option ℕ) };

    ghost view = { λ a. a.items.items };
}

impl Model for Placed {
    ghost use Rattle.std.specs.Prelude.{◌<◌, ◌+◌, ◌*◌, ◌^◌, length};
    ghost use Rattle.layout.specs.Placed.{Placed as ThePlaced};

    ghost Value = { ThePlaced };

    ghost view = { λ p. record { addresses = p.addresses.items; slots = p.slots; slots_start = p.slots_start; read_only_len = p.read_only_len; writable_len = p.writable_len; zero_pages = p.zero_pages } };

    ghost invariant = { λ p. p.slots_start + 8 * length p.slots < 2 ^ 32 };
}

impl Addresses {
    /// No addresses, with room for the given number.
    pub(crate) fn with_capacity(alloc: Global, count: u32) -> Result<Addresses, AllocError>
        ensures { IfOk result (λ addresses. addresses ≡ []) }
    {
        Ok(Addresses {
            items: Vec::with_capacity(alloc, count as usize)?,
        })
    }

    pub(crate) fn push(&mut self, address: Option<u32>) -> Result<(), AllocError>
        ensures { OnOk result (self.new ≡ self.old ++ address ∷ []) }
    {
        self.items.push(address)?;
        Ok(())
    }
}

impl Placed {
    pub(crate) fn new(addresses: Vec<Addresses>, slots: Slots, parts: Parts) -> Placed
        requires { parts.slots_start + 8 * length slots < 2 ^ 32 }
        ensures { result ≡ record { addresses = addresses.items; slots = slots; slots_start = parts.slots_start; read_only_len = parts.read_only_len; writable_len = parts.writable_len; zero_pages = parts.zero_pages } }
    {
        Placed {
            addresses,
            slots,
            slots_start: parts.slots_start,
            read_only_len: parts.read_only_len,
            writable_len: parts.writable_len,
            zero_pages: parts.zero_pages,
        }
    }

    /// The address of a section of an object, by their numbers. Code has none, nor what isn't loaded.
    pub fn address(&self, object: u32, section: u32) -> Option<u32>
        requires { IsSome (place_in self.now object section) }
        ensures { place_in self.now object section ≡ Some result }
    {
        self.addresses[object as usize].items[section as usize]
    }

    /// The address of a place's slot, where it has one.
    pub fn slot(&self, place: Place) -> Option<u32>
        ensures { result ≡ slot_in self.now place }
    {
        let at = self.slots.find(place)?;
        Some(self.slots_start + 8 * at as u32)
    }

    /// The address and the bytes of the table of slots, where it has one.
    pub fn got(&self) -> Option<(u32, u32)>
        ensures { result ≡ got_in self.now }
    {
        if self.slots.len() == 0 {
            None
        } else {
            Some((self.slots_start, 8 * self.slots.len() as u32))
        }
    }

    /// The number of slots.
    pub fn slots(&self) -> u32
        ensures { result ≡ length self.now.slots }
    {
        self.slots.len() as u32
    }

    /// The place that a slot is for, by the slot's number.
    pub fn slot_place(&self, at: u32) -> Place
        requires { at < length self.now.slots }
        ensures { slice_get self.now.slots at ≡ Some result }
    {
        self.slots.place(at as usize)
    }

    /// The bytes of the read-only part, below 2^24.
    pub fn read_only_len(&self) -> u32
        ensures { result ≡ self.now.read_only_len }
    {
        self.read_only_len
    }

    /// The bytes of the writable part, below 2^24.
    pub fn writable_len(&self) -> u32
        ensures { result ≡ self.now.writable_len }
    {
        self.writable_len
    }

    /// The number of pages of zeros after the writable part, below 2^16.
    pub fn zero_pages(&self) -> u32
        ensures { result ≡ self.now.zero_pages }
    {
        self.zero_pages
    }
}
