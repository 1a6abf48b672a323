ghost use Rattle.std.specs.Prelude.{◌≡◌, ◌<◌, ◌≤◌, ℕ, true, None, is_some, length, IfNone, OnOk, OnErr, IfSome, Some, slice_set};
ghost use Rattle.std.specs.Option.{option_copied, option_copied_mut};
ghost use Rattle.std.specs.FinMap as map;
ghost use Rattle.std.proofs.Math.ListN.{get_or};
ghost use Rattle.std.specs.Borrow.{sem};
ghost use Rattle.inner_machines.specs.Inner.{no_inners, counted, machines, most_machines, least_free};
ghost use Rattle.inner_machines.specs.Views.{inners_of};
ghost use Rattle.inner_machines.specs.Lending.{LendsInner};

use crate::inner::Inner;
use std::alloc::{AllocError, Global};
use std::marker::Model;

/// The most machines at a time.
const MOST_MACHINES: usize = 1024;

/// The machines by their numbers, with a gap for each number that none has.
#[derive(Drop)]
pub(crate) struct Slots {
    slots: Vec<Option<Inner>>,
}

impl Model for Slots {
    ghost use Rattle.std.specs.Prelude.{◌≤◌, length};
    ghost use Rattle.inner_machines.specs.Inner.{Inners, inners_code, most_machines};
    ghost use Rattle.inner_machines.specs.Views.{inners_of};

    ghost Value = { Inners };

    ghost coded = { inners_code };

    ghost view = { λ s. inners_of s.slots.items };

    ghost invariant = { λ s. length s.slots.items ≤ most_machines };
}

impl Slots {
    /// No machine.
    pub(crate) fn new(alloc: Global) -> Slots
        ensures { result ≡ no_inners }
    {
        Slots {
            slots: Vec::new(alloc),
        }
    }

    /// The number of machines.
    pub(crate) fn count(&self) -> u32
        ensures count { result ≡ machines self.now }
        ensures few { result ≤ most_machines }
    {
        count(&self.slots)
    }

    /// The machine with a number.
    pub(crate) fn find(&self, number: u64) -> Option<&Inner>
        ensures value { option_copied result ≡ map.get self.now number }
        ensures below { IfSome result (λ _. number < most_machines) }
    {
        match self.slots.get(number as usize) {
            Some(Some(inner)) => Some(inner),
            Some(None) => None,
            None => None,
        }
    }

    /// The machine with a number, to be changed.
    pub(crate) fn find_mut(&mut self, number: u64) -> Option<&mut Inner>
        ensures* writes_back { sem 𝓛 (LendsInner self.entry number result) }
        ensures value { option_copied_mut result ≡ map.get self.old number }
        ensures below { IfSome result (λ _. number < most_machines) }
    {
        match self.slots.get_mut(number as usize) {
            Some(slot) => slot.as_mut(),
            None => None,
        }
    }

    /// Takes the machine with a number away.
    pub(crate) fn remove(&mut self, number: u64) -> Option<Inner>
        ensures found { result ≡ map.get self.old number }
        ensures gone { self.new ≡ map.remove self.old number }
        ensures same { IfNone result (self.new ≡ self.old) }
        ensures below { IfSome result (λ _. number < most_machines) }
    {
        let at = number as usize;
        if at >= self.slots.len() {
            return None;
        }
        self.slots[at].take()
    }

    /// The least number that no machine has, if there is one.
    pub(crate) fn least_free(&self) -> Option<u64>
        ensures { result ≡ least_free self.now }
    {
        let at = first_gap(&self.slots);
        if at >= MOST_MACHINES {
            return None;
        }
        Some(at as u64)
    }

    /// Adds a machine with the least free number.
    #[tactic(auto, using(crate::proofs::Least::free_below))]
    pub(crate) fn add(&mut self, number: u64, inner: Inner) -> Result<(), AllocError>
        requires { least_free self.old ≡ Some number }
        ensures added { OnOk result (self.new ≡ map.insert self.old number inner) }
        ensures stays { OnErr result (self.new ≡ self.old) }
    {
        let at = number as usize;
        if at < self.slots.len() {
            fill(&mut self.slots, at, inner);
        } else {
            self.slots.push(Some(inner))?;
        }
        Ok(())
    }
}

/// Puts a machine into a place, in which there was a gap.
fn fill(slots: &mut Vec<Option<Inner>>, at: usize, inner: Inner)
    requires { at < length slots.old.items }
    ensures { slots.new.items ≡ slice_set slots.old.items at (Some inner) }
{
    slots[at] = Some(inner);
}

/// How many slots have a machine.
fn count(slots: &[Option<Inner>]) -> u32
    requires { length slots.now ≤ most_machines }
    ensures count { result ≡ machines (inners_of slots.now) }
    ensures few { result ≤ most_machines }
{
    let mut count = 0;
    for at in 0..slots.len() {
        count += one(&slots[at]);
    }
    count
}

/// How many machines a slot has: one, or none.
fn one(slot: &Option<Inner>) -> u32
    ensures value { result ≡ counted (λ inner. 1) slot.now }
    ensures few { result ≤ 1 }
{
    match slot {
        Some(_) => 1,
        None => 0,
    }
}

/// The index of the first gap, or the one after the last machine if there is none.
fn first_gap(slots: &[Option<Inner>]) -> usize
    ensures within { result ≤ length slots.now }
    ensures gap { get_or slots.now result None ≡ None }
    ensures before { (q : ℕ) → q < result → is_some (get_or slots.now q None) ≡ true }
{
    let mut at = 0;
    while at < slots.len() {
        match &slots[at] {
            Some(_) => at += 1,
            None => return at,
        }
    }
    at
}
