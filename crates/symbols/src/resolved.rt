ghost use Rattle.std.specs.Prelude.{◌≡◌, ◌<◌, ◌++◌, ◌∷◌, [], length, slice_get, Some, IsSome, OnOk, IfOk};
ghost use Rattle.symbols.specs.Resolved.{place_in, answer_in};

use crate::answers::Answers;
use crate::place::{Answer, Place};
use std::alloc::{AllocError, Global};
use std::marker::Model;

/// A list of places.
#[derive(Debug, Drop)]
pub(crate) struct Places {
    items: Vec<Place>,
}

impl Model for Places {
    ghost use Rattle.std.specs.Prelude.{List};
    ghost use Rattle.symbols.specs.declared.place.Place.{Place as ThePlace};

    ghost Value = { List ThePlace };

    ghost view = { λ p. p.items.items };
}

impl Places {
    /// No places, with room for `count`.
    pub(crate) fn with_capacity(alloc: Global, count: u32) -> Result<Places, AllocError>
        ensures { IfOk result (λ places. places ≡ []) }
    {
        Ok(Places {
            items: Vec::with_capacity(alloc, count as usize)?,
        })
    }

    pub(crate) fn push(&mut self, place: Place) -> Result<(), AllocError>
        ensures { OnOk result (self.new ≡ self.old ++ place ∷ []) }
    {
        self.items.push(place)?;
        Ok(())
    }

    pub(crate) fn at(&self, number: usize) -> Place
        requires { number < length self.now }
        ensures { slice_get self.now number ≡ Some result }
    {
        self.items[number]
    }
}

/// What every symbol and every entry of a link stands for.
#[derive(Drop)]
pub struct Resolved {
    symbols: Vec<Places>,
    entries: Places,
    answers: Answers,
}

impl Model for Resolved {
    ghost use Rattle.symbols.specs.Resolved.{Resolved as TheResolved};

    ghost Value = { TheResolved };

    ghost view = { λ r. record { symbols = r.symbols.items; entries = r.entries; answers = r.answers } };
}

impl Resolved {
    pub(crate) fn new(symbols: Vec<Places>, entries: Places, answers: Answers) -> Resolved
        ensures { result ≡ record { symbols = symbols.items; entries = entries; answers = answers } }
    {
        Resolved {
            symbols,
            entries,
            answers,
        }
    }

    /// What a symbol of an object stands for, by their numbers.
    pub fn place(&self, object: u32, symbol: u32) -> Place
        requires { IsSome (place_in self.now object symbol) }
        ensures { place_in self.now object symbol ≡ Some result }
    {
        self.symbols[object as usize].at(symbol as usize)
    }

    /// What the name of an entry stands for, by the entry's number.
    pub fn entry(&self, at: u32) -> Place
        requires { at < length self.now.entries }
        ensures { slice_get self.now.entries at ≡ Some result }
    {
        self.entries.at(at as usize)
    }

    /// The number or the import that a GLOBAL symbol of this name stands for, and none where that is a place, a
    /// definition that takes no part in the program, or nothing.
    pub fn lookup(&self, name: &[u8]) -> Option<Answer>
        ensures { result ≡ answer_in self.now name.now }
    {
        self.answers.get(name)
    }
}
