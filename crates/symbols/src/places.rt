ghost use Rattle.std.specs.Prelude.{◌≡◌, ◌<◌, length, IfOk, OnOk};
ghost use Rattle.symbols.specs.Wanted.{given_of};
ghost use Rattle.symbols.specs.Resolution.{answer_at};
ghost use Rattle.symbols.specs.Rows.{places_of_object, places_of_symbols, places_of_entries, HasAnswers, AddsAnswer};

use crate::answers::Answers;
use crate::link::Link;
use crate::parts::count_symbols;
use crate::place::{Answer, Place};
use crate::resolved::Places;
use std::alloc::{AllocError, Global};

impl Link<'_, '_> {
    /// The places of all symbols, object by object.
    pub(crate) fn symbol_places(&self, alloc: Global) -> Result<Vec<Places>, AllocError>
        ensures { IfOk result (λ rows. rows.items ≡ places_of_symbols (given_of self.now.objects.now self.now.wanted.now)) }
    {
        let mut rows = Vec::with_capacity(alloc, self.objects.len() as usize)?;
        for object in 0..self.objects.len() {
            rows.push(self.object_places(alloc, object)?)?;
        }
        Ok(rows)
    }

    /// The places of an object's symbols.
    fn object_places(&self, alloc: Global, object: u32) -> Result<Places, AllocError>
        requires { object < length self.now.objects.now }
        ensures { IfOk result (λ places. places ≡ places_of_object (given_of self.now.objects.now self.now.wanted.now) object) }
    {
        let count = count_symbols(self.objects, object);
        let mut places = Places::with_capacity(alloc, count)?;
        for number in 0..count {
            places.push(self.resolution(object, number))?;
        }
        Ok(places)
    }

    /// The places of the entries.
    pub(crate) fn entry_places(&self, alloc: Global) -> Result<Places, AllocError>
        ensures { IfOk result (λ places. places ≡ places_of_entries (given_of self.now.objects.now self.now.wanted.now)) }
    {
        let count = self.wanted.entries();
        let mut places = Places::with_capacity(alloc, count)?;
        for entry in 0..count {
            places.push(self.entry_place(entry))?;
        }
        Ok(places)
    }

    /// The names that stand for a number or an import.
    pub(crate) fn answers(&self, alloc: Global) -> Result<Answers, AllocError>
        ensures { IfOk result (HasAnswers (given_of self.now.objects.now self.now.wanted.now)) }
    {
        let mut answers = Answers::new(alloc);
        for at in 0..self.names.len() {
            self.add_answer(&mut answers, self.names.name(at))?;
        }
        Ok(answers)
    }

    /// Adds the answer to a name, where it has one.
    fn add_answer(&self, answers: &mut Answers, name: &[u8]) -> Result<(), AllocError>
        ensures { OnOk result (AddsAnswer (given_of self.now.objects.now self.now.wanted.now) name.now answers.old answers.new) }
    {
        if let Some(answer) = answer_at_place(self.name_place(name)) {
            answers.set(name, answer)?;
        }
        Ok(())
    }
}

/// The number or the import that a place is.
fn answer_at_place(place: Place) -> Option<Answer>
    ensures { result ≡ answer_at place }
{
    match place {
        Place::Number(number) => Some(Answer::Number(number)),
        Place::Import(at) => Some(Answer::Import(at)),
        _ => None,
    }
}
