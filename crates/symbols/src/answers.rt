ghost use Rattle.std.specs.Prelude.{◌≡◌, [], OnOk};
ghost use Rattle.std.specs.Map.{lookup};
ghost use Rattle.symbols.specs.Parts.{same};
ghost use Rattle.symbols.specs.Rows.{SetsAnswer};

use crate::place::Answer;
use std::alloc::{AllocError, Global};
use std::collections::BTreeMap;
use std::marker::Model;

/// The names that stand for a number or an import, with copies of the names, found by their order.
#[derive(Drop)]
pub(crate) struct Answers {
    alloc: Global,
    answers: BTreeMap<Vec<u8>, Answer>,
}

impl Model for Answers {
    ghost use Rattle.std.specs.Prelude.{ℕ, List, map};
    ghost use Rattle.symbols.specs.declared.place.Answer.{Answer as TheAnswer};

    ghost Value = { List (List ℕ × TheAnswer) };

    ghost view = { λ a. map (λ e. (e.0.items, e.1)) a.answers.entries };
}

impl Answers {
    pub(crate) fn new(alloc: Global) -> Answers
        ensures { result ≡ [] }
    {
        Answers {
            alloc,
            answers: BTreeMap::new(alloc),
        }
    }

    /// What a name stands for, where there is an answer.
    pub(crate) fn get(&self, name: &[u8]) -> Option<Answer>
        ensures { result ≡ lookup (same name.now) self.now }
    {
        self.answers.get(name).copied()
    }

    /// Sets what a name stands for.
    pub(crate) fn set(&mut self, name: &[u8], answer: Answer) -> Result<(), AllocError>
        ensures { OnOk result (SetsAnswer name.now answer self.old self.new) }
    {
        let name = name.to_vec(self.alloc)?;
        self.answers.insert(name, answer)?;
        Ok(())
    }
}
