ghost use Rattle.std.specs.Prelude.{◌≡◌, ◌++◌, ◌∷◌, [], OnOk, OnErr};
ghost use Rattle.outside.specs.Calls.{is_listed, counted};

use std::alloc::{AllocError, Global};
use std::marker::Model;

/// How many calls were made, and the numbers of those that are to fail. The first call is call 0.
#[derive(Debug, Drop)]
pub(crate) struct Calls {
    made: u64,
    failing: Vec<u64>,
}

impl Model for Calls {
    ghost use Rattle.outside.specs.Calls.{Calls};

    ghost Value = { Calls };

    ghost view = { λ c. record { made = c.made; failing = c.failing.items } };
}

impl Calls {
    pub(crate) fn new(alloc: Global) -> Calls
        ensures { result ≡ record { made = 0; failing = [] } }
    {
        Calls {
            made: 0,
            failing: Vec::new(alloc),
        }
    }

    /// Lists the call of this number.
    pub(crate) fn fail(&mut self, call: u64) -> Result<(), AllocError>
        ensures ok { OnOk result (self.new ≡ record self.old { failing = self.old.failing ++ call ∷ [] }) }
        ensures err { OnErr result (self.new ≡ self.old) }
    {
        self.failing.push(call)?;
        Ok(())
    }

    /// Counts the call that begins, and returns whether it is to fail.
    pub(crate) fn begin(&mut self) -> bool
        ensures listed { result ≡ is_listed self.old }
        ensures made { self.new ≡ counted self.old }
    {
        let is_listed = self.failing.contains(&self.made);
        self.made = self.made.saturating_add(1);
        is_listed
    }
}
