//! The theory of the first fault in a stated order: which of several faults a call reports, and how code finds it.
//!
//! A contract states the order by the list of all faults that are present, and says that the first of them is reported.
//! Code asks rule after rule and stops at the first that is broken. The lemmas in proofs/ lead from the one to the other,
//! and say what is known of input that has no fault.
//!
//! Each function below does nothing: its contract is a law, of which proofs/ has the form for faults of any type.
#![tactic(auto)]

ghost use Rattle.faults.specs.Laws.{FirstOfPhases, FirstOfEach, FirstFound, NoneAtEach};

/// The first fault of two phases is that of the earlier one, if it has any.
pub fn first_of_phases()
    ensures { FirstOfPhases }
{}

/// A loop over a rule finds the first of the faults at each number.
pub fn first_of_each()
    ensures { FirstOfEach }
{}

/// What a loop finds first is the first of all.
pub fn first_found()
    ensures { FirstFound }
{}

/// Where no fault is present, none is at any number.
pub fn none_at_each()
    ensures { NoneAtEach }
{}
