//! The meaning of the symbols of a link's objects and of the names of its entries (System V gABI, "Symbol Table").
//!
//! The input of a link is in `specs/Wanted.antt`, the rule in `specs/Resolution.antt` and its faults in
//! `specs/Faults.antt`. `resolve` computes it in one table of names and answers a `Resolved`, which the later parts of
//! the linker ask.
#![tactic(auto)]

ghost use Rattle.symbols.specs.Laws.{PlacesAreWithin};

mod answers;
mod checks;
mod fault;
mod link;
mod meanings;
mod named;
mod names;
mod parts;
mod place;
mod places;
mod resolved;
mod resolver;
mod wanted;

pub use fault::{COMMON, DUPLICATE, ENTRY_MISSING, ENTRY_NOT_CODE, SymbolFault, UNDEFINED};
pub use named::has_effect;
pub use place::{Answer, Place};
pub use resolved::Resolved;
pub use resolver::resolve;
pub use wanted::{ImportKind, Wanted};

/// A law of the places that symbols and entries stand for: the sections and imports that they name are there. It does
/// nothing.
pub fn places_are_within()
    ensures { PlacesAreWithin }
{}
