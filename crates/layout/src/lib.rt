//! Where the data of a link's objects are loaded: the addresses of their sections, and how many bytes and pages they take.
//!
//! The rule is in `specs/Addresses.antt` and its faults are in `specs/Faults.antt`. `place_all` returns a `Placed`, which the
//! later parts of the linker read.
#![tactic(auto)]

ghost use Rattle.layout.specs.Laws.{AlignedIsLeast, ZeroPagesAreLeast};

mod ends;
mod fault;
mod next;
mod parts;
mod placed;
mod placer;
mod slots;

pub use ends::bytes_of;
pub use fault::{
    CODE_TOO_LARGE, LayoutFault, READ_ONLY_TOO_LARGE, WRITABLE_TOO_LARGE, ZERO_TOO_LARGE,
};
pub use placed::Placed;
pub use placer::place_all;

/// A law of addresses: what is aligned is the least multiple of the alignment from an address on. It does nothing.
pub fn aligned_is_least()
    ensures { AlignedIsLeast }
{}

/// A law of the zero pages: they are the least number that holds the sections of zeros after the pages of the writable part.
/// It does nothing.
pub fn zero_pages_are_least()
    ensures { ZeroPagesAreLeast }
{}
