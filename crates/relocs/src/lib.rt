//! The places of code and the address map: the places of the source machine, and the numbers of those that it can jump to by
//! a register; what relocations mean; and the images of the data.
#![tactic(auto)]

ghost use Rattle.relocs.specs.Laws.{ImagesHaveLengths};

mod bytes;
mod code_faults;
mod code_map;
mod code_words;
mod data_bytes;
mod data_faults;
mod fault;
mod found;
mod halves;
mod kinds;
mod make_images;
mod means;
mod near;
mod operand;
mod part;
mod patch;
mod refusals;
mod rows;
mod sections_image;
mod sites;
mod sources;
mod tables;

pub use bytes::Images;
pub use code_map::CodeMap;
pub use fault::{
    AUIPC_UNRELOCATED, BAD_REGISTER, BAD_TARGET, BAD_WORD, ECALL, INTO_PAIR, LOAD_TO_ZERO,
    MISSING_HIGH, NOT_A_PLACE, RelocFault, VALUE_OUT_OF_RANGE, WRONG_DATA_RELOCATION,
    WRONG_RELOCATION,
};
pub use kinds::{Kind, kind_of};
use layout::aligned_is_least;
pub use make_images::images;
pub use means::meaning;
pub use operand::Operand;
pub use sites::{holds_auipc, joins};
pub use sources::Sources;
pub use tables::Tables;

/// A law of the images: they have as many bytes as the layout says of their parts. It does nothing.
#[tactic(auto, using(crate::proofs::Lengths::lengths))]
pub fn images_have_lengths()
    ensures { ImagesHaveLengths }
{
    aligned_is_least();
}
