ghost use Rattle.std.specs.Prelude.{◌≡◌};
ghost use Rattle.link_core.specs.DataParts.{holds};

use elf_objects::SectionKind;

/// A part of memory that objects have data for.
#[derive(Clone, Copy, Debug, PartialEq, Eq)]
pub(crate) enum DataPart {
    /// Data that may only be read.
    ReadOnly,
    /// Data that may be written, with bytes in the files.
    Writable,
    /// Zeros after these.
    Zero,
}

impl DataPart {
    /// Whether sections of a kind belong to the part.
    pub(crate) fn holds(self, kind: SectionKind) -> bool
        ensures { result ≡ holds self kind }
    {
        match self {
            DataPart::ReadOnly => matches!(kind, SectionKind::ReadOnly),
            DataPart::Writable => matches!(kind, SectionKind::Writable),
            DataPart::Zero => matches!(kind, SectionKind::Zero),
        }
    }
}
