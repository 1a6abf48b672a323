ghost use Rattle.std.specs.Prelude.{◌≡◌};
ghost use Rattle.lift_blocks.specs.Kept.{site_of};
ghost use Rattle.lift_blocks.specs.Listed.{shown as is_shown};

use symbols::Place;

/// A place of the source machine: an offset in bytes of a code section, or an operation of a stub. The stub whose number
/// is the count of the imports is the trap.
#[derive(Clone, Copy, Debug, PartialEq, Eq)]
pub enum Site {
    Code {
        object: u32,
        section: u32,
        offset: u64,
    },
    Stub {
        number: u32,
        at: u32,
    },
}

impl Site {
    /// The place as callers see it, by the number of imports.
    pub(crate) fn shown(self, imports: u32) -> Place
        ensures { result ≡ is_shown imports (site_of self) }
    {
        match self {
            Site::Code {
                object,
                section,
                offset,
            } => Place::Code {
                object,
                section,
                offset,
            },
            Site::Stub { number, .. } => if number < imports {
                Place::Import(number)
            } else {
                Place::Absent
            },
        }
    }
}
