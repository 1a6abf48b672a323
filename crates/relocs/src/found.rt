ghost use Rattle.std.specs.Prelude.{◌≡◌, ◌<◌, ◌^◌, ◌-◌, length, if◌then◌else◌};
ghost use Rattle.faults.specs.First.{◌or_else◌, where_true};
ghost use Rattle.relocs.specs.Kinds.{is_call as is_the_call, kind_of as the_kind};
ghost use Rattle.relocs.specs.ByOffset.{calls as the_calls};
ghost use Rattle.relocs.specs.Pairs.{relocation_is_at};
ghost use Rattle.std.specs.List.{filter};
ghost use Rattle.relocs.specs.Sites.{found_of, found_more, gives_high as gives_the_high};

use crate::kinds::{Kind, kind_of};
use elf_objects::Relocation;
use symbols::has_effect;

/// A summary of the relocations at one offset.
#[derive(Clone, Copy, Debug)]
pub(crate) struct Found {
    /// Their number.
    pub count: usize,
    /// Whether a CALL is among them.
    pub call: bool,
    /// The first that gives an `auipc` its value.
    pub high: Option<Relocation>,
}

impl Found {
    /// The summary of these relocations, by the CALLs among them and those that give an `auipc` its value.
    #[tactic(auto, using(crate::proofs::Parting::parts))]
    pub(crate) fn of(row: &[Relocation], calls: &[Relocation], highs: &[Relocation]) -> Found
        requires calls { calls.now ≡ filter the_calls row.now }
        requires highs { highs.now ≡ filter gives_the_high row.now }
        ensures { result ≡ found_of row.now }
    {
        Found {
            count: row.len(),
            call: !calls.is_empty(),
            high: highs.first().copied(),
        }
    }

    /// The summary of one relocation, or of none.
    #[tactic(auto, using(crate::proofs::Parting::few))]
    #[inline(always)]
    pub(crate) fn of_few(row: &[Relocation]) -> Found
        requires { length row.now < 2 }
        ensures { result ≡ found_of row.now }
    {
        match row.first() {
            Some(only) => Found {
                count: 1,
                call: is_call(*only),
                high: if_high(*only),
            },
            None => Found {
                count: 0,
                call: false,
                high: None,
            },
        }
    }

    /// The same with one relocation more, where it is at the offset.
    pub(crate) fn with(self, relocation: Relocation, offset: u64) -> Found
        requires { self.count < 2 ^ 64 - 1 }
        ensures { result ≡ (if relocation_is_at offset relocation then found_more self relocation else self) }
    {
        if has_effect(relocation.kind) && relocation.offset == offset {
            self.with_one(relocation)
        } else {
            self
        }
    }

    fn with_one(self, relocation: Relocation) -> Found
        requires { self.count < 2 ^ 64 - 1 }
        ensures { result ≡ found_more self relocation }
    {
        Found {
            count: self.count + 1,
            call: self.call || is_call(relocation),
            high: first(self.high, if_high(relocation)),
        }
    }
}

/// A relocation is a CALL.
pub(crate) fn is_call(relocation: Relocation) -> bool
    ensures { result ≡ is_the_call (the_kind relocation.kind) }
{
    matches!(kind_of(relocation.kind), Kind::Call)
}

/// A relocation gives an `auipc` its value.
pub(crate) fn gives_high(relocation: Relocation) -> bool
    ensures { result ≡ gives_the_high relocation }
{
    matches!(kind_of(relocation.kind), Kind::GotHigh | Kind::PcHigh)
}

/// A relocation, where it gives an `auipc` its value.
fn if_high(relocation: Relocation) -> Option<Relocation>
    ensures { result ≡ where_true (gives_the_high relocation) relocation }
{
    if gives_high(relocation) {
        Some(relocation)
    } else {
        None
    }
}

/// The first of two, and where there is none the second.
fn first(a: Option<Relocation>, b: Option<Relocation>) -> Option<Relocation>
    ensures { result ≡ (a or_else b) }
{
    match a {
        Some(relocation) => Some(relocation),
        None => b,
    }
}
