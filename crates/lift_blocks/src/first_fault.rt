//! The first fault of code, by object, section, offset and code.

ghost use Rattle.std.specs.Prelude.{◌≡◌, ◌<◌, ◌+◌, ◌&&◌, ◌++◌, length, Some, IfOk};
ghost use Rattle.faults.specs.Present.{first_in};
ghost use Rattle.elf_objects.specs.Objects.{relocations_of};
ghost use Rattle.symbols.specs.Laws.{HasSection};
ghost use Rattle.symbols.specs.Parts.{object_at};
ghost use Rattle.symbols.specs.Resolved.{IsResolved};
ghost use Rattle.symbols.specs.Wanted.{Given, kept_objects};
ghost use Rattle.relocs.specs.ByOffset.{AreTables};
ghost use Rattle.relocs.specs.CodeFaults.{code_faults, codes_at, entry_codes, refusal_code as the_refusal_code, fault_at_offset, fault_in_section, fault_in_object};
ghost use Rattle.relocs.specs.Operands.{least, lesser as the_lesser};
ghost use Rattle.relocs.specs.Pairs.{is_second as is_the_second};
ghost use Rattle.relocs.specs.Places.{Code, code_at};
ghost use Rattle.relocs.specs.Sites.{IsCodeSection};
ghost use Rattle.relocs.specs.Sources.{IsSourcesOf};
ghost use Rattle.relocs.specs.Words.{raw_at};
ghost use Rattle.lift_blocks.specs.FirstFault.{has_entry, AreEntries, AreAligned, IsCodeOf, is_complete as is_it_complete, is_bare as is_it_bare, is_alone as is_it_alone, is_plain as is_it_plain, is_direct as is_it_direct, ends_no_pair as does_it_end_none, word_target, leads_on as does_it_lead_on, unaligned_offset as the_unaligned_offset};

use crate::named_places::Named;
use crate::reader::Reader;
use elf_objects::{Fault, Relocation, SectionKind};
use relocs::{INTO_PAIR, Sources};
use rv_decode::RvOp;
use std::alloc::{AllocError, Global};
use symbols::{Place, Resolved, Wanted, has_effect};

/// The first fault of code, by object, section, offset and code.
pub(crate) fn first_code_fault(
    alloc: Global,
    reader: Reader<'_, '_>,
    sources: Sources<'_, '_, '_>,
    resolved: &Resolved,
    wanted: &Wanted,
) -> Result<Option<Fault>, AllocError>
    ghost given: { Given }
    requires tables { AreTables given reader.objects.now reader.tables.now }
    requires sources { IsSourcesOf given sources }
    requires wanted { wanted.now ≡ given.wanted }
    requires resolved { IsResolved given resolved.now }
    ensures { IfOk result (λ fault. fault ≡ first_in (code_faults given)) }
{
    let entries = entry_places(alloc, resolved, wanted.entries())?;
    let code = CodeFaults {
        reader,
        sources,
        entries: &entries,
    };
    Ok(code.first_fault())
}

/// The places of the entries.
fn entry_places(alloc: Global, resolved: &Resolved, entries: u32) -> Result<Named, AllocError>
    ghost given: { Given }
    requires resolved { IsResolved given resolved.now }
    requires entries { entries ≡ length given.wanted.entries }
    ensures { IfOk result (AreEntries given) }
{
    let mut places = Named::new(alloc);
    for entry in 0..entries {
        places.add(resolved.entry(entry))?;
    }
    Ok(places)
}

/// What the faults of code depend on.
#[derive(Clone, Copy, Drop)]
struct CodeFaults<'l, 'a> {
    reader: Reader<'l, 'a>,
    sources: Sources<'l, 'l, 'a>,
    entries: &'l Named,
}

impl CodeFaults<'_, '_> {
    /// The first fault of all.
    #[tactic(auto, using(relocs::proofs::CodeLimit::first_code_fault_is))]
    fn first_fault(&self) -> Option<Fault>
        ghost given: { Given }
        requires { IsCodeOf given self.now }
        ensures { result ≡ first_in (code_faults given) }
    {
        for object in 0..self.reader.objects.len() {
            if let Some(fault) = self.fault_in_object(object) {
                return Some(fault);
            }
        }
        None
    }

    /// The first in an object.
    fn fault_in_object(&self, object: u32) -> Option<Fault>
        ghost given: { Given }
        requires code { IsCodeOf given self.now }
        requires object { object < length (kept_objects given) }
        ensures { result ≡ fault_in_object given object }
    {
        for section in 0..self.reader.objects.object(object).sections() {
            if let Some(fault) = self.fault_in_section(object, section) {
                return Some(fault);
            }
        }
        None
    }

    /// The first in a section, where it is code.
    fn fault_in_section(&self, object: u32, section: u32) -> Option<Fault>
        ghost given: { Given }
        requires code { IsCodeOf given self.now }
        requires section { HasSection (kept_objects given) object section }
        ensures { result ≡ fault_in_section given object section (code_at given object section) }
    {
        match self.reader.objects.object(object).section(section).kind {
            SectionKind::Code => self.fault_in_code(object, section),
            SectionKind::ReadOnly
            | SectionKind::Writable
            | SectionKind::Zero
            | SectionKind::Unloaded => None,
        }
    }

    /// The first in a section of code.
    fn fault_in_code(&self, object: u32, section: u32) -> Option<Fault>
        ghost given: { Given }
        requires code { IsCodeOf given self.now }
        requires section { IsCodeSection given object section }
        ensures { result ≡ fault_in_section given object section (code_at given object section) }
    {
        let content = self.content(object, section);
        let aligned = self.first_unaligned(object, section);
        if content.len() as u64 + 3 < aligned {
            self.fault_in_words(object, section, content, aligned)
        } else {
            self.fault_in_offsets(object, section, content, aligned)
        }
    }

    /// The least offset of a section of code that is no multiple of four and at which a relocation changes something, and
    /// `u64::MAX` without one.
    fn first_unaligned(&self, object: u32, section: u32) -> u64
        ghost given: { Given }
        requires code { IsCodeOf given self.now }
        requires section { IsCodeSection given object section }
        ensures { AreAligned (relocations_of (object_at (kept_objects given) object) section) result }
    {
        least_unaligned(self.reader.tables.row(self.reader.objects, object, section))
    }

    /// The first in a section of code whose relocations are at multiples of four.
    fn fault_in_words(
        &self,
        object: u32,
        section: u32,
        content: &[u8],
        aligned: u64,
    ) -> Option<Fault>
        ghost given: { Given }
        requires code { IsCodeOf given self.now }
        requires section { IsCodeSection given object section }
        requires content { code_at given object section ≡ Some content.now }
        requires aligned { AreAligned (relocations_of (object_at (kept_objects given) object) section) aligned }
        requires all { length content.now + 3 < aligned }
        ensures { result ≡ fault_in_section given object section (code_at given object section) }
    {
        let count = content.len() as u64 / 4 + 1;
        let _aligned = aligned;
        for word in 0..count {
            if let Some(fault) = self.fault_at_word(object, section, 4 * word) {
                return Some(fault);
            }
        }
        None
    }

    /// The first in a section of code, whatever its relocations are at.
    fn fault_in_offsets(
        &self,
        object: u32,
        section: u32,
        content: &[u8],
        aligned: u64,
    ) -> Option<Fault>
        ghost given: { Given }
        requires code { IsCodeOf given self.now }
        requires section { IsCodeSection given object section }
        requires content { code_at given object section ≡ Some content.now }
        requires aligned { AreAligned (relocations_of (object_at (kept_objects given) object) section) aligned }
        ensures { result ≡ fault_in_section given object section (code_at given object section) }
    {
        for offset in 0..content.len() as u64 + 1 {
            if let Some(fault) = self.fault_at(object, section, offset, aligned) {
                return Some(fault);
            }
        }
        None
    }

    /// The bytes of a section of code.
    fn content(&self, object: u32, section: u32) -> &[u8]
        ghost given: { Given }
        requires code { IsCodeOf given self.now }
        requires section { IsCodeSection given object section }
        ensures { code_at given object section ≡ Some result.now }
    {
        self.reader.objects.object(object).section(section).content
    }

    /// The fault at an offset. Below a limit, there is none at an offset that is no multiple of four.
    fn fault_at(&self, object: u32, section: u32, offset: u64, aligned: u64) -> Option<Fault>
        ghost given: { Given }
        requires code { IsCodeOf given self.now }
        requires section { IsCodeSection given object section }
        requires aligned { AreAligned (relocations_of (object_at (kept_objects given) object) section) aligned }
        ensures { result ≡ fault_at_offset given object section offset }
    {
        if offset % 4 != 0 && offset < aligned {
            return None;
        }
        self.fault_at_word(object, section, offset)
    }

    /// The fault at an offset, which is most likely a word without one.
    #[tactic(auto, using(crate::proofs::PlainWords::no_faults))]
    #[inline(always)]
    fn fault_at_word(&self, object: u32, section: u32, offset: u64) -> Option<Fault>
        ghost given: { Given }
        requires code { IsCodeOf given self.now }
        requires section { IsCodeSection given object section }
        ensures { result ≡ fault_at_offset given object section offset }
    {
        if self.is_plain(object, section, offset) || self.is_direct(object, section, offset) {
            return None;
        }
        let code = self.least_code(object, section, offset)?;
        Some(Fault {
            code,
            object,
            section,
            offset,
        })
    }

    /// Whether there is an operation at an offset that needs nothing else and is in no pair, and no relocation.
    #[inline(always)]
    fn is_plain(&self, object: u32, section: u32, offset: u64) -> bool
        ghost given: { Given }
        requires code { IsCodeOf given self.now }
        requires section { IsCodeSection given object section }
        ensures { result ≡ is_it_plain given object section offset }
    {
        is_alone(self.reader.op_at(object, section, offset))
            && self.reader.relocations(object, section, offset).is_empty()
    }

    /// Whether a branch or a `jal` is at an offset, and no relocation, and a word with which no pair ends is where it leads.
    #[inline(always)]
    fn is_direct(&self, object: u32, section: u32, offset: u64) -> bool
        ghost given: { Given }
        requires code { IsCodeOf given self.now }
        requires section { IsCodeSection given object section }
        ensures { result ≡ is_it_direct given object section offset }
    {
        self.leads_on(
            self.reader.op_at(object, section, offset),
            object,
            section,
            offset,
        ) && self.reader.relocations(object, section, offset).is_empty()
    }

    /// Whether an operation at an offset is a branch or a `jal` whose word leads to one with which no pair ends.
    #[inline(always)]
    fn leads_on(&self, op: Option<RvOp>, object: u32, section: u32, offset: u64) -> bool
        ghost given: { Given }
        requires code { IsCodeOf given self.now }
        requires section { IsCodeSection given object section }
        ensures { result ≡ does_it_lead_on given (word_target object section offset op) }
    {
        match op {
            Some(RvOp::Jal { offset: by, .. }) => {
                self.ends_no_pair(object, section, offset.wrapping_add_signed(i64::from(by)))
            }
            Some(RvOp::Branch { offset: by, .. }) => {
                self.ends_no_pair(object, section, offset.wrapping_add_signed(i64::from(by)))
            }
            _ => false,
        }
    }

    /// Whether an operation is at an offset, and no `jalr`.
    #[inline(always)]
    fn ends_no_pair(&self, object: u32, section: u32, offset: u64) -> bool
        ghost given: { Given }
        requires code { IsCodeOf given self.now }
        requires section { IsCodeSection given object section }
        ensures { result ≡ does_it_end_none (raw_at given (Code object section offset)) }
    {
        match self.reader.op_at(object, section, offset) {
            Some(op) => !matches!(op, RvOp::Jalr { .. }),
            None => false,
        }
    }

    /// The least code of the faults at an offset.
    #[tactic(auto, using(crate::proofs::FirstFault::least_codes))]
    fn least_code(&self, object: u32, section: u32, offset: u64) -> Option<u8>
        ghost given: { Given }
        requires code { IsCodeOf given self.now }
        requires section { IsCodeSection given object section }
        ensures { result ≡ least (codes_at given object section offset ++ entry_codes given object section offset) }
    {
        let code = lesser(
            self.sources.word_fault(object, section, offset),
            self.refusal_code(object, section, offset),
        );
        lesser(code, self.entry_fault(object, section, offset))
    }

    /// The code with which an operation or its relocations are refused. Most operations without relocations have none.
    #[tactic(auto, using(crate::proofs::FirstFault::no_refusal))]
    fn refusal_code(&self, object: u32, section: u32, offset: u64) -> Option<u8>
        ghost given: { Given }
        requires code { IsCodeOf given self.now }
        requires section { IsCodeSection given object section }
        ensures { result ≡ the_refusal_code given object section offset }
    {
        if self.is_bare(object, section, offset) {
            None
        } else {
            self.sources.refusal_code(object, section, offset)
        }
    }

    /// Whether no relocation is at an offset, and no operation that leads to a place or needs a value.
    fn is_bare(&self, object: u32, section: u32, offset: u64) -> bool
        ghost given: { Given }
        requires code { IsCodeOf given self.now }
        requires section { IsCodeSection given object section }
        ensures { result ≡ is_it_bare given object section offset }
    {
        is_complete(self.reader.op_at(object, section, offset))
            && self.reader.relocations(object, section, offset).is_empty()
    }

    /// The code of the fault of an entry at an offset.
    #[tactic(auto, using(crate::proofs::FirstFault::least_entries))]
    fn entry_fault(&self, object: u32, section: u32, offset: u64) -> Option<u8>
        ghost given: { Given }
        requires code { IsCodeOf given self.now }
        requires section { IsCodeSection given object section }
        ensures { result ≡ least (entry_codes given object section offset) }
    {
        if self.enters_pair(object, section, offset) {
            Some(INTO_PAIR)
        } else {
            None
        }
    }

    /// Whether an entry is the second word of a pair at an offset.
    fn enters_pair(&self, object: u32, section: u32, offset: u64) -> bool
        ghost given: { Given }
        requires code { IsCodeOf given self.now }
        requires section { IsCodeSection given object section }
        ensures { result ≡ (has_entry given object section offset && is_the_second given (Code object section offset)) }
    {
        self.reader.is_second(object, section, offset)
            && self.entries.has(Place::Code {
                object,
                section,
                offset,
            })
    }
}

/// Whether an operation has all that it needs, whatever else is there.
fn is_complete(op: Option<RvOp>) -> bool
    ensures { result ≡ is_it_complete op }
{
    !matches!(
        op,
        Some(RvOp::Auipc { .. } | RvOp::Jal { .. } | RvOp::Branch { .. })
    )
}

/// Whether an operation needs nothing else, and is no word of a pair.
#[inline(always)]
pub(crate) fn is_alone(op: Option<RvOp>) -> bool
    ensures { result ≡ is_it_alone op }
{
    match op {
        Some(op) => !matches!(
            op,
            RvOp::Auipc { .. } | RvOp::Jal { .. } | RvOp::Jalr { .. } | RvOp::Branch { .. }
        ),
        None => false,
    }
}

/// The least offset in a row that is no multiple of four and at which a relocation changes something, and `u64::MAX` without
/// one.
fn least_unaligned(row: &[Relocation]) -> u64
    ensures { AreAligned row.now result }
{
    let mut least = u64::MAX;
    for relocation in row {
        least = least.min(unaligned_offset(*relocation));
    }
    least
}

fn unaligned_offset(relocation: Relocation) -> u64
    ensures { result ≡ the_unaligned_offset relocation }
{
    if has_effect(relocation.kind) && relocation.offset % 4 != 0 {
        relocation.offset
    } else {
        u64::MAX
    }
}

/// The lesser of two codes that may be missing.
fn lesser(a: Option<u8>, b: Option<u8>) -> Option<u8>
    ensures { result ≡ the_lesser a b }
{
    match (a, b) {
        (Some(a), Some(b)) => Some(a.min(b)),
        (Some(a), None) => Some(a),
        (None, b) => b,
    }
}
