//! What is at offsets of code: operations, relocations, pairs and places.

ghost use Rattle.std.specs.Prelude.{◌≡◌, ◌<◌, ◌+◌, Some, IsSome, IfSome};
ghost use Rattle.std.specs.List.{filter};
ghost use Rattle.symbols.specs.Parts.{object_at};
ghost use Rattle.symbols.specs.Wanted.{Given};
ghost use Rattle.relocs.specs.Near.{items_of, IsThere, BelongTo};
ghost use Rattle.relocs.specs.Operands.{holds_auipc as holds_the_auipc};
ghost use Rattle.relocs.specs.Pairs.{relocations_at, relocation_is_at, can_call as may_call, is_pair_at as is_the_pair, is_second as is_the_second, is_place as is_the_place, joins as the_joins, same_register};
ghost use Rattle.relocs.specs.Places.{Code, code_at};
ghost use Rattle.relocs.specs.Sites.{IsCodeSection, HasSize, IsNamed, found_of};
ghost use Rattle.relocs.specs.CodeFaults.{word_fault as the_word_fault, code_of_word as the_code_of_word};
ghost use Rattle.relocs.specs.Sources.{IsSourcesOf, AreRelocations};
ghost use Rattle.relocs.specs.Words.{raw_at, word_of_place, word_in as the_word_in, is_offset_in, decoded, is_code_offset as is_the_offset};

use crate::code_words::word_or_trap;
use crate::fault::{BAD_REGISTER, BAD_WORD, ECALL, LOAD_TO_ZERO};
use crate::found::Found;
use crate::near::Relocations;
use crate::sources::Sources;
use elf_objects::Relocation;
use rv_decode::{Reg, RvOp, WordFault};

impl Sources<'_, '_, '_> {
    /// The operation at an offset of a code section, before relocation.
    #[inline(always)]
    pub fn op_at(&self, object: u32, section: u32, offset: u64) -> Option<RvOp>
        ghost given: { Given }
        requires sources { IsSourcesOf given self.now }
        requires section { IsCodeSection given object section }
        ensures { result ≡ raw_at given (Code object section offset) }
    {
        operation(self.word(object, section, offset))
    }

    /// What the word at an offset of a code section is, where the offset can be a place.
    #[inline(always)]
    fn word(&self, object: u32, section: u32, offset: u64) -> Option<Result<RvOp, WordFault>>
        ghost given: { Given }
        requires sources { IsSourcesOf given self.now }
        requires section { IsCodeSection given object section }
        ensures { result ≡ word_of_place given (Code object section offset) }
    {
        match self.tables {
            Some(tables) => tables.word(self.objects, object, section, offset),
            None => word_in(self.objects.object(object).section(section).content, offset),
        }
    }

    /// The code of the fault of the word at an offset of a code section, where the word is no operation.
    pub fn word_fault(&self, object: u32, section: u32, offset: u64) -> Option<u8>
        ghost given: { Given }
        requires sources { IsSourcesOf given self.now }
        requires section { IsCodeSection given object section }
        ensures { result ≡ the_word_fault (word_of_place given (Code object section offset)) }
    {
        match self.word(object, section, offset) {
            Some(Err(fault)) => Some(code_of_word(fault)),
            _ => None,
        }
    }

    /// The relocations at an offset of a code section that change something, in table order. The sources have an index.
    #[inline(always)]
    pub fn relocations(&self, object: u32, section: u32, offset: u64) -> &[Relocation]
        ghost given: { Given }
        requires sources { IsSourcesOf given self.now }
        requires section { IsCodeSection given object section }
        requires tables { IsSome self.now.tables }
        ensures at { result.now ≡ relocations_at given object section offset }
        ensures each { AreRelocations given object section result.now }
    {
        self.tables
            .unwrap()
            .at(self.objects, object, section, offset)
    }

    /// A summary of the relocations at an offset of a code section.
    #[inline(always)]
    pub(crate) fn found_at(&self, object: u32, section: u32, offset: u64) -> Found
        ghost given: { Given }
        requires sources { IsSourcesOf given self.now }
        requires section { IsCodeSection given object section }
        ensures found { result ≡ found_of (relocations_at given object section offset) }
        ensures named { IfSome result.high (IsNamed given object) }
    {
        match self.tables {
            Some(tables) => tables.found(self.objects, object, section, offset),
            None => self.found_near(object, section, offset),
        }
    }

    /// The same without an index, by all relocations of the section.
    fn found_near(&self, object: u32, section: u32, offset: u64) -> Found
        ghost given: { Given }
        requires sources { IsSourcesOf given self.now }
        requires section { IsCodeSection given object section }
        ensures found { result ≡ found_of (relocations_at given object section offset) }
        ensures named { IfSome result.high (IsNamed given object) }
    {
        let mut found = Found {
            count: 0,
            call: false,
            high: None,
        };
        let relocations = self.near(object, section, offset);
        for at in 0..relocations.len() {
            found = found.with(relocations.get(at), offset);
        }
        found
    }

    /// Whether a CALL may be at an offset.
    #[inline(always)]
    pub(crate) fn can_call(&self, object: u32, section: u32, offset: u64) -> bool
        ghost given: { Given }
        requires sources { IsSourcesOf given self.now }
        requires section { IsCodeSection given object section }
        ensures { result ≡ may_call given object section offset }
    {
        let first = self.op_at(object, section, offset);
        holds_auipc(first) && self.is_joined(first, object, section, offset)
    }

    /// Whether a CALL may be at an offset where an `auipc` is.
    #[inline(always)]
    fn is_joined(&self, first: Option<RvOp>, object: u32, section: u32, offset: u64) -> bool
        ghost given: { Given }
        requires sources { IsSourcesOf given self.now }
        requires section { IsCodeSection given object section }
        requires first { first ≡ raw_at given (Code object section offset) }
        ensures { result ≡ may_call given object section offset }
    {
        let size = self.code_size(object, section) as u64;
        if size < 4 || size - 4 < offset {
            return false;
        }
        joins(first, self.op_at(object, section, offset + 4))
            && self.found_at(object, section, offset + 4).count == 0
    }

    /// The number of bytes of a code section.
    #[inline(always)]
    fn code_size(&self, object: u32, section: u32) -> usize
        ghost given: { Given }
        requires sources { IsSourcesOf given self.now }
        requires section { IsCodeSection given object section }
        ensures { HasSize (code_at given object section) result }
    {
        match self.tables {
            Some(tables) => tables.size(self.objects, object, section),
            None => self.objects.object(object).section(section).content.len(),
        }
    }

    /// Whether a pair begins at an offset of a code section: a CALL's `auipc` and `jalr`, which are one operation.
    #[tactic(auto, unfolding(crate::specs::Pairs::is_pair_at))]
    pub fn is_pair_at(&self, object: u32, section: u32, offset: u64) -> bool
        ghost given: { Given }
        requires sources { IsSourcesOf given self.now }
        requires section { IsCodeSection given object section }
        ensures { result ≡ is_the_pair given object section offset }
    {
        self.can_call(object, section, offset) && self.found_at(object, section, offset).call
    }

    /// Whether the second word of a pair is at an offset of a code section.
    pub fn is_second(&self, object: u32, section: u32, offset: u64) -> bool
        ghost given: { Given }
        requires sources { IsSourcesOf given self.now }
        requires section { IsCodeSection given object section }
        ensures { result ≡ is_the_second given (Code object section offset) }
    {
        4 <= offset && self.is_pair_at(object, section, offset - 4)
    }

    /// Whether an offset of a code section can be a place.
    fn is_offset(&self, object: u32, section: u32, offset: u64) -> bool
        ghost given: { Given }
        requires sources { IsSourcesOf given self.now }
        requires section { IsCodeSection given object section }
        ensures { result ≡ is_offset_in (code_at given object section) offset }
    {
        is_code_offset(self.code_size(object, section), offset)
    }

    /// Whether an offset is a place.
    #[tactic(auto, using(crate::proofs::AllPlaces::place_rules))]
    pub(crate) fn is_place(&self, object: u32, section: u32, offset: u64) -> bool
        ghost given: { Given }
        requires sources { IsSourcesOf given self.now }
        requires section { IsCodeSection given object section }
        ensures { result ≡ is_the_place given (Code object section offset) }
    {
        !self.is_second(object, section, offset) && self.is_offset(object, section, offset)
    }
}

impl<'l, 't, 'a> Sources<'l, 't, 'a> {
    /// Relocations of a code section, with those at an offset among them.
    pub(crate) fn near(&self, object: u32, section: u32, offset: u64) -> Relocations<'l, 't, 'a>
        ghost given: { Given }
        requires sources { IsSourcesOf given self.now }
        requires section { IsCodeSection given object section }
        ensures there { IsThere result }
        ensures at { filter (relocation_is_at offset) (items_of result) ≡ relocations_at given object section offset }
        ensures named { BelongTo (object_at given.objects object) result }
    {
        match self.tables {
            Some(tables) => Relocations::Row(tables.at(self.objects, object, section, offset)),
            None => Relocations::Table {
                object: self.objects.object(object),
                section,
            },
        }
    }
}

/// What the word at an offset of bytes of code is, where the offset can be a place.
pub(crate) fn word_in(bytes: &[u8], offset: u64) -> Option<Result<RvOp, WordFault>>
    ensures { result ≡ the_word_in (Some bytes.now) offset }
{
    if is_code_offset(bytes.len(), offset) {
        Some(word_or_trap(bytes, offset as usize))
    } else {
        None
    }
}

/// The operation of a word, where it is none that is faulty.
#[inline(always)]
pub(crate) fn operation(word: Option<Result<RvOp, WordFault>>) -> Option<RvOp>
    ensures { result ≡ decoded word }
{
    match word {
        Some(Ok(op)) => Some(op),
        _ => None,
    }
}

/// The code of the fault of a word.
fn code_of_word(fault: WordFault) -> u8
    ensures { result ≡ the_code_of_word fault }
{
    match fault {
        WordFault::BadWord => BAD_WORD,
        WordFault::BadRegister => BAD_REGISTER,
        WordFault::Ecall => ECALL,
        WordFault::LoadToZero => LOAD_TO_ZERO,
    }
}

/// Whether an offset of code of a size can be a place.
fn is_code_offset(size: usize, offset: u64) -> bool
    ensures { result ≡ is_the_offset size offset }
{
    offset % 4 == 0 && offset <= size as u64
}

/// Whether an operation is an `auipc`.
#[inline(always)]
pub fn holds_auipc(op: Option<RvOp>) -> bool
    ensures { result ≡ holds_the_auipc op }
{
    matches!(op, Some(RvOp::Auipc { .. }))
}

/// Whether two operations are an `auipc`, and a `jalr` by its register.
pub fn joins(first: Option<RvOp>, second: Option<RvOp>) -> bool
    ensures { result ≡ the_joins first second }
{
    match (first, second) {
        (Some(RvOp::Auipc { rd, .. }), Some(RvOp::Jalr { rs1, .. })) => is_same(rd, rs1),
        _ => false,
    }
}

/// Whether two registers are one.
fn is_same(a: Reg, b: Reg) -> bool
    ensures { result ≡ same_register a b }
{
    match (a, b) {
        (Reg::Zero, Reg::Zero) => true,
        (Reg::R(n), Reg::R(m)) => n == m,
        _ => false,
    }
}
