//! The operations at offsets of code, and the places of code in code order. It needs no address map, which is made from it.

ghost use Rattle.std.specs.Prelude.{◌≡◌, ◌<◌, ◌≤◌, ◌+◌, ◌^◌, ◌++◌, ◌∷◌, [], not, length, map, Some, OnOk, if◌then◌else◌};
ghost use Rattle.std.specs.Option.{option_map};
ghost use Rattle.symbols.specs.Laws.{HasSection};
ghost use Rattle.symbols.specs.Wanted.{Given};
ghost use Rattle.relocs.specs.Places.{Code, code_at};
ghost use Rattle.relocs.specs.Sites.{IsCodeSection, HasSize};
ghost use Rattle.relocs.specs.Words.{raw_at};
ghost use Rattle.relocs.specs.Pairs.{relocations_at, is_none_of, has_call as the_has_call, can_call as may_call, is_pair_at as is_the_pair, is_second as is_the_second, next_place as the_next_place};
ghost use Rattle.relocs.specs.AddressMap.{link_of, link_at, if_links, last_word as the_last_word};
ghost use Rattle.relocs.specs.ByOffset.{AreTables};
ghost use Rattle.lift_blocks.specs.Kept.{site_of};
ghost use Rattle.lift_blocks.specs.Known.{IsKnown};
ghost use Rattle.lift_blocks.specs.CodeList.{section_places, object_places, code_places_of, may_link as may_it_link};

use crate::site::Site;
use elf_objects::{Objects, Relocation, SectionKind};
use relocs::{Tables, holds_auipc, joins};
use rv_decode::{Reg, RvOp};
use std::alloc::AllocError;

/// The objects of a link, with their relocations by offset.
#[derive(Clone, Copy, Drop)]
pub(crate) struct Reader<'l, 'a> {
    pub objects: &'l Objects<'a>,
    pub tables: &'l Tables,
}

impl Reader<'_, '_> {
    /// The operation at an offset of a code section, before relocation.
    #[inline(always)]
    pub(crate) fn op_at(&self, object: u32, section: u32, offset: u64) -> Option<RvOp>
        ghost given: { Given }
        requires tables { AreTables given self.now.objects.now self.now.tables.now }
        requires section { IsCodeSection given object section }
        ensures { result ≡ raw_at given (Code object section offset) }
    {
        self.tables.op(self.objects, object, section, offset)
    }

    /// The number of bytes of a code section.
    #[inline(always)]
    pub(crate) fn size(&self, object: u32, section: u32) -> usize
        ghost given: { Given }
        requires tables { AreTables given self.now.objects.now self.now.tables.now }
        requires section { IsCodeSection given object section }
        ensures { HasSize (code_at given object section) result }
    {
        self.tables.size(self.objects, object, section)
    }

    /// The relocations at an offset of a code section that change something, in table order.
    #[inline(always)]
    pub(crate) fn relocations(&self, object: u32, section: u32, offset: u64) -> &[Relocation]
        ghost given: { Given }
        requires tables { AreTables given self.now.objects.now self.now.tables.now }
        requires section { IsCodeSection given object section }
        ensures { result.now ≡ relocations_at given object section offset }
    {
        self.tables.at(self.objects, object, section, offset)
    }

    /// Whether a CALL is at an offset of a code section.
    fn has_call(&self, object: u32, section: u32, offset: u64) -> bool
        ghost given: { Given }
        requires tables { AreTables given self.now.objects.now self.now.tables.now }
        requires section { IsCodeSection given object section }
        ensures { result ≡ the_has_call (relocations_at given object section offset) }
    {
        self.tables.has_call(self.objects, object, section, offset)
    }

    /// Whether a CALL is allowed at an offset.
    #[inline(always)]
    pub(crate) fn can_call(&self, object: u32, section: u32, offset: u64) -> bool
        ghost given: { Given }
        requires tables { AreTables given self.now.objects.now self.now.tables.now }
        requires section { IsCodeSection given object section }
        requires room { offset + 4 < 2 ^ 64 }
        ensures { result ≡ may_call given object section offset }
    {
        let first = self.op_at(object, section, offset);
        holds_auipc(first) && self.is_joined(first, object, section, offset)
    }

    /// Whether a CALL is allowed at the offset of an `auipc`.
    #[inline(always)]
    fn is_joined(&self, first: Option<RvOp>, object: u32, section: u32, offset: u64) -> bool
        ghost given: { Given }
        requires tables { AreTables given self.now.objects.now self.now.tables.now }
        requires section { IsCodeSection given object section }
        requires room { offset + 4 < 2 ^ 64 }
        requires first { first ≡ raw_at given (Code object section offset) }
        ensures { result ≡ may_call given object section offset }
    {
        joins(first, self.op_at(object, section, offset + 4))
            && is_none(self.relocations(object, section, offset + 4))
    }

    /// Whether a pair begins at an offset.
    #[tactic(auto, unfolding(relocs::specs::Pairs::is_pair_at))]
    #[inline(always)]
    pub(crate) fn is_pair_at(&self, object: u32, section: u32, offset: u64) -> bool
        ghost given: { Given }
        requires tables { AreTables given self.now.objects.now self.now.tables.now }
        requires section { IsCodeSection given object section }
        requires room { offset + 4 < 2 ^ 64 }
        ensures { result ≡ is_the_pair given object section offset }
    {
        self.can_call(object, section, offset) && self.has_call(object, section, offset)
    }

    /// Whether the second word of a pair is at an offset.
    #[inline(always)]
    pub(crate) fn is_second(&self, object: u32, section: u32, offset: u64) -> bool
        ghost given: { Given }
        requires tables { AreTables given self.now.objects.now self.now.tables.now }
        requires section { IsCodeSection given object section }
        ensures { result ≡ is_the_second given (Code object section offset) }
    {
        4 <= offset && self.is_pair_at(object, section, offset - 4)
    }

    /// The place after the operation at a place.
    pub(crate) fn next_place(&self, place: Site) -> Site
        ghost given: { Given }
        requires tables { AreTables given self.now.objects.now self.now.tables.now }
        requires known { IsKnown given (site_of place) }
        ensures { site_of result ≡ the_next_place given (site_of place) }
    {
        match place {
            Site::Code {
                object,
                section,
                offset,
            } => Site::Code {
                object,
                section,
                offset: offset + width(self.is_pair_at(object, section, offset)),
            },
            Site::Stub { number, at } => Site::Stub { number, at: at + 1 },
        }
    }

    /// The place that the operation at a place keeps in a register, if it does.
    #[inline(always)]
    pub(crate) fn link(&self, place: Site) -> Option<Site>
        ghost given: { Given }
        requires tables { AreTables given self.now.objects.now self.now.tables.now }
        requires known { IsKnown given (site_of place) }
        ensures { option_map site_of result ≡ link_at given (site_of place) }
    {
        match place {
            Site::Code {
                object,
                section,
                offset,
            } => self.link_at(place, object, section, offset),
            Site::Stub { .. } => None,
        }
    }

    /// The same of an offset. Only `jal`, `jalr` and pairs, which begin with `auipc`, keep a place.
    #[inline(always)]
    fn link_at(&self, place: Site, object: u32, section: u32, offset: u64) -> Option<Site>
        ghost given: { Given }
        requires tables { AreTables given self.now.objects.now self.now.tables.now }
        requires place { site_of place ≡ Code object section offset }
        requires known { IsKnown given (site_of place) }
        ensures { option_map site_of result ≡ link_at given (site_of place) }
    {
        if may_link(self.op_at(object, section, offset)) {
            link_after(
                self.next_place(place),
                self.last_word(object, section, offset),
            )
        } else {
            None
        }
    }

    /// The word that decides which place is next after an offset: the second word, for a pair.
    fn last_word(&self, object: u32, section: u32, offset: u64) -> Option<RvOp>
        ghost given: { Given }
        requires tables { AreTables given self.now.objects.now self.now.tables.now }
        requires section { IsCodeSection given object section }
        requires room { offset + 4 < 2 ^ 64 }
        ensures { result ≡ the_last_word (is_the_pair given object section offset) given (Code object section offset) }
    {
        if self.is_pair_at(object, section, offset) {
            self.op_at(object, section, offset + 4)
        } else {
            self.op_at(object, section, offset)
        }
    }

    /// Adds the places of a code section.
    #[tactic(auto, unfolding(crate::specs::CodeList::section_places))]
    pub(crate) fn add_section(
        &self,
        places: &mut Vec<Site>,
        object: u32,
        section: u32,
    ) -> Result<(), AllocError>
        ghost given: { Given }
        requires tables { AreTables given self.now.objects.now self.now.tables.now }
        requires section { IsCodeSection given object section }
        ensures { OnOk result (map site_of places.new.items ≡ map site_of places.old.items ++ section_places given object section) }
    {
        let count = self.size(object, section) / 4 + 1;
        places.reserve(count)?;
        for at in 0..count {
            let offset = 4 * at as u64;
            let second = self.is_second(object, section, offset);
            push_unless(
                places,
                second,
                Site::Code {
                    object,
                    section,
                    offset,
                },
            )?;
        }
        Ok(())
    }

    /// Adds those of a section, where it is code.
    #[tactic(auto, using(crate::proofs::Walks::nil_right), unfolding(crate::specs::CodeList::section_places))]
    fn add_any(&self, places: &mut Vec<Site>, object: u32, section: u32) -> Result<(), AllocError>
        ghost given: { Given }
        requires tables { AreTables given self.now.objects.now self.now.tables.now }
        requires section { HasSection given.objects object section }
        ensures { OnOk result (map site_of places.new.items ≡ map site_of places.old.items ++ section_places given object section) }
    {
        match self.objects.object(object).section(section).kind {
            SectionKind::Code => self.add_section(places, object, section),
            SectionKind::ReadOnly
            | SectionKind::Writable
            | SectionKind::Zero
            | SectionKind::Unloaded => Ok(()),
        }
    }

    /// Adds those of an object.
    fn add_object(&self, places: &mut Vec<Site>, object: u32) -> Result<(), AllocError>
        ghost given: { Given }
        requires tables { AreTables given self.now.objects.now self.now.tables.now }
        requires object { object < length given.objects }
        ensures { OnOk result (map site_of places.new.items ≡ map site_of places.old.items ++ object_places given object) }
    {
        for section in 0..self.objects.object(object).sections() {
            self.add_any(places, object, section)?;
        }
        Ok(())
    }

    /// Adds those of all objects.
    pub(crate) fn add_code(&self, places: &mut Vec<Site>) -> Result<(), AllocError>
        ghost given: { Given }
        requires tables { AreTables given self.now.objects.now self.now.tables.now }
        ensures { OnOk result (map site_of places.new.items ≡ map site_of places.old.items ++ code_places_of given) }
    {
        for object in 0..self.objects.len() {
            self.add_object(places, object)?;
        }
        Ok(())
    }
}

#[inline(always)]
fn push_unless(places: &mut Vec<Site>, left_out: bool, site: Site) -> Result<(), AllocError>
    ensures { OnOk result (places.new.items ≡ places.old.items ++ (if not left_out then site ∷ [] else [])) }
{
    if left_out {
        Ok(())
    } else {
        places.push(site)?;
        Ok(())
    }
}

/// How many bytes a pair has, or a word.
fn width(pair: bool) -> u64
    ensures value { result ≡ (if pair then 8 else 4) }
    ensures small { result ≤ 8 }
{
    if pair { 8 } else { 4 }
}

/// Whether an operation, or a pair that begins with it, may keep a place in a register.
#[inline(always)]
fn may_link(op: Option<RvOp>) -> bool
    ensures { result ≡ may_it_link op }
{
    matches!(
        op,
        Some(RvOp::Jal { .. } | RvOp::Jalr { .. } | RvOp::Auipc { .. })
    )
}

/// The place after a `jal` or `jalr` that keeps it in a register.
fn link_after(next: Site, op: Option<RvOp>) -> Option<Site>
    ensures { option_map site_of result ≡ link_of (site_of next) op }
{
    match op {
        Some(RvOp::Jal { rd, .. } | RvOp::Jalr { rd, .. }) => link_by(next, rd),
        _ => None,
    }
}

fn link_by(next: Site, register: Reg) -> Option<Site>
    ensures { option_map site_of result ≡ if_links register (site_of next) }
{
    match register {
        Reg::Zero => None,
        Reg::R(_) => Some(next),
    }
}

#[inline(always)]
pub(crate) fn is_none(relocations: &[Relocation]) -> bool
    ensures { result ≡ is_none_of relocations.now }
{
    relocations.is_empty()
}
