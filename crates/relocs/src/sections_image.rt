//! The bytes of the parts of data.

ghost use Rattle.std.specs.Prelude.{◌≡◌, ◌<◌, ◌++◌, ◌+◌, length, fold, take, IfOk, OnOk};
ghost use Rattle.elf_objects.specs.Objects.{relocations_of};
ghost use Rattle.symbols.specs.Laws.{HasSection};
ghost use Rattle.symbols.specs.Parts.{object_at};
ghost use Rattle.symbols.specs.Wanted.{Given};
ghost use Rattle.layout.specs.Addresses.{end_of_objects, end_before};
ghost use Rattle.layout.specs.Steps.{section_at};
ghost use Rattle.relocs.specs.Data.{relocated_by};
ghost use Rattle.relocs.specs.Images.{holds, start_of, with_section, with_sections, sections_image, with_slots, slot_bytes, read_only_image};
ghost use Rattle.std.specs.List.{flat_map};
ghost use Rattle.machine_state.specs.Start.{read_only_start};
ghost use Rattle.layout.specs.Sections.{is_read_only};
ghost use Rattle.layout.specs.Slots.{slot_places};
ghost use Rattle.relocs.specs.Sources.{IsSourcesOf, HasRoom};

use crate::part::Part;
use crate::patch::low_bits;
use crate::sources::Sources;
use layout::aligned_is_least;
use std::alloc::{AllocError, Global};

impl Sources<'_, '_, '_> {
    /// The bytes of the read-only part.
    #[tactic(auto, unfolding(crate::specs::Images::read_only_image))]
    pub(crate) fn read_only_image(&self, alloc: Global) -> Result<Vec<u8>, AllocError>
        ghost given: { Given }
        requires { IsSourcesOf given self.now }
        ensures { IfOk result (λ bytes. bytes.items ≡ read_only_image given) }
    {
        aligned_is_least();
        let mut bytes = self.sections_image(alloc, Part::ReadOnly)?;
        self.add_slots(&mut bytes)?;
        Ok(bytes)
    }

    /// Adds the table of slots at its address, where there is one.
    fn add_slots(&self, bytes: &mut Vec<u8>) -> Result<(), AllocError>
        ghost given: { Given }
        requires sources { IsSourcesOf given self.now }
        requires before { read_only_start + length bytes.old.items ≡ end_of_objects is_read_only read_only_start given.objects }
        ensures { OnOk result (bytes.new.items ≡ with_slots given bytes.old.items (slot_places given)) }
    {
        aligned_is_least();
        match self.placed.got() {
            Some((address, _)) => {
                bytes.resize((address - 0x1_0000) as usize, 0)?;
                self.put_slots(bytes)
            }
            None => Ok(()),
        }
    }

    /// Adds the bytes of all slots.
    fn put_slots(&self, bytes: &mut Vec<u8>) -> Result<(), AllocError>
        ghost given: { Given }
        requires sources { IsSourcesOf given self.now }
        ensures { OnOk result (bytes.new.items ≡ bytes.old.items ++ flat_map (slot_bytes given) (slot_places given)) }
    {
        for at in 0..self.placed.slots() {
            bytes.extend_from_slice(&low_bits(self.value(
                self.placed.slot_place(at),
                0,
            )).to_le_bytes())?;
        }
        Ok(())
    }

    /// The bytes of a part's sections at their addresses, after relocation, and zeros in between.
    pub(crate) fn sections_image(&self, alloc: Global, part: Part) -> Result<Vec<u8>, AllocError>
        ghost given: { Given }
        requires { IsSourcesOf given self.now }
        ensures { IfOk result (λ bytes. bytes.items ≡ sections_image (holds part) given (start_of given part)) }
    {
        aligned_is_least();
        let mut bytes = Vec::new(alloc);
        for object in 0..self.object_count() {
            self.add_object(object, part, &mut bytes)?;
        }
        Ok(bytes)
    }

    /// Adds the sections of an object that belong to a part.
    fn add_object(&self, object: u32, part: Part, bytes: &mut Vec<u8>) -> Result<(), AllocError>
        ghost given: { Given }
        requires sources { IsSourcesOf given self.now }
        requires object { object < length given.objects }
        requires before { start_of given part + length bytes.old.items ≡ end_of_objects (holds part) (start_of given part) (take object given.objects) }
        ensures { OnOk result (bytes.new.items ≡ with_sections (holds part) given (start_of given part) bytes.old.items object (length (object_at given.objects object).sections)) }
    {
        aligned_is_least();
        for section in 0..self.section_count(object) {
            self.add_section(object, section, part, bytes)?;
        }
        Ok(())
    }

    /// Adds a section, if it belongs to a part, at its address.
    fn add_section(
        &self,
        object: u32,
        section: u32,
        part: Part,
        bytes: &mut Vec<u8>,
    ) -> Result<(), AllocError>
        ghost given: { Given }
        requires sources { IsSourcesOf given self.now }
        requires section { HasSection given.objects object section }
        requires before { start_of given part + length bytes.old.items ≡ end_before (holds part) (start_of given part) given object section }
        ensures { let the = section_at (object_at given.objects object).sections section in
            OnOk result (bytes.new.items ≡ with_section (holds part the.kind) given (start_of given part) bytes.old.items object section the) }
    {
        aligned_is_least();
        let view = self.objects.object(object).section(section);
        if !part.holds(view.kind) {
            return Ok(());
        }
        bytes.resize((self.base(object, section) - self.start(part)) as usize, 0)?;
        self.add_bytes(object, section, view.content, bytes)
    }

    /// Adds bytes of a section, and applies its relocations to them.
    fn add_bytes(
        &self,
        object: u32,
        section: u32,
        content: &[u8],
        bytes: &mut Vec<u8>,
    ) -> Result<(), AllocError>
        ghost given: { Given }
        requires sources { IsSourcesOf given self.now }
        requires section { HasSection given.objects object section }
        requires room { HasRoom given object section (length content.now) }
        ensures { OnOk result (bytes.new.items ≡ bytes.old.items ++ fold (relocated_by given object section) content.now (relocations_of (object_at given.objects object) section)) }
    {
        let begin = bytes.len();
        bytes.extend_from_slice(content)?;
        self.relocate(object, section, &mut bytes[begin..]);
        Ok(())
    }

    /// Where a part begins.
    fn start(&self, part: Part) -> u32
        ghost given: { Given }
        requires { IsSourcesOf given self.now }
        ensures { result ≡ start_of given part }
    {
        match part {
            Part::ReadOnly => 0x1_0000,
            Part::Writable => 0x2_0000 + 0x1_0000 * self.placed.read_only_len().div_ceil(0x1_0000),
        }
    }
}
