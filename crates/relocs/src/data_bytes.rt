//! The bytes of a section of data, with its relocations.

ghost use Rattle.std.specs.Prelude.{◌≡◌, ◌<◌, ◌≤◌, ◌+◌, length, fold};
ghost use Rattle.elf_objects.specs.Objects.{relocations_of};
ghost use Rattle.elf_objects.specs.Widths.{width};
ghost use Rattle.symbols.specs.Laws.{HasSection};
ghost use Rattle.symbols.specs.Parts.{object_at};
ghost use Rattle.symbols.specs.Wanted.{Given};
ghost use Rattle.relocs.specs.Data.{relocated_by};
ghost use Rattle.relocs.specs.Sources.{IsSourcesOf, HasRoom};

use crate::kinds::kind_of;
use crate::patch::patch;
use crate::sources::Sources;
use elf_objects::Relocation;
use symbols::has_effect;

impl Sources<'_, '_, '_> {
    /// Applies the relocations of a section of data, in table order.
    pub(crate) fn relocate(&self, object: u32, section: u32, bytes: &mut [u8])
        ghost given: { Given }
        requires sources { IsSourcesOf given self.now }
        requires section { HasSection given.objects object section }
        requires room { HasRoom given object section (length bytes.old) }
        ensures bytes { bytes.new ≡ fold (relocated_by given object section) bytes.old (relocations_of (object_at given.objects object) section) }
        ensures len { length bytes.new ≡ length bytes.old }
    {
        for at in 0..self.relocation_count(object, section) {
            self.relocate_by(object, section, self.relocation(object, section, at), bytes);
        }
    }

    /// Applies a relocation, where it changes something.
    #[tactic(auto, using(crate::proofs::Widths::widths))]
    fn relocate_by(&self, object: u32, section: u32, relocation: Relocation, bytes: &mut [u8])
        ghost given: { Given }
        requires sources { IsSourcesOf given self.now }
        requires section { HasSection given.objects object section }
        requires named { relocation.symbol < length (object_at given.objects object).symbols }
        requires within { relocation.offset + width relocation.kind ≤ length bytes.old }
        ensures bytes { bytes.new ≡ relocated_by given object section bytes.old relocation }
        ensures len { length bytes.new ≡ length bytes.old }
    {
        if has_effect(relocation.kind) {
            let value = self.data_value(object, section, relocation);
            patch(
                bytes,
                relocation.offset as usize,
                kind_of(relocation.kind),
                value,
            );
        }
    }
}
