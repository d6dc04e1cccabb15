use crate::Basic;
use foz_words::NoMemory;
use json_fold::{FieldReader, Json, ObjectWriter};
use vk_basic::{Binding, SetLayout};

#[tactic(auto, unfolding(vk_basic::specs::Tables::binding, vk_basic::specs::Plain::binding))]
impl Json<Basic> for Binding {
    ghost use Rattle.json_basic.specs.Names as names;

    ghost sound = { names.binding };

    fn put_members(&self, out: &mut ObjectWriter) -> Result<(), NoMemory> {
        out.number("binding", self.binding)?;
        out.number("descriptorType", self.descriptor_type)?;
        out.number("descriptorCount", self.descriptor_count)?;
        out.number("stageFlags", self.stage_flags)?;
        out.hashes("immutableSamplers", &self.immutable_samplers)?;
        Ok(())
    }

    fn read_fields(fields: &mut FieldReader) -> Binding {
        Binding {
            binding: fields.number("binding"),
            descriptor_type: fields.number("descriptorType"),
            descriptor_count: fields.number("descriptorCount"),
            stage_flags: fields.number("stageFlags"),
            immutable_samplers: fields.hashes("immutableSamplers"),
        }
    }
}

#[tactic(auto, unfolding(vk_basic::specs::Tables::set_layout, vk_basic::specs::Plain::set_layout))]
impl Json<Basic> for SetLayout {
    ghost use Rattle.json_basic.specs.Names as names;

    ghost sound = { names.set_layout };

    fn put_members(&self, out: &mut ObjectWriter) -> Result<(), NoMemory> {
        out.number("flags", self.flags)?;
        out.structures("bindings", &self.bindings)?;
        Ok(())
    }

    fn read_fields(fields: &mut FieldReader) -> SetLayout {
        SetLayout {
            flags: fields.number("flags"),
            bindings: fields.structures("bindings"),
        }
    }
}
