use crate::Basic;
use foz_words::NoMemory;
use json_fold::{FieldReader, Json, ObjectWriter};
use vk_basic::{PipelineLayout, PushRange};

#[tactic(auto, unfolding(vk_basic::specs::Tables::push_range, vk_basic::specs::Plain::push_range))]
impl Json<Basic> for PushRange {
    ghost use Rattle.json_basic.specs.Names as names;

    ghost sound = { names.push_range };

    fn put_members(&self, out: &mut ObjectWriter) -> Result<(), NoMemory> {
        out.number("stageFlags", self.stage_flags)?;
        out.number("offset", self.offset)?;
        out.number("size", self.size)?;
        Ok(())
    }

    fn read_fields(fields: &mut FieldReader) -> PushRange {
        PushRange {
            stage_flags: fields.number("stageFlags"),
            offset: fields.number("offset"),
            size: fields.number("size"),
        }
    }
}

#[tactic(auto, unfolding(vk_basic::specs::Tables::pipeline_layout, vk_basic::specs::Plain::pipeline_layout))]
impl Json<Basic> for PipelineLayout {
    ghost use Rattle.json_basic.specs.Names as names;

    ghost sound = { names.pipeline_layout };

    fn put_members(&self, out: &mut ObjectWriter) -> Result<(), NoMemory> {
        out.number("flags", self.flags)?;
        out.hashes("setLayouts", &self.set_layouts)?;
        out.structures("pushConstantRanges", &self.push_constant_ranges)?;
        Ok(())
    }

    fn read_fields(fields: &mut FieldReader) -> PipelineLayout {
        PipelineLayout {
            flags: fields.number("flags"),
            set_layouts: fields.hashes("setLayouts"),
            push_constant_ranges: fields.structures("pushConstantRanges"),
        }
    }
}
