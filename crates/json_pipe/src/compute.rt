use crate::Pipe;
use foz_words::NoMemory;
use json_fold::{FieldReader, Json, ObjectWriter};
use vk_pipe::ComputePipeline;

#[tactic(auto, unfolding(vk_pipe::specs::Tables::compute_pipeline, vk_pipe::specs::Plain::compute_pipeline))]
impl Json<Pipe> for ComputePipeline {
    ghost use Rattle.json_pipe.specs.Names as names;

    ghost sound = { names.compute_pipeline };

    fn put_members(&self, out: &mut ObjectWriter) -> Result<(), NoMemory> {
        out.number("flags", self.flags)?;
        out.structure("stage", &self.stage)?;
        out.hash("layout", self.layout)?;
        out.hash("basePipelineHandle", self.base_pipeline_handle)?;
        Ok(())
    }

    fn read_fields(fields: &mut FieldReader) -> ComputePipeline {
        ComputePipeline {
            flags: fields.number("flags"),
            stage: fields.structure("stage"),
            layout: fields.hash("layout"),
            base_pipeline_handle: fields.hash("basePipelineHandle"),
        }
    }
}
