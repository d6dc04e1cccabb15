use crate::stage::Stage;
use foz_words::NoMemory;
use std::alloc::Global;
use vk_form::{Structure, WordWriter};

/// A compute pipeline (Vulkan's `VkComputePipelineCreateInfo`). Layout and base pipeline are named by their hashes; a base pipeline of hash 0 is none.
#[derive(Debug, Drop)]
pub struct ComputePipeline {
    pub flags: u32,
    pub stage: Stage,
    pub layout: u64,
    pub base_pipeline_handle: u64,
}

#[tactic(auto, unfolding(crate::specs::Tables::compute_pipeline, crate::specs::Plain::compute_pipeline))]
impl Structure for ComputePipeline {
    ghost use Rattle.vk_pipe.specs.Tables as table;
    ghost use Rattle.vk_pipe.specs.Plain as plain;
    ghost use Rattle.vk_pipe.specs.Made as made;
    ghost use Rattle.vk_pipe.specs.Back as back;

    ghost fields = { table.compute_pipeline };

    ghost plain = { plain.compute_pipeline };

    ghost of_plain = { made.compute_pipeline };

    ghost back = { back.compute_pipeline };

    fn copy(&self, alloc: Global) -> Result<ComputePipeline, NoMemory> {
        Ok(ComputePipeline {
            flags: self.flags,
            stage: self.stage.copy(alloc)?,
            layout: self.layout,
            base_pipeline_handle: self.base_pipeline_handle,
        })
    }

    fn put_words(&self, out: &mut WordWriter) {
        out.number(self.flags);
        out.structure(&self.stage);
        out.hash(self.layout);
        out.hash(self.base_pipeline_handle);
    }
}
