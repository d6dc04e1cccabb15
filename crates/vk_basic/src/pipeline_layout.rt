use foz_words::{NoMemory, Row};
use std::alloc::Global;
use vk_form::{Structure, WordWriter, copies};

/// A range of push constants, in bytes (Vulkan's `VkPushConstantRange`).
#[derive(Clone, Copy, Debug, PartialEq, Eq)]
pub struct PushRange {
    pub stage_flags: u32,
    pub offset: u32,
    pub size: u32,
}

/// The layout of a pipeline (Vulkan's `VkPipelineLayoutCreateInfo`). Set layouts are named by their hashes.
#[derive(Debug, Drop)]
pub struct PipelineLayout {
    pub flags: u32,
    pub set_layouts: Row<u64>,
    pub push_constant_ranges: Row<PushRange>,
}

#[tactic(auto, unfolding(crate::specs::Tables::push_range, crate::specs::Plain::push_range))]
impl Structure for PushRange {
    ghost use Rattle.vk_basic.specs.Tables as table;
    ghost use Rattle.vk_basic.specs.Plain as plain;
    ghost use Rattle.vk_basic.specs.Made as made;
    ghost use Rattle.vk_basic.specs.Back as back;

    ghost fields = { table.push_range };

    ghost plain = { plain.push_range };

    ghost of_plain = { made.push_range };

    ghost back = { back.push_range };

    fn copy(&self, _alloc: Global) -> Result<PushRange, NoMemory> {
        Ok(*self)
    }

    fn put_words(&self, out: &mut WordWriter) {
        out.number(self.stage_flags);
        out.number(self.offset);
        out.number(self.size);
    }
}

#[tactic(auto, unfolding(crate::specs::Tables::pipeline_layout, crate::specs::Plain::pipeline_layout))]
impl Structure for PipelineLayout {
    ghost use Rattle.vk_basic.specs.Tables as table;
    ghost use Rattle.vk_basic.specs.Plain as plain;
    ghost use Rattle.vk_basic.specs.Made as made;
    ghost use Rattle.vk_basic.specs.Back as back;

    ghost fields = { table.pipeline_layout };

    ghost plain = { plain.pipeline_layout };

    ghost of_plain = { made.pipeline_layout };

    ghost back = { back.pipeline_layout };

    fn copy(&self, alloc: Global) -> Result<PipelineLayout, NoMemory> {
        Ok(PipelineLayout {
            flags: self.flags,
            set_layouts: self.set_layouts.copy(alloc)?,
            push_constant_ranges: copies(alloc, &self.push_constant_ranges)?,
        })
    }

    fn put_words(&self, out: &mut WordWriter) {
        out.number(self.flags);
        out.hashes(&self.set_layouts);
        out.structures(&self.push_constant_ranges);
    }
}
