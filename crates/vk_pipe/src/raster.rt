use foz_words::{NoMemory, Row, Unit};
use std::alloc::Global;
use vk_form::{Structure, WordWriter};

/// How primitives become fragments (Vulkan's `VkPipelineRasterizationStateCreateInfo`).
#[derive(Clone, Copy, Debug, PartialEq, Eq)]
pub struct Rasterization {
    pub flags: u32,
    pub depth_clamp_enable: u32,
    pub rasterizer_discard_enable: u32,
    pub polygon_mode: u32,
    pub cull_mode: u32,
    pub front_face: u32,
    pub depth_bias_enable: u32,
    pub depth_bias_constant_factor: Unit,
    pub depth_bias_clamp: Unit,
    pub depth_bias_slope_factor: Unit,
    pub line_width: Unit,
}

/// Samples per fragment (Vulkan's `VkPipelineMultisampleStateCreateInfo`).
#[derive(Debug, Drop)]
pub struct Multisample {
    pub flags: u32,
    pub rasterization_samples: u32,
    pub sample_shading_enable: u32,
    pub min_sample_shading: Unit,
    pub sample_mask: Row<u32>,
    pub alpha_to_coverage_enable: u32,
    pub alpha_to_one_enable: u32,
}

#[tactic(auto, unfolding(crate::specs::Tables::rasterization, crate::specs::Plain::rasterization))]
impl Structure for Rasterization {
    ghost use Rattle.vk_pipe.specs.Tables as table;
    ghost use Rattle.vk_pipe.specs.Plain as plain;
    ghost use Rattle.vk_pipe.specs.Made as made;
    ghost use Rattle.vk_pipe.specs.Back as back;

    ghost fields = { table.rasterization };

    ghost plain = { plain.rasterization };

    ghost of_plain = { made.rasterization };

    ghost back = { back.rasterization };

    fn copy(&self, _alloc: Global) -> Result<Rasterization, NoMemory> {
        Ok(*self)
    }

    fn put_words(&self, out: &mut WordWriter) {
        out.number(self.flags);
        out.number(self.depth_clamp_enable);
        out.number(self.rasterizer_discard_enable);
        out.number(self.polygon_mode);
        out.number(self.cull_mode);
        out.number(self.front_face);
        out.number(self.depth_bias_enable);
        out.unit(self.depth_bias_constant_factor);
        out.unit(self.depth_bias_clamp);
        out.unit(self.depth_bias_slope_factor);
        out.unit(self.line_width);
    }
}

#[tactic(auto, unfolding(crate::specs::Tables::multisample, crate::specs::Plain::multisample))]
impl Structure for Multisample {
    ghost use Rattle.vk_pipe.specs.Tables as table;
    ghost use Rattle.vk_pipe.specs.Plain as plain;
    ghost use Rattle.vk_pipe.specs.Made as made;
    ghost use Rattle.vk_pipe.specs.Back as back;

    ghost fields = { table.multisample };

    ghost plain = { plain.multisample };

    ghost of_plain = { made.multisample };

    ghost back = { back.multisample };

    fn copy(&self, alloc: Global) -> Result<Multisample, NoMemory> {
        Ok(Multisample {
            flags: self.flags,
            rasterization_samples: self.rasterization_samples,
            sample_shading_enable: self.sample_shading_enable,
            min_sample_shading: self.min_sample_shading,
            sample_mask: self.sample_mask.copy(alloc)?,
            alpha_to_coverage_enable: self.alpha_to_coverage_enable,
            alpha_to_one_enable: self.alpha_to_one_enable,
        })
    }

    fn put_words(&self, out: &mut WordWriter) {
        out.number(self.flags);
        out.number(self.rasterization_samples);
        out.number(self.sample_shading_enable);
        out.unit(self.min_sample_shading);
        out.numbers(&self.sample_mask);
        out.number(self.alpha_to_coverage_enable);
        out.number(self.alpha_to_one_enable);
    }
}
