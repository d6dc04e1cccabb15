use crate::blend::{ColorBlend, Dynamic};
use crate::depth::DepthStencil;
use crate::raster::{Multisample, Rasterization};
use crate::stage::Stage;
use crate::vertex::{InputAssembly, Tessellation, VertexInput};
use crate::viewport::Viewports;
use foz_words::{NoMemory, Row};
use std::alloc::Global;
use vk_form::{Structure, WordWriter, copies, optional_copy};

/// A graphics pipeline (Vulkan's `VkGraphicsPipelineCreateInfo`). Layout, render pass and base pipeline are named by their hashes; a base pipeline of hash 0 is none.
#[derive(Debug, Drop)]
pub struct GraphicsPipeline {
    pub flags: u32,
    pub stages: Row<Stage>,
    pub vertex_input_state: Option<VertexInput>,
    pub input_assembly_state: Option<InputAssembly>,
    pub tessellation_state: Option<Tessellation>,
    pub viewport_state: Option<Viewports>,
    pub rasterization_state: Option<Rasterization>,
    pub multisample_state: Option<Multisample>,
    pub depth_stencil_state: Option<DepthStencil>,
    pub color_blend_state: Option<ColorBlend>,
    pub dynamic_state: Option<Dynamic>,
    pub layout: u64,
    pub render_pass: u64,
    pub subpass: u32,
    pub base_pipeline_handle: u64,
}

#[tactic(auto, unfolding(crate::specs::Tables::graphics_pipeline, crate::specs::Plain::graphics_pipeline))]
impl Structure for GraphicsPipeline {
    ghost use Rattle.vk_pipe.specs.Tables as table;
    ghost use Rattle.vk_pipe.specs.Plain as plain;
    ghost use Rattle.vk_pipe.specs.Made as made;
    ghost use Rattle.vk_pipe.specs.Back as back;

    ghost fields = { table.graphics_pipeline };

    ghost plain = { plain.graphics_pipeline };

    ghost of_plain = { made.graphics_pipeline };

    ghost back = { back.graphics_pipeline };

    fn copy(&self, alloc: Global) -> Result<GraphicsPipeline, NoMemory> {
        Ok(GraphicsPipeline {
            flags: self.flags,
            stages: copies(alloc, &self.stages)?,
            vertex_input_state: optional_copy(alloc, &self.vertex_input_state)?,
            input_assembly_state: optional_copy(alloc, &self.input_assembly_state)?,
            tessellation_state: optional_copy(alloc, &self.tessellation_state)?,
            viewport_state: optional_copy(alloc, &self.viewport_state)?,
            rasterization_state: optional_copy(alloc, &self.rasterization_state)?,
            multisample_state: optional_copy(alloc, &self.multisample_state)?,
            depth_stencil_state: optional_copy(alloc, &self.depth_stencil_state)?,
            color_blend_state: optional_copy(alloc, &self.color_blend_state)?,
            dynamic_state: optional_copy(alloc, &self.dynamic_state)?,
            layout: self.layout,
            render_pass: self.render_pass,
            subpass: self.subpass,
            base_pipeline_handle: self.base_pipeline_handle,
        })
    }

    fn put_words(&self, out: &mut WordWriter) {
        out.number(self.flags);
        out.structures(&self.stages);
        out.optional(&self.vertex_input_state);
        out.optional(&self.input_assembly_state);
        out.optional(&self.tessellation_state);
        out.optional(&self.viewport_state);
        out.optional(&self.rasterization_state);
        out.optional(&self.multisample_state);
        out.optional(&self.depth_stencil_state);
        out.optional(&self.color_blend_state);
        out.optional(&self.dynamic_state);
        out.hash(self.layout);
        out.hash(self.render_pass);
        out.number(self.subpass);
        out.hash(self.base_pipeline_handle);
    }
}
