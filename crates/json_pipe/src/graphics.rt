use crate::Pipe;
use foz_words::NoMemory;
use json_fold::{FieldReader, Json, ObjectWriter};
use vk_pipe::GraphicsPipeline;

#[tactic(auto, unfolding(vk_pipe::specs::Tables::graphics_pipeline, vk_pipe::specs::Plain::graphics_pipeline))]
impl Json<Pipe> for GraphicsPipeline {
    ghost use Rattle.json_pipe.specs.Names as names;

    ghost sound = { names.graphics_pipeline };

    fn put_members(&self, out: &mut ObjectWriter) -> Result<(), NoMemory> {
        out.number("flags", self.flags)?;
        out.structures("stages", &self.stages)?;
        out.optional("vertexInputState", &self.vertex_input_state)?;
        out.optional("inputAssemblyState", &self.input_assembly_state)?;
        out.optional("tessellationState", &self.tessellation_state)?;
        out.optional("viewportState", &self.viewport_state)?;
        out.optional("rasterizationState", &self.rasterization_state)?;
        out.optional("multisampleState", &self.multisample_state)?;
        out.optional("depthStencilState", &self.depth_stencil_state)?;
        out.optional("colorBlendState", &self.color_blend_state)?;
        out.optional("dynamicState", &self.dynamic_state)?;
        out.hash("layout", self.layout)?;
        out.hash("renderPass", self.render_pass)?;
        out.number("subpass", self.subpass)?;
        out.hash("basePipelineHandle", self.base_pipeline_handle)?;
        Ok(())
    }

    fn read_fields(fields: &mut FieldReader) -> GraphicsPipeline {
        GraphicsPipeline {
            flags: fields.number("flags"),
            stages: fields.structures("stages"),
            vertex_input_state: fields.optional("vertexInputState"),
            input_assembly_state: fields.optional("inputAssemblyState"),
            tessellation_state: fields.optional("tessellationState"),
            viewport_state: fields.optional("viewportState"),
            rasterization_state: fields.optional("rasterizationState"),
            multisample_state: fields.optional("multisampleState"),
            depth_stencil_state: fields.optional("depthStencilState"),
            color_blend_state: fields.optional("colorBlendState"),
            dynamic_state: fields.optional("dynamicState"),
            layout: fields.hash("layout"),
            render_pass: fields.hash("renderPass"),
            subpass: fields.number("subpass"),
            base_pipeline_handle: fields.hash("basePipelineHandle"),
        }
    }
}
