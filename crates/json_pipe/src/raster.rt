use crate::Pipe;
use foz_words::NoMemory;
use json_fold::{FieldReader, Json, ObjectWriter};
use vk_pipe::{Multisample, Rasterization};

#[tactic(auto, unfolding(vk_pipe::specs::Tables::rasterization, vk_pipe::specs::Plain::rasterization))]
impl Json<Pipe> for Rasterization {
    ghost use Rattle.json_pipe.specs.Names as names;

    ghost sound = { names.rasterization };

    fn put_members(&self, out: &mut ObjectWriter) -> Result<(), NoMemory> {
        out.number("flags", self.flags)?;
        out.number("depthClampEnable", self.depth_clamp_enable)?;
        out.number("rasterizerDiscardEnable", self.rasterizer_discard_enable)?;
        out.number("polygonMode", self.polygon_mode)?;
        out.number("cullMode", self.cull_mode)?;
        out.number("frontFace", self.front_face)?;
        out.number("depthBiasEnable", self.depth_bias_enable)?;
        out.unit("depthBiasConstantFactor", self.depth_bias_constant_factor)?;
        out.unit("depthBiasClamp", self.depth_bias_clamp)?;
        out.unit("depthBiasSlopeFactor", self.depth_bias_slope_factor)?;
        out.unit("lineWidth", self.line_width)?;
        Ok(())
    }

    fn read_fields(fields: &mut FieldReader) -> Rasterization {
        Rasterization {
            flags: fields.number("flags"),
            depth_clamp_enable: fields.number("depthClampEnable"),
            rasterizer_discard_enable: fields.number("rasterizerDiscardEnable"),
            polygon_mode: fields.number("polygonMode"),
            cull_mode: fields.number("cullMode"),
            front_face: fields.number("frontFace"),
            depth_bias_enable: fields.number("depthBiasEnable"),
            depth_bias_constant_factor: fields.unit("depthBiasConstantFactor"),
            depth_bias_clamp: fields.unit("depthBiasClamp"),
            depth_bias_slope_factor: fields.unit("depthBiasSlopeFactor"),
            line_width: fields.unit("lineWidth"),
        }
    }
}

#[tactic(auto, unfolding(vk_pipe::specs::Tables::multisample, vk_pipe::specs::Plain::multisample))]
impl Json<Pipe> for Multisample {
    ghost use Rattle.json_pipe.specs.Names as names;

    ghost sound = { names.multisample };

    fn put_members(&self, out: &mut ObjectWriter) -> Result<(), NoMemory> {
        out.number("flags", self.flags)?;
        out.number("rasterizationSamples", self.rasterization_samples)?;
        out.number("sampleShadingEnable", self.sample_shading_enable)?;
        out.unit("minSampleShading", self.min_sample_shading)?;
        out.numbers("sampleMask", &self.sample_mask)?;
        out.number("alphaToCoverageEnable", self.alpha_to_coverage_enable)?;
        out.number("alphaToOneEnable", self.alpha_to_one_enable)?;
        Ok(())
    }

    fn read_fields(fields: &mut FieldReader) -> Multisample {
        Multisample {
            flags: fields.number("flags"),
            rasterization_samples: fields.number("rasterizationSamples"),
            sample_shading_enable: fields.number("sampleShadingEnable"),
            min_sample_shading: fields.unit("minSampleShading"),
            sample_mask: fields.numbers("sampleMask"),
            alpha_to_coverage_enable: fields.number("alphaToCoverageEnable"),
            alpha_to_one_enable: fields.number("alphaToOneEnable"),
        }
    }
}
