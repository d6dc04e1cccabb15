ghost use Rattle.std.specs.Prelude.{◌≡◌, IfOk};
ghost use Rattle.state_words.specs.Plain.{tag_of, state_fields, state_plain};
ghost use Rattle.state_words.specs.Words.{IsOrdinaryState};
ghost use Rattle.vk_form.specs.Writes.{WritesFields};

use foz_words::NoMemory;
use std::alloc::Global;
use vk_basic::{PipelineLayout, Sampler, SetLayout, ShaderModule};
use vk_form::{Structure, WordWriter};
use vk_pass::RenderPass;
use vk_pipe::{ComputePipeline, GraphicsPipeline};

/// The create-info of one Vulkan object.
#[derive(Debug, Drop)]
pub enum State {
    Sampler(Sampler),
    SetLayout(SetLayout),
    PipelineLayout(PipelineLayout),
    ShaderModule(ShaderModule),
    RenderPass(RenderPass),
    Graphics(GraphicsPipeline),
    Compute(ComputePipeline),
}

impl State {
    /// The tag of its kind in an archive, 1 to 7.
    pub fn tag(&self) -> u32
        ensures { result ≡ tag_of self.now }
    {
        match self {
            State::Sampler(_) => 1,
            State::SetLayout(_) => 2,
            State::PipelineLayout(_) => 3,
            State::ShaderModule(_) => 4,
            State::RenderPass(_) => 5,
            State::Graphics(_) => 6,
            State::Compute(_) => 7,
        }
    }

    /// The same state once more.
    pub fn copy(&self, alloc: Global) -> Result<State, NoMemory>
        ensures { IfOk result (λ copied. copied ≡ self.now) }
    {
        match self {
            State::Sampler(sampler) => Ok(State::Sampler(sampler.copy(alloc)?)),
            State::SetLayout(layout) => Ok(State::SetLayout(layout.copy(alloc)?)),
            State::PipelineLayout(layout) => Ok(State::PipelineLayout(layout.copy(alloc)?)),
            State::ShaderModule(module) => Ok(State::ShaderModule(module.copy(alloc)?)),
            State::RenderPass(pass) => Ok(State::RenderPass(pass.copy(alloc)?)),
            State::Graphics(pipeline) => Ok(State::Graphics(pipeline.copy(alloc)?)),
            State::Compute(pipeline) => Ok(State::Compute(pipeline.copy(alloc)?)),
        }
    }

    /// Gives the words of its fields.
    pub(crate) fn put_fields(&self, out: &mut WordWriter)
        requires { IsOrdinaryState self.now }
        ensures { WritesFields (state_fields self.now) out.old (state_plain self.now) out.new }
    {
        match self {
            State::Sampler(sampler) => sampler.put_words(out),
            State::SetLayout(layout) => layout.put_words(out),
            State::PipelineLayout(layout) => layout.put_words(out),
            State::ShaderModule(module) => module.put_words(out),
            State::RenderPass(pass) => pass.put_words(out),
            State::Graphics(pipeline) => pipeline.put_words(out),
            State::Compute(pipeline) => pipeline.put_words(out),
        }
    }
}
