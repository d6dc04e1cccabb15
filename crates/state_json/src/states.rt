ghost use Rattle.std.specs.Prelude.{◌≡◌, IfOk, OnOk, IfSome, false};
ghost use Rattle.std.specs.Option.{option_map};
ghost use Rattle.serde_json.specs.View.{view};
ghost use Rattle.serde_json.specs.Written.{has_float};
ghost use Rattle.json_fold.specs.Fault.{Reads};
ghost use Rattle.state_json.specs.States.{state_reading, state_written, IsInStateRange};

use crate::kind::JsonKind;
use foz_words::NoMemory;
use json_fold::{FieldError, Json};
use serde_json::Value;
use state_words::State;
use std::alloc::Global;
use vk_basic::{PipelineLayout, Sampler, SetLayout};
use vk_pass::RenderPass;
use vk_pipe::{ComputePipeline, GraphicsPipeline};

/// The state that a value is by its kind, or the first fault in the order of the fields. `path` names the value.
#[tactic(auto, unfolding(crate::specs::States::state_reading), using(crate::proofs::ReadAs::is_read))]
pub fn state_from(
    alloc: Global,
    kind: JsonKind,
    value: &Value,
    path: &str,
) -> Result<State, FieldError>
    ensures { Reads (λ state. state) result (state_reading kind (view value.now) path.now) }
{
    match kind {
        JsonKind::Sampler => Ok(State::Sampler(Sampler::from_json(alloc, value, path)?)),
        JsonKind::SetLayout => Ok(State::SetLayout(SetLayout::from_json(alloc, value, path)?)),
        JsonKind::PipelineLayout => Ok(State::PipelineLayout(PipelineLayout::from_json(
            alloc, value, path,
        )?)),
        JsonKind::RenderPass => Ok(State::RenderPass(RenderPass::from_json(alloc, value, path)?)),
        JsonKind::Graphics => Ok(State::Graphics(GraphicsPipeline::from_json(alloc, value, path)?)),
        JsonKind::Compute => Ok(State::Compute(ComputePipeline::from_json(alloc, value, path)?)),
    }
}

/// The JSON object of a state. It is `None` exactly for a shader module.
#[tactic(auto, unfolding(crate::specs::States::state_written, crate::specs::States::IsInStateRange))]
pub fn value_of(alloc: Global, state: &State) -> Result<Option<Value>, NoMemory>
    ensures written { IfOk result (λ value. option_map view value ≡ state_written state.now) }
    ensures no_float { IfOk result (λ value. IfSome value (λ v. has_float (view v) ≡ false)) }
    ensures in_range { OnOk result (IsInStateRange state.now) }
{
    match state {
        State::Sampler(sampler) => Ok(Some(sampler.to_json(alloc)?)),
        State::SetLayout(layout) => Ok(Some(layout.to_json(alloc)?)),
        State::PipelineLayout(layout) => Ok(Some(layout.to_json(alloc)?)),
        State::RenderPass(pass) => Ok(Some(pass.to_json(alloc)?)),
        State::Graphics(pipeline) => Ok(Some(pipeline.to_json(alloc)?)),
        State::Compute(pipeline) => Ok(Some(pipeline.to_json(alloc)?)),
        State::ShaderModule(_) => Ok(None),
    }
}
