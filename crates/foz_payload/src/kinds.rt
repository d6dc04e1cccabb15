ghost use Rattle.std.specs.Prelude.{◌≡◌};
ghost use Rattle.foz_payload.specs.Meaning.{kind_of_tag, member_of};
ghost use Rattle.foz_payload.specs.Payload.{member_of_state};

use state_json::JsonKind;
use state_words::State;

/// The kind of this tag. It is `None` for shader modules, and for a tag that no kind has.
pub(crate) fn kind_of_tag(tag: u32) -> Option<JsonKind>
    ensures { result ≡ kind_of_tag tag }
{
    match tag {
        1 => Some(JsonKind::Sampler),
        2 => Some(JsonKind::SetLayout),
        3 => Some(JsonKind::PipelineLayout),
        5 => Some(JsonKind::RenderPass),
        6 => Some(JsonKind::Graphics),
        7 => Some(JsonKind::Compute),
        _ => None,
    }
}

/// The member of a payload that holds the objects of this kind.
pub(crate) fn member_of(kind: JsonKind) -> &'static str
    ensures { result.now ≡ member_of kind }
{
    match kind {
        JsonKind::Sampler => "samplers",
        JsonKind::SetLayout => "setLayouts",
        JsonKind::PipelineLayout => "pipelineLayouts",
        JsonKind::RenderPass => "renderPasses",
        JsonKind::Graphics => "graphicsPipelines",
        JsonKind::Compute => "computePipelines",
    }
}

pub(crate) const MODULES: &str = "shaderModules";

/// The member of a payload that holds the object of a state.
pub(crate) fn member_of_state(state: &State) -> &'static str
    ensures { result.now ≡ member_of_state state.now }
{
    match state {
        State::Sampler(_) => member_of(JsonKind::Sampler),
        State::SetLayout(_) => member_of(JsonKind::SetLayout),
        State::PipelineLayout(_) => member_of(JsonKind::PipelineLayout),
        State::ShaderModule(_) => MODULES,
        State::RenderPass(_) => member_of(JsonKind::RenderPass),
        State::Graphics(_) => member_of(JsonKind::Graphics),
        State::Compute(_) => member_of(JsonKind::Compute),
    }
}
