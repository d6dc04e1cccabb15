ghost use Rattle.std.specs.Prelude.{◌≡◌, find};
ghost use Rattle.std.specs.Str.{bytes_eq};
ghost use Rattle.capture_lines.specs.Kinds.{word_of, kind_of, kind_of_state};

use state_json::JsonKind;
use state_words::State;

/// A kind of state that a capture line can hold.
#[derive(Clone, Copy, Debug, PartialEq, Eq)]
pub(crate) enum LineKind {
    /// A kind whose object is the same wherever it stands.
    Object(JsonKind),
    /// A shader module, whose object is that of [`CapturedModule`](crate::captured::CapturedModule).
    ShaderModule,
}

const KINDS: [LineKind; 7] = [
    LineKind::Object(JsonKind::Sampler),
    LineKind::Object(JsonKind::SetLayout),
    LineKind::Object(JsonKind::PipelineLayout),
    LineKind::ShaderModule,
    LineKind::Object(JsonKind::RenderPass),
    LineKind::Object(JsonKind::Graphics),
    LineKind::Object(JsonKind::Compute),
];

/// The word that a kind's lines begin with.
#[tactic(auto, unfolding(crate::specs::Kinds::word_of))]
fn word_of(kind: LineKind) -> &'static str
    ensures { result.now ≡ word_of kind }
{
    match kind {
        LineKind::Object(JsonKind::Sampler) => "sampler",
        LineKind::Object(JsonKind::SetLayout) => "set_layout",
        LineKind::Object(JsonKind::PipelineLayout) => "pipeline_layout",
        LineKind::ShaderModule => "shader_module",
        LineKind::Object(JsonKind::RenderPass) => "render_pass",
        LineKind::Object(JsonKind::Graphics) => "graphics_pipeline",
        LineKind::Object(JsonKind::Compute) => "compute_pipeline",
    }
}

/// The kind that has this word.
#[tactic(auto, unfolding(crate::specs::Kinds::kind_of))]
pub(crate) fn kind_of(word: &[u8]) -> Option<LineKind>
    ensures { result ≡ kind_of word.now }
{
    find_kind(&KINDS, word)
}

fn find_kind(kinds: &[LineKind], word: &[u8]) -> Option<LineKind>
    ensures { result ≡ find (λ kind. bytes_eq (word_of kind) word.now) kinds.now }
{
    kinds.iter().copied().find(|kind| has_word(*kind, word))
}

fn has_word(kind: LineKind, word: &[u8]) -> bool
    ensures { result ≡ bytes_eq (word_of kind) word.now }
{
    word_of(kind).as_bytes() == word
}

#[tactic(auto, unfolding(crate::specs::Kinds::kind_of_state))]
fn kind_of_state(state: &State) -> LineKind
    ensures { result ≡ kind_of_state state.now }
{
    match state {
        State::Sampler(_) => LineKind::Object(JsonKind::Sampler),
        State::SetLayout(_) => LineKind::Object(JsonKind::SetLayout),
        State::PipelineLayout(_) => LineKind::Object(JsonKind::PipelineLayout),
        State::ShaderModule(_) => LineKind::ShaderModule,
        State::RenderPass(_) => LineKind::Object(JsonKind::RenderPass),
        State::Graphics(_) => LineKind::Object(JsonKind::Graphics),
        State::Compute(_) => LineKind::Object(JsonKind::Compute),
    }
}

/// The word that the line of a state begins with.
pub fn kind_word(state: &State) -> &'static str
    ensures { result.now ≡ word_of (kind_of_state state.now) }
{
    word_of(kind_of_state(state))
}
