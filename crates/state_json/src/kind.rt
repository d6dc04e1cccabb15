/// A kind of state whose JSON object is the same wherever it stands: each but the shader modules.
#[derive(Clone, Copy, Debug, PartialEq, Eq)]
pub enum JsonKind {
    Sampler,
    SetLayout,
    PipelineLayout,
    RenderPass,
    Graphics,
    Compute,
}
