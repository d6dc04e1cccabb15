// The stages of a graphics pipeline.
ghost use Rattle.std.specs.Prelude.{◌≡◌, map, IfOk};
ghost use Rattle.std.specs.List.{list_all};
ghost use Rattle.driver_rules.specs.Graphics.{is_graphics_stage, has_graphics_stages, has_distinct_stages, has_stage, stages_have_data, tessellates_whole};

use crate::numbers::are_distinct;
use crate::stage::has_data;
use foz_words::NoMemory;
use std::alloc::Global;
use vk_pipe::{GraphicsPipeline, Stage};

/// There is a stage, and each is one of a graphics pipeline.
pub fn has_graphics_stages(pipeline: &GraphicsPipeline) -> bool
    ensures { result ≡ has_graphics_stages pipeline.now }
{
    let stages = pipeline.stages.as_slice();
    stages.len() != 0 && are_graphics_stages(stages)
}

fn are_graphics_stages(stages: &[Stage]) -> bool
    ensures { result ≡ list_all (λ s. is_graphics_stage s.stage) stages.now }
{
    stages.iter().all(|s| is_graphics_stage(s.stage))
}

fn is_graphics_stage(stage: u32) -> bool
    ensures { result ≡ is_graphics_stage stage }
{
    matches!(stage, 1 | 2 | 4 | 8 | 16)
}

/// No stage stands twice.
pub fn has_distinct_stages(alloc: Global, pipeline: &GraphicsPipeline) -> Result<bool, NoMemory>
    ensures { IfOk result (λ distinct. distinct ≡ has_distinct_stages pipeline.now) }
{
    let stages = pipeline.stages.as_slice();
    let numbers: Vec<u32> = stages.iter().map(|s| s.stage).collect(alloc)?;
    are_distinct(alloc, &numbers)
}

/// Is there such a stage?
pub fn has_stage(stage: u32, pipeline: &GraphicsPipeline) -> bool
    ensures { result ≡ has_stage stage pipeline.now }
{
    let stages = pipeline.stages.as_slice();
    stages.iter().any(|s| s.stage == stage)
}

/// The specialization constants of each stage lie within their data.
pub fn stages_have_data(pipeline: &GraphicsPipeline) -> bool
    ensures { result ≡ stages_have_data pipeline.now }
{
    let stages = pipeline.stages.as_slice();
    stages.iter().all(has_data)
}

/// Tessellation is controlled and evaluated, or neither.
pub fn tessellates_whole(pipeline: &GraphicsPipeline) -> bool
    ensures { result ≡ tessellates_whole pipeline.now }
{
    has_stage(2, pipeline) == has_stage(4, pipeline)
}
