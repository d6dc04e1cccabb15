ghost use Rattle.std.specs.Prelude.{◌≡◌, ◌++◌, IfOk, OnOk, map};
ghost use Rattle.state_words.specs.References.{refs_of, sampler_refs, graphics_refs, compute_refs, base_ref, with_tag};

use crate::state::State;
use foz_words::{Key, NoMemory, Row};
use std::alloc::Global;
use vk_basic::SetLayout;
use vk_pipe::{ComputePipeline, GraphicsPipeline};

/// The states that a state refers to, in the order of its fields. A base pipeline of hash 0 is none.
#[tactic(auto, unfolding(crate::specs::References::refs_of))]
pub fn refs_of(alloc: Global, state: &State) -> Result<Row<Key>, NoMemory>
    ensures { IfOk result (λ refs. refs ≡ refs_of state.now) }
{
    let mut refs = Row::new(alloc);
    match state {
        State::SetLayout(layout) => put_samplers(&mut refs, layout)?,
        State::PipelineLayout(layout) => put_hashes(&mut refs, 2, layout.set_layouts.as_slice())?,
        State::Graphics(pipeline) => put_graphics(&mut refs, pipeline)?,
        State::Compute(pipeline) => put_compute(&mut refs, pipeline)?,
        State::Sampler(_) | State::ShaderModule(_) | State::RenderPass(_) => {}
    }
    Ok(refs)
}

fn put_hashes(refs: &mut Row<Key>, tag: u32, hashes: &[u64]) -> Result<(), NoMemory>
    ensures { OnOk result (refs.new ≡ refs.old ++ map (with_tag tag) hashes.now) }
{
    for hash in hashes {
        refs.push(Key { tag, hash: *hash })?;
    }
    Ok(())
}

#[tactic(auto, unfolding(crate::specs::References::sampler_refs))]
fn put_samplers(refs: &mut Row<Key>, layout: &SetLayout) -> Result<(), NoMemory>
    ensures { OnOk result (refs.new ≡ refs.old ++ sampler_refs layout.now) }
{
    for binding in layout.bindings.as_slice() {
        put_hashes(refs, 1, binding.immutable_samplers.as_slice())?;
    }
    Ok(())
}

#[tactic(auto, unfolding(crate::specs::References::graphics_refs))]
fn put_graphics(refs: &mut Row<Key>, pipeline: &GraphicsPipeline) -> Result<(), NoMemory>
    ensures { OnOk result (refs.new ≡ refs.old ++ graphics_refs pipeline.now) }
{
    for stage in pipeline.stages.as_slice() {
        refs.push(Key {
            tag: 4,
            hash: stage.module,
        })?;
    }
    put_hashes(refs, 3, &[pipeline.layout])?;
    put_hashes(refs, 5, &[pipeline.render_pass])?;
    put_base(refs, 6, pipeline.base_pipeline_handle)
}

#[tactic(auto, unfolding(crate::specs::References::compute_refs))]
fn put_compute(refs: &mut Row<Key>, pipeline: &ComputePipeline) -> Result<(), NoMemory>
    ensures { OnOk result (refs.new ≡ refs.old ++ compute_refs pipeline.now) }
{
    put_hashes(refs, 4, &[pipeline.stage.module])?;
    put_hashes(refs, 3, &[pipeline.layout])?;
    put_base(refs, 7, pipeline.base_pipeline_handle)
}

/// A base pipeline, if there is one.
fn put_base(refs: &mut Row<Key>, tag: u32, hash: u64) -> Result<(), NoMemory>
    ensures { OnOk result (refs.new ≡ refs.old ++ base_ref tag hash) }
{
    if hash != 0 {
        refs.push(Key { tag, hash })?;
    }
    Ok(())
}
