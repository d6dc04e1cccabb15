// What a graphics pipeline reads, and what it writes to.
ghost use Rattle.std.specs.Prelude.{ℕ, ◌≡◌, map, IfOk};
ghost use Rattle.std.specs.List.{list_all};
ghost use Rattle.std.specs.Ordering.{nat_cmp};
ghost use Rattle.std.specs.BTreeSet.{contains};
ghost use Rattle.driver_rules.specs.Numbers.{are_distinct};
ghost use Rattle.driver_rules.specs.Graphics.{is_described, are_described, is_well_fed, has_well_fed_vertices, blends, has_distinct_dynamics};

use crate::numbers::are_distinct;
use foz_words::NoMemory;
use std::alloc::Global;
use std::collections::BTreeSet;
use vk_pipe::{GraphicsPipeline, VertexAttribute, VertexBinding, VertexInput};

/// No location of vertices is fed twice, and each is fed from a buffer that is described.
pub fn has_well_fed_vertices(alloc: Global, pipeline: &GraphicsPipeline) -> Result<bool, NoMemory>
    ensures { IfOk result (λ fed. fed ≡ has_well_fed_vertices pipeline.now) }
{
    match &pipeline.vertex_input_state {
        None => Ok(true),
        Some(input) => is_well_fed(alloc, input),
    }
}

fn is_well_fed(alloc: Global, input: &VertexInput) -> Result<bool, NoMemory>
    ensures { IfOk result (λ fed. fed ≡ is_well_fed input.now) }
{
    let attributes = input.vertex_attribute_descriptions.as_slice();
    let bindings = input.vertex_binding_descriptions.as_slice();
    Ok(have_distinct_locations(alloc, attributes)? && are_described(alloc, bindings, attributes)?)
}

fn have_distinct_locations(alloc: Global, attributes: &[VertexAttribute]) -> Result<bool, NoMemory>
    ensures { IfOk result (λ distinct. distinct ≡ are_distinct (map (λ a. a.location) attributes.now)) }
{
    let locations: Vec<u32> = attributes.iter().map(|a| a.location).collect(alloc)?;
    are_distinct(alloc, &locations)
}

/// Each attribute is fed from a buffer that is described.
fn are_described(
    alloc: Global,
    bindings: &[VertexBinding],
    attributes: &[VertexAttribute],
) -> Result<bool, NoMemory>
    ensures { IfOk result (λ described. described ≡ are_described bindings.now attributes.now) }
{
    let described = described_by(alloc, bindings)?;
    Ok(are_among(&described, attributes))
}

/// The numbers under which buffers are described.
fn described_by(alloc: Global, bindings: &[VertexBinding]) -> Result<BTreeSet<u32>, NoMemory>
    ensures { IfOk result (λ numbers. (q : ℕ) → contains nat_cmp numbers q ≡ is_described bindings.now q) }
{
    let mut numbers = BTreeSet::new(alloc);
    for binding in bindings {
        numbers.insert(binding.binding)?;
    }
    Ok(numbers)
}

fn are_among(numbers: &BTreeSet<u32>, attributes: &[VertexAttribute]) -> bool
    ensures { result ≡ list_all (λ a. contains nat_cmp numbers.now a.binding) attributes.now }
{
    attributes.iter().all(|a| numbers.contains(&a.binding))
}

/// As many attachments are blended as there are, if any.
pub fn blends(count: usize, pipeline: &GraphicsPipeline) -> bool
    ensures { result ≡ blends count pipeline.now }
{
    match &pipeline.color_blend_state {
        None => true,
        Some(blend) => blend.attachments.len() == count,
    }
}

/// No dynamic state stands twice.
pub fn has_distinct_dynamics(alloc: Global, pipeline: &GraphicsPipeline) -> Result<bool, NoMemory>
    ensures { IfOk result (λ distinct. distinct ≡ has_distinct_dynamics pipeline.now) }
{
    match &pipeline.dynamic_state {
        None => Ok(true),
        Some(dynamic) => are_distinct(alloc, dynamic.dynamic_states.as_slice()),
    }
}
