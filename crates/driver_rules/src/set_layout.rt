ghost use Rattle.std.specs.Prelude.{◌≡◌, nat_le, map, IfOk};
ghost use Rattle.std.specs.List.{list_all};
ghost use Rattle.driver_rules.specs.Numbers.{are_distinct, are_stages};
ghost use Rattle.driver_rules.specs.Rules.{first_broken};
ghost use Rattle.driver_rules.specs.SetLayout.{has_all_samplers, may_have_samplers, set_layout_rules};

use crate::numbers::{are_distinct, are_stages};
use crate::rules::first_broken;
use foz_words::NoMemory;
use std::alloc::Global;
use vk_basic::{Binding, SetLayout};

/// The code of the first rule that a set layout breaks, or 0. The samplers that it refers to are another rule.
#[tactic(auto, unfolding(crate::specs::SetLayout::set_layout_rules))]
pub fn set_layout_code(alloc: Global, layout: &SetLayout) -> Result<u32, NoMemory>
    ensures { IfOk result (λ code. code ≡ first_broken (set_layout_rules layout.now)) }
{
    let bindings = layout.bindings.as_slice();
    Ok(first_broken(&[
        (7, have_distinct_numbers(alloc, bindings)?),
        (8, have_known_types(bindings)),
        (9, have_known_stages(bindings)),
        (10, have_all_samplers(bindings)),
        (11, may_have_samplers(bindings)),
    ]))
}

fn have_distinct_numbers(alloc: Global, bindings: &[Binding]) -> Result<bool, NoMemory>
    ensures { IfOk result (λ distinct. distinct ≡ are_distinct (map (λ b. b.binding) bindings.now)) }
{
    let numbers: Vec<u32> = bindings.iter().map(|b| b.binding).collect(alloc)?;
    are_distinct(alloc, &numbers)
}

fn have_known_types(bindings: &[Binding]) -> bool
    ensures { result ≡ list_all (λ b. nat_le b.descriptor_type 10) bindings.now }
{
    bindings.iter().all(|b| b.descriptor_type <= 10)
}

fn have_known_stages(bindings: &[Binding]) -> bool
    ensures { result ≡ list_all (λ b. are_stages b.stage_flags) bindings.now }
{
    bindings.iter().all(|b| are_stages(b.stage_flags))
}

fn have_all_samplers(bindings: &[Binding]) -> bool
    ensures { result ≡ list_all has_all_samplers bindings.now }
{
    bindings.iter().all(has_all_samplers)
}

fn may_have_samplers(bindings: &[Binding]) -> bool
    ensures { result ≡ list_all may_have_samplers bindings.now }
{
    bindings.iter().all(may_hold_samplers)
}

/// There are no immutable samplers, or as many as there are descriptors.
fn has_all_samplers(binding: &Binding) -> bool
    ensures { result ≡ has_all_samplers binding.now }
{
    let count = binding.immutable_samplers.len();
    count == 0 || count == binding.descriptor_count as usize
}

/// Immutable samplers stand only in a binding of samplers, or of images with samplers.
fn may_hold_samplers(binding: &Binding) -> bool
    ensures { result ≡ may_have_samplers binding.now }
{
    binding.immutable_samplers.len() == 0 || binding.descriptor_type <= 1
}
