ghost use Rattle.std.specs.Prelude.{◌≡◌, map};
ghost use Rattle.driver_rules.specs.Rules.{first_broken};
ghost use Rattle.std.specs.List.{list_all};
ghost use Rattle.driver_rules.specs.Numbers.{share_no_bit};
ghost use Rattle.driver_rules.specs.PipelineLayout.{is_of_words, has_stages, pipeline_layout_rules};

use crate::numbers::are_stages;
use crate::rules::first_broken;
use vk_basic::{PipelineLayout, PushRange};

/// The code of the first rule that a pipeline layout breaks, or 0. The set layouts that it refers to are another rule.
#[tactic(auto, unfolding(crate::specs::PipelineLayout::pipeline_layout_rules))]
pub fn pipeline_layout_code(layout: &PipelineLayout) -> u32
    ensures { result ≡ first_broken (pipeline_layout_rules layout.now) }
{
    let ranges = layout.push_constant_ranges.as_slice();
    first_broken(&[
        (12, are_of_words(ranges)),
        (13, share_no_stage(ranges)),
        (14, have_stages(ranges)),
    ])
}

fn are_of_words(ranges: &[PushRange]) -> bool
    ensures { result ≡ list_all is_of_words ranges.now }
{
    ranges.iter().all(is_of_words)
}

fn have_stages(ranges: &[PushRange]) -> bool
    ensures { result ≡ list_all has_stages ranges.now }
{
    ranges.iter().all(has_stages)
}

/// No stage uses two of the ranges.
fn share_no_stage(ranges: &[PushRange]) -> bool
    ensures { result ≡ share_no_bit (map (λ r. r.stage_flags) ranges.now) }
{
    let mut taken = 0;
    for range in ranges {
        if taken & range.stage_flags != 0 {
            return false;
        }
        taken |= range.stage_flags;
    }
    true
}

/// It begins and ends at whole words, and has one at least.
fn is_of_words(range: &PushRange) -> bool
    ensures { result ≡ is_of_words range.now }
{
    range.offset % 4 == 0 && range.size % 4 == 0 && range.size > 0
}

/// There are stages that use it.
fn has_stages(range: &PushRange) -> bool
    ensures { result ≡ has_stages range.now }
{
    range.stage_flags > 0 && are_stages(range.stage_flags)
}
