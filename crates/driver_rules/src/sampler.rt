ghost use Rattle.std.specs.Prelude.{◌≡◌};
ghost use Rattle.driver_rules.specs.Rules.{first_broken};
ghost use Rattle.driver_rules.specs.Sampler.{has_known_filters, has_known_address_modes, has_plain_switches, sampler_rules};

use crate::rules::first_broken;
use vk_basic::Sampler;

/// The code of the first rule that a sampler breaks, or 0.
#[tactic(auto, unfolding(crate::specs::Sampler::sampler_rules))]
pub fn sampler_code(sampler: &Sampler) -> u32
    ensures { result ≡ first_broken (sampler_rules sampler.now) }
{
    first_broken(&[
        (1, has_known_filters(sampler)),
        (2, sampler.mipmap_mode <= 1),
        (3, has_known_address_modes(sampler)),
        (4, sampler.compare_op <= 7),
        (5, sampler.border_color <= 5),
        (6, has_plain_switches(sampler)),
    ])
}

fn has_known_filters(sampler: &Sampler) -> bool
    ensures { result ≡ has_known_filters sampler.now }
{
    sampler.mag_filter <= 1 && sampler.min_filter <= 1
}

fn has_known_address_modes(sampler: &Sampler) -> bool
    ensures { result ≡ has_known_address_modes sampler.now }
{
    sampler.address_mode_u <= 4 && sampler.address_mode_v <= 4 && sampler.address_mode_w <= 4
}

fn has_plain_switches(sampler: &Sampler) -> bool
    ensures { result ≡ has_plain_switches sampler.now }
{
    sampler.anisotropy_enable <= 1
        && sampler.compare_enable <= 1
        && sampler.unnormalized_coordinates <= 1
}
