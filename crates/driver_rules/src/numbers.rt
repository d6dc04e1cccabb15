ghost use Rattle.std.specs.Prelude.{◌≡◌, IfOk};
ghost use Rattle.driver_rules.specs.Numbers.{are_distinct, are_stages, is_within};

use foz_words::NoMemory;
use std::alloc::Global;
use std::collections::BTreeSet;

const ALL_STAGES: u32 = 0x7FFF_FFFF;

const NONE: u32 = 0xFFFF_FFFF;

/// Does no number stand twice?
pub(crate) fn are_distinct(alloc: Global, numbers: &[u32]) -> Result<bool, NoMemory>
    ensures { IfOk result (λ distinct. distinct ≡ are_distinct numbers.now) }
{
    let mut seen = BTreeSet::new(alloc);
    for number in numbers {
        if !seen.insert(*number)? {
            return Ok(false);
        }
    }
    Ok(true)
}

/// Are these flags a set of the six stages of Vulkan 1.0, or all stages?
pub(crate) fn are_stages(flags: u32) -> bool
    ensures { result ≡ are_stages flags }
{
    flags <= 63 || flags == ALL_STAGES
}

/// Is this the number of one of so many, or of none?
pub(crate) fn is_within(count: usize, number: u32) -> bool
    ensures { result ≡ is_within count number }
{
    (number as usize) < count || number == NONE
}
