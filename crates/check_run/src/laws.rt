//! What becomes of the items of an archive over the shipped driver.
ghost use Rattle.check_run.specs.Fated.{ItemsHaveStates, VerdictsAreFatesOfCodes};

use driver_check::code_by_references;
use foz_payload::one_meaning;
use record_words::keys_are_compared;
use replay_core::{starts_after_dependencies, verdicts_are_fates};

/// Over the shipped driver, where it had kept nothing, the verdicts of a replay in this process depend on the states alone.
pub fn verdicts_are_fates_of_codes()
    ensures states { ItemsHaveStates }
    ensures fates { VerdictsAreFatesOfCodes }
{
    one_meaning();
    code_by_references();
    keys_are_compared();
    starts_after_dependencies();
    verdicts_are_fates();
}
