//! What `check` tells over the shipped driver, as a law of its text.
ghost use Rattle.std.specs.Prelude.{ℕ, List};
ghost use Rattle.foz_entry.specs.declared.cut.Entry.{Entry};
ghost use Rattle.driver_check.specs.Kept.{KeptStates, nothing_kept};
ghost use Rattle.driver_check.specs.Codes.{Creates};
ghost use Rattle.foz_tool.specs.CheckRun.{IsReplayTold};
ghost use Rattle.foz_tool.specs.CheckFates.{TellsFates};

use check_run::verdicts_are_fates_of_codes;

/// Over the shipped driver, where it had kept nothing, the text and the status depend on the states of the entries alone:
/// neither the order of the replay nor what was refused before plays a part.
pub fn checks_tell_fates()
    ensures { (entries : List Entry) (after : KeptStates) (text : List ℕ) (status : ℕ) → IsReplayTold Creates nothing_kept entries after text status → TellsFates entries text status }
{
    verdicts_are_fates_of_codes();
}
