//! What a replay over workers leaves unanswered.
ghost use Rattle.replay_run.specs.Replays.{UnansweredByFailedStarts};

/// Where an item is left undecided, each slot was given up over a start that failed.
pub fn unanswered_by_failed_starts()
    ensures { UnansweredByFailedStarts }
{}
