//! What a log that tells a slot's events has in it.
ghost use Rattle.slot_log.specs.Laws.{StartsAreTold, RepliesAreTold};

/// Each start and each failed start of a worker stands in the log.
pub fn told_starts()
    ensures { StartsAreTold }
{}

/// Each reply stands in the log, after the Do that it answers.
pub fn told_replies()
    ensures { RepliesAreTold }
{}
