//! What holds of how a replay went.
ghost use Rattle.replay_text.specs.Overall.{DecidedIsAnswered};

/// A replay that decides each item leaves none unanswered.
pub fn decided_is_answered()
    ensures { DecidedIsAnswered }
{}
