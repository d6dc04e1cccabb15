//! What holds of every replay, whatever its workers do and in whatever order their answers come.
ghost use Rattle.replay_core.specs.Laws.{OneVerdict, StartsAfterDependencies, BlamedInHands, RestartsFollowDeaths};

use replay_core::{
    blamed_in_hands, one_verdict, restarts_follow_deaths, starts_after_dependencies,
};

/// Laws of the events of every replay.
pub fn laws_of_replays()
    // An item has at most one verdict.
    ensures one_verdict { OneVerdict }

    // Each item is started only after each of its dependencies was answered with code 0.
    ensures starts { StartsAfterDependencies }

    // It is blamed only at the death of the worker's slot that held it.
    ensures blame { BlamedInHands }

    // A slot is restarted at most as often as it died.
    ensures restarts { RestartsFollowDeaths }
{
    one_verdict();
    starts_after_dependencies();
    blamed_in_hands();
    restarts_follow_deaths();
}
