//! The scheduler of a replay: a pure machine over starts, replies, deaths and restarts.
#![tactic(auto)]

mod answer;
mod counts;
mod event;
mod founded;
mod laws;
mod notes;
mod plan;
mod prospect;
mod queues;
mod record;
mod scheduler;
mod turn;
mod users;
mod worklist;

pub use answer::Next;
pub use counts::Counts;
pub use event::{Event, SlotState, Verdict};
pub use laws::{
    blamed_in_hands, decided_stays, fates_are_unique, fates_exist, founded_is_least, one_verdict,
    ranks_fall, restarts_follow_deaths, same_outcomes_same_verdicts, same_replies_same_verdicts,
    slot_events, starts_after_dependencies, stuck_is_done, verdicts_are_fates,
};
pub use plan::{Dep, Plan};
pub use scheduler::Core;

#[cfg(test)]
mod tests;
