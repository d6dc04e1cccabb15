ghost use Rattle.std.specs.Prelude.{◌≡◌, ℕ, None, [], replicate};
ghost use Rattle.replay_core.specs.Counting.{is_blamed, is_death, is_missing, is_refused, is_restart, is_retirement, is_success, with_decided, with_event, with_verdict, AreSmall, IsTally};

use crate::event::{Event, Verdict};

/// How much has happened. `done` counts code 0, and `refused` other codes.
#[derive(Clone, Copy, Debug, PartialEq, Eq)]
pub struct Counts {
    pub events: u64,
    pub done: u64,
    pub refused: u64,
    pub blamed: u64,
    pub missing: u64,
    pub deaths: u64,
    pub restarts: u64,
    pub retired: u64,
}

/// The counts before any event.
pub fn counts_at_first() -> Counts
    ensures { (items : ℕ) → IsTally [] (replicate items None) result }
{
    Counts {
        events: 0,
        done: 0,
        refused: 0,
        blamed: 0,
        missing: 0,
        deaths: 0,
        restarts: 0,
        retired: 0,
    }
}

/// The counts after one more event.
pub fn counts_with_event(counts: Counts, event: Event) -> Counts
    requires { AreSmall counts }
    ensures { result ≡ with_event counts event }
{
    let mut new = counts;
    new.events += 1;
    match event {
        Event::Death { slot: _ } => new.deaths += 1,
        Event::Restart { slot: _ } => new.restarts += 1,
        Event::Retire { slot: _ } => new.retired += 1,
        Event::Start { slot: _, item: _ } => (),
        Event::Reply {
            slot: _,
            item: _,
            code: _,
        } => (),
        Event::Miss { item: _, place: _ } => (),
    }
    new
}

/// The counts after one more item was decided.
fn counts_with_verdict(counts: Counts, verdict: Verdict) -> Counts
    requires { AreSmall counts }
    ensures { result ≡ with_verdict counts verdict }
{
    let mut new = counts;
    match verdict {
        Verdict::Done(0) => new.done += 1,
        Verdict::Done(_) => new.refused += 1,
        Verdict::Blamed => new.blamed += 1,
        Verdict::Missing(_) => new.missing += 1,
    }
    new
}

/// The counts after one more item was decided, where one was.
pub fn counts_with_decided(counts: Counts, decided: Option<(u32, Verdict)>) -> Counts
    requires { AreSmall counts }
    ensures { result ≡ with_decided counts decided }
{
    match decided {
        Some((_, verdict)) => counts_with_verdict(counts, verdict),
        None => counts,
    }
}
