//! The lines that count verdicts and events.
ghost use Rattle.std.specs.Prelude.{◌≡◌, ◌++◌, OnOk, OnErr, count_by, is_none};
ghost use Rattle.replay_core.specs.Counting.{is_success, is_refused, is_blamed, is_missing, is_death, is_restart, is_retirement};
ghost use Rattle.replay_text.specs.Counted.{verdict_counts, event_counts};

use foz_words::NoMemory;
use replay_core::{Event, Verdict};
use std::alloc::Global;

fn is_success(verdict: Option<Verdict>) -> bool
    ensures { result ≡ is_success verdict }
{
    match verdict {
        Some(Verdict::Done(code)) => code == 0,
        _ => false,
    }
}

fn is_refused(verdict: Option<Verdict>) -> bool
    ensures { result ≡ is_refused verdict }
{
    match verdict {
        Some(Verdict::Done(code)) => code != 0,
        _ => false,
    }
}

fn done_among(verdicts: &[Option<Verdict>]) -> usize
    ensures { result ≡ count_by is_success verdicts.now }
{
    verdicts.iter().filter(|one| is_success(**one)).count()
}

fn refused_among(verdicts: &[Option<Verdict>]) -> usize
    ensures { result ≡ count_by is_refused verdicts.now }
{
    verdicts.iter().filter(|one| is_refused(**one)).count()
}

fn blamed_among(verdicts: &[Option<Verdict>]) -> usize
    ensures { result ≡ count_by is_blamed verdicts.now }
{
    verdicts
        .iter()
        .filter(|one| matches!(one, Some(Verdict::Blamed)))
        .count()
}

fn missing_among(verdicts: &[Option<Verdict>]) -> usize
    ensures { result ≡ count_by is_missing verdicts.now }
{
    verdicts
        .iter()
        .filter(|one| matches!(one, Some(Verdict::Missing(_))))
        .count()
}

pub(crate) fn unanswered_among(verdicts: &[Option<Verdict>]) -> usize
    ensures { result ≡ count_by is_none verdicts.now }
{
    verdicts.iter().filter(|one| one.is_none()).count()
}

fn deaths_among(events: &[Event]) -> usize
    ensures { result ≡ count_by is_death events.now }
{
    events
        .iter()
        .filter(|one| matches!(one, Event::Death { .. }))
        .count()
}

fn restarts_among(events: &[Event]) -> usize
    ensures { result ≡ count_by is_restart events.now }
{
    events
        .iter()
        .filter(|one| matches!(one, Event::Restart { .. }))
        .count()
}

fn retired_among(events: &[Event]) -> usize
    ensures { result ≡ count_by is_retirement events.now }
{
    events
        .iter()
        .filter(|one| matches!(one, Event::Retire { .. }))
        .count()
}

/// Adds the line that counts the verdicts. An `Err` changes nothing.
pub(crate) fn push_verdict_counts(
    alloc: Global,
    out: &mut Vec<u8>,
    verdicts: &[Option<Verdict>],
) -> Result<(), NoMemory>
    ensures line { OnOk result (out.new.items ≡ out.old.items ++ verdict_counts verdicts.now) }
    ensures refused { OnErr result (out.new.items ≡ out.old.items) }
{
    let items = verdicts.len();
    let done = done_among(verdicts);
    let refused = refused_among(verdicts);
    let blamed = blamed_among(verdicts);
    let missing = missing_among(verdicts);
    let unanswered = unanswered_among(verdicts);
    let text = format!(in alloc;
        "items {items} done {done} refused {refused} blamed {blamed} missing {missing} unanswered {unanswered}\n"
    )?;
    out.extend_from_slice(text.as_bytes())?;
    Ok(())
}

/// Adds the line that counts the events of workers. An `Err` changes nothing.
pub(crate) fn push_event_counts(
    alloc: Global,
    out: &mut Vec<u8>,
    events: &[Event],
) -> Result<(), NoMemory>
    ensures line { OnOk result (out.new.items ≡ out.old.items ++ event_counts events.now) }
    ensures refused { OnErr result (out.new.items ≡ out.old.items) }
{
    let deaths = deaths_among(events);
    let restarts = restarts_among(events);
    let retired = retired_among(events);
    let text = format!(in alloc; "deaths {deaths} restarts {restarts} retired {retired}\n")?;
    out.extend_from_slice(text.as_bytes())?;
    Ok(())
}
