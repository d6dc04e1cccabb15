//! The whole text.
ghost use Rattle.std.specs.Prelude.{◌≡◌, ◌++◌, OnOk, OnErr, IfOk};
ghost use Rattle.replay_text.specs.Text.{replay_text};
ghost use Rattle.replay_text.specs.Overall.{overall};
ghost use Rattle.report_words.specs.Fronts.{BeginsWith};

use crate::counts::{push_event_counts, push_verdict_counts};
use crate::lines::push_line;
use crate::overall::{Overall, judge};
use dep_graph::Graph;
use foz_entry::Entry;
use foz_words::NoMemory;
use replay_core::{Event, Verdict};
use std::alloc::Global;

/// Adds the text of a replay: its entries, their graph, the verdict of each item and the events. It says how the replay
/// went. An `Err` changes nothing.
pub fn push_replay(
    alloc: Global,
    out: &mut Vec<u8>,
    entries: &[Entry],
    graph: &Graph,
    verdicts: &[Option<Verdict>],
    events: &[Event],
) -> Result<Overall, NoMemory>
    ensures text { OnOk result (out.new.items ≡ out.old.items ++ replay_text entries.now graph.now verdicts.now events.now) }
    ensures overall { IfOk result (λ went. went ≡ overall graph.now.classes verdicts.now) }
    ensures refused { OnErr result (out.new.items ≡ out.old.items) }
{
    let start = out.len();
    match push_all(alloc, out, entries, graph, verdicts, events) {
        Ok(()) => Ok(judge(graph, verdicts)),
        Err(refused) => {
            out.truncate(start);
            Err(refused)
        }
    }
}

/// Adds all lines. An `Err` keeps what was there before, and may leave some of the lines.
fn push_all(
    alloc: Global,
    out: &mut Vec<u8>,
    entries: &[Entry],
    graph: &Graph,
    verdicts: &[Option<Verdict>],
    events: &[Event],
) -> Result<(), NoMemory>
    ensures text { OnOk result (out.new.items ≡ out.old.items ++ replay_text entries.now graph.now verdicts.now events.now) }
    ensures front { OnErr result (BeginsWith out.old.items out.new.items) }
{
    for index in 0..entries.len() {
        push_line(alloc, out, entries, graph, verdicts, index)?;
    }
    push_verdict_counts(alloc, out, verdicts)?;
    push_event_counts(alloc, out, events)?;
    Ok(())
}
