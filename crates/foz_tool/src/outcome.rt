//! The end of a command that replays.
ghost use Rattle.std.specs.Prelude.{◌≡◌, IfOk};
ghost use Rattle.replay_core.specs.Runs.{verdict_list};
ghost use Rattle.replay_text.specs.Text.{replay_text};
ghost use Rattle.replay_text.specs.Overall.{overall};
ghost use Rattle.foz_tool.specs.Outcome.{status_of_overall};

use dep_graph::Graph;
use foz_base::Printout;
use foz_entry::Entry;
use foz_words::{NoMemory, Row};
use replay_core::Core;
use replay_text::{Overall, push_replay};
use std::alloc::Global;

/// The status of a replay that left items unanswered.
pub(crate) const UNANSWERED: u8 = 9;

/// The text that tells how each entry came out, with 0 where each is well, 9 where an item is unanswered, else 1.
pub(crate) fn outcome_of(
    alloc: Global,
    entries: &[Entry],
    graph: &Graph,
    core: &Core,
) -> Result<Printout, NoMemory>
    ensures text { IfOk result (λ told. told.text ≡ replay_text entries.now graph.now (verdict_list core.now.setup core.now.events) core.now.events) }
    ensures status { IfOk result (λ told. told.status ≡ status_of_overall (overall graph.now.classes (verdict_list core.now.setup core.now.events))) }
{
    let verdicts = core.verdicts();
    let events = core.events();
    let mut text = Vec::new(alloc);
    let went = push_replay(alloc, &mut text, entries, graph, verdicts, events)?;
    Ok(Printout {
        text: Row::from_vec(text),
        status: status_of(went),
    })
}

fn status_of(went: Overall) -> u8
    ensures { result ≡ status_of_overall went }
{
    match went {
        Overall::Flawless => 0,
        Overall::Flawed => 1,
        Overall::Unanswered => UNANSWERED,
    }
}
