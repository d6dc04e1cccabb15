//! One slot takes item after item.
ghost use Rattle.std.specs.Prelude.{◌≡◌, OnOk};
ghost use Rattle.replay_core.specs.Histories.{at_first, IsPlan};
ghost use Rattle.dep_graph.specs.Graphs.{IsPlanOf};
ghost use Rattle.check_run.specs.Checks.{IsReplay};

use crate::item::answer;
use dep_graph::Graph;
use driver_check::Driver;
use foz_entry::Entry;
use foz_words::NoMemory;
use replay_core::{Core, Next};
use std::alloc::Global;

/// Gives each item to the driver, up to the end.
pub(crate) fn run_items<R: Driver>(
    alloc: Global,
    entries: &[Entry],
    graph: &Graph,
    core: &mut Core,
    driver: &mut R,
) -> Result<(), NoMemory>
    requires plan { IsPlanOf entries.now graph.now }
    requires first { core.old ≡ at_first graph.now.plan 1 }
    ensures { OnOk result (IsReplay R.creates (R.meaning driver.old) entries.now graph.now core.new (R.meaning driver.new)) }
{
    'items: loop {
        match core.next(0) {
            Next::Finished => return Ok(()),
            Next::Idle => unreachable!(),
            Next::Work { item } => {
                let code = answer(alloc, entries, graph, item, driver)?;
                core.reply(0, code);
            }
        }
    }
}
