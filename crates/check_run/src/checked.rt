ghost use Rattle.std.specs.Prelude.{◌≤◌, length, All, IfOk};
ghost use Rattle.foz_entry.specs.declared.cut.Entry.{Entry};
ghost use Rattle.foz_entry.specs.Limits.{count_limit};
ghost use Rattle.dep_graph.specs.Items.{HasItsSize};
ghost use Rattle.check_run.specs.Checks.{IsCheck};

use crate::run::run_items;
use dep_graph::{Graph, plan_of};
use driver_check::Driver;
use foz_entry::Entry;
use foz_words::NoMemory;
use replay_core::Core;
use std::alloc::Global;

/// An archive's graph, and the scheduler at the end of its replay.
#[derive(Debug, Drop)]
pub struct Checked {
    pub graph: Graph,
    pub core: Core,
}

/// Replays the items of an archive's entries, of which there are at most 1,048,576: each is given to the driver once what it
/// depends on succeeded.
pub fn check_entries<R: Driver>(
    alloc: Global,
    entries: &[Entry],
    driver: &mut R,
) -> Result<Checked, NoMemory>
    requires few { length entries.now ≤ count_limit }
    requires sized { All HasItsSize entries.now }
    ensures { IfOk result (λ checked. IsCheck R.creates (R.meaning driver.old) entries.now checked.graph checked.core (R.meaning driver.new)) }
{
    let graph = plan_of(alloc, entries)?;
    let plan = graph.plan.copy(alloc)?;
    let mut core = Core::new(alloc, plan, 1)?;
    run_items(alloc, entries, &graph, &mut core, driver)?;
    Ok(Checked { graph, core })
}
