//! One item is given to the driver.
ghost use Rattle.std.specs.Prelude.{◌<◌, IfOk};
ghost use Rattle.replay_core.specs.Plans.{items_of};
ghost use Rattle.dep_graph.specs.Graphs.{IsPlanOf};
ghost use Rattle.check_run.specs.Checks.{IsAnswered};

use dep_graph::{Graph, item_entry};
use driver_check::Driver;
use foz_entry::Entry;
use foz_payload::state_of;
use foz_words::NoMemory;
use std::alloc::Global;
use std::mem::drop;

/// The driver's code for the state of an item.
pub(crate) fn answer<R: Driver>(
    alloc: Global,
    entries: &[Entry],
    graph: &Graph,
    item: u32,
    driver: &mut R,
) -> Result<u32, NoMemory>
    requires plan { IsPlanOf entries.now graph.now }
    requires inside { item < items_of graph.now.plan }
    ensures { IfOk result (λ code. IsAnswered R.creates (R.meaning driver.old) entries.now graph.now.classes item code (R.meaning driver.new)) }
{
    let entry = item_entry(graph, entries, item);
    let key = entry.head.key;
    match state_of(alloc, key, entry.payload.as_slice()) {
        Ok(state) => driver.create(alloc, key, state),
        // An item's payload can be read, so memory ran out.
        Err(cause) => {
            drop(cause);
            Err(NoMemory)
        }
    }
}
