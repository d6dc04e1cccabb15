// What the workers of a replay are asked with.
ghost use Rattle.std.specs.Prelude.{◌≡◌, ◌≤◌, ◌<◌, length};
ghost use Rattle.replay_core.specs.Plans.{items_of};
ghost use Rattle.worker_msg.specs.Frames.{limit, IsKey};
ghost use Rattle.slot_log.specs.Works.{work_of};
ghost use Rattle.replay_crew.specs.Jobs.{AreJobs, orders_of, work_in};

use dep_graph::{Graph, item_entry};
use foz_entry::Entry;
use replay_core::Plan;

/// The items of a replay: the graph of an archive's entries, and those.
#[derive(Clone, Copy)]
pub struct Jobs<'a> {
    pub graph: &'a Graph,
    pub entries: &'a [Entry],
}

impl<'a> Jobs<'a> {
    pub(crate) fn plan(&self) -> &'a Plan
        ensures { result.now ≡ (orders_of self.now).plan }
    {
        &self.graph.plan
    }

    /// The entry of an item.
    pub(crate) fn entry(&self, item: u32) -> &'a Entry
        requires jobs { AreJobs self.now }
        requires inside { item < items_of (orders_of self.now).plan }
        ensures work { work_in result.now ≡ work_of (orders_of self.now) item }
        ensures short { length result.now.payload ≤ limit }
    {
        item_entry(self.graph, self.entries, item)
    }
}
