//! The entry of an item.
ghost use Rattle.std.specs.Prelude.{◌≡◌, ◌<◌, Some, option_copied, slice_get};
ghost use Rattle.replay_core.specs.Plans.{items_of};
ghost use Rattle.dep_graph.specs.Items.{item_entries};
ghost use Rattle.dep_graph.specs.Graphs.{IsPlanOf, entry_at};

use crate::graph::Graph;
use foz_entry::Entry;

/// The entry of an item of these entries' graph.
pub fn item_entry<'a>(graph: &Graph, entries: &'a [Entry], item: u32) -> &'a Entry
    requires plan { IsPlanOf entries.now graph.now }
    requires inside { item < items_of graph.now.plan }
    ensures { slice_get (item_entries entries.now graph.now.classes) item ≡ Some result.now }
{
    match find_entry(graph, entries, item) {
        Some(entry) => entry,
        None => unreachable!(),
    }
}

/// The entry that a graph names for an item. It is `None` exactly where the graph has no such item, or no entry stands at
/// its place.
pub fn find_entry<'a>(graph: &Graph, entries: &'a [Entry], item: u32) -> Option<&'a Entry>
    ensures { option_copied result ≡ entry_at entries.now graph.now item }
{
    match graph.items.as_slice().get(item as usize) {
        Some(place) => entries.get(*place as usize),
        None => None,
    }
}
