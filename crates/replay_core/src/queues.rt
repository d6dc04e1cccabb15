ghost use Rattle.std.specs.Prelude.{ℕ, IfOk};
ghost use Rattle.replay_core.specs.Plans.{items_of};
ghost use Rattle.replay_core.specs.Histories.{at_first, IsPlan};
ghost use Rattle.replay_core.specs.Queues.{QueuesKept};
ghost use Rattle.replay_core.specs.Worklists.{AreUsers, rows_of};

use crate::plan::Plan;
use crate::worklist::{Worklist, worklist_over};
use std::alloc::{AllocError, Global};

/// Which items are to be looked at, and which are ready, so that no call searches through all items.
#[derive(Debug, Drop)]
pub struct Queues {
    /// Decided items are passed on.
    pub list: Worklist,
    /// The items that were found ready.
    pub queued: Vec<bool>,
    /// They in their order, of which the first `taken` were tried.
    pub ready: Vec<u32>,
    pub taken: usize,
}

/// The queues before any event, over the users of each item.
pub fn queues_at_first(
    alloc: Global,
    plan: &Plan,
    users: Vec<Vec<u32>>,
) -> Result<Queues, AllocError>
    requires plan { IsPlan plan.now }
    requires users { AreUsers plan.now (items_of plan.now) (rows_of users) }
    ensures { (slots : ℕ) → IfOk result (QueuesKept (at_first plan.now slots)) }
{
    let items = plan.deps.len();
    let list = worklist_over(alloc, plan, users)?;
    let queued = vec![in alloc; false; items]?;
    let ready = Vec::with_capacity(alloc, items)?;
    Ok(Queues {
        list,
        queued,
        ready,
        taken: 0,
    })
}
