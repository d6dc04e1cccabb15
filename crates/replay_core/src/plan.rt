ghost use Rattle.std.specs.Prelude.{◌≡◌, ◌↔◌, IsTrue, IfOk};
ghost use Rattle.replay_core.specs.Histories.{IsInRange, IsPlan, IsShortRow};

use foz_words::{Key, NoMemory, Row};
use std::alloc::Global;

/// What an item depends on: another item of the plan, or a key that no item has.
#[derive(Clone, Copy, Debug, PartialEq, Eq)]
pub enum Dep {
    Item(u32),
    Absent(Key),
}

/// The dependencies of each item, in field order.
#[derive(Debug, Drop)]
pub struct Plan {
    pub deps: Row<Row<Dep>>,
}

/// The dependency is absent or one of so many items.
fn is_in_range(dep: Dep, items: usize) -> bool
    ensures { IsTrue result ↔ IsInRange items dep }
{
    match dep {
        Dep::Item(item) => (item as usize) < items,
        Dep::Absent(_) => true,
    }
}

/// A list of dependencies is within the limits.
fn row_fits(deps: &[Dep], items: usize) -> bool
    ensures { IsTrue result ↔ IsShortRow items deps.now }
{
    deps.len() < 1 << 30 && deps.iter().all(|dep| is_in_range(*dep, items))
}

impl Plan {
    /// The plan is within the limits of a scheduler: at most 1,048,576 items, fewer than 2^30 dependencies
    /// each, and no dependency past the items.
    pub fn fits(&self) -> bool
        ensures { IsTrue result ↔ IsPlan self.now }
    {
        let rows = self.deps.as_slice();
        let items = rows.len();
        items <= 1_048_576 && rows.iter().all(|row| row_fits(row.as_slice(), items))
    }

    /// The same plan once more.
    pub fn copy(&self, alloc: Global) -> Result<Plan, NoMemory>
        ensures { IfOk result (λ copied. copied ≡ self.now) }
    {
        let rows = self.deps.as_slice();
        let mut deps = Vec::with_capacity(alloc, rows.len())?;
        for row in rows {
            deps.push(row.copy(alloc)?)?;
        }
        Ok(Plan {
            deps: Row::from_vec(deps),
        })
    }
}
