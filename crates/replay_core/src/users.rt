ghost use Rattle.std.specs.Prelude.{length, OnOk, IfOk, All};
ghost use Rattle.replay_core.specs.Plans.{items_of};
ghost use Rattle.replay_core.specs.Histories.{IsInRange, IsPlan};
ghost use Rattle.replay_core.specs.Worklists.{AddsUsers, AreUsers, rows_of};

use crate::plan::{Dep, Plan};
use std::alloc::{AllocError, Global};

/// Adds an item to the users of each item that it depends on.
fn add_users(users: &mut Vec<Vec<u32>>, deps: &[Dep], item: u32) -> Result<(), AllocError>
    requires { All (IsInRange (length users.old.items)) deps.now }
    ensures { OnOk result (AddsUsers (rows_of users.old) (rows_of users.new) deps.now item) }
{
    for dep in deps {
        if let Dep::Item(used) = dep {
            let row = &mut users[*used as usize];
            row.push(item)?;
        }
    }
    Ok(())
}

/// The users of each item: those items that depend on it.
pub fn users_of(alloc: Global, plan: &Plan) -> Result<Vec<Vec<u32>>, AllocError>
    requires { IsPlan plan.now }
    ensures { IfOk result (λ users. AreUsers plan.now (items_of plan.now) (rows_of users)) }
{
    let rows = plan.deps.as_slice();
    let mut users = Vec::new(alloc);
    for _row in rows {
        users.push(Vec::new(alloc))?;
    }
    for (i, row) in rows.iter().enumerate() {
        add_users(&mut users, row.as_slice(), i as u32)?;
    }
    Ok(users)
}
