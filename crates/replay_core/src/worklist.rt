//! The list of items that are to be looked at.
ghost use Rattle.std.specs.Prelude.{◌≡◌, ◌<◌, ◌≤◌, ◌+◌, ◌^◌, ◌++◌, [], false, true, length, slice_index_or, slice_set, sum_by, IfOk, vec_capacity};
ghost use Rattle.replay_core.specs.Plans.{items_of};
ghost use Rattle.replay_core.specs.Histories.{IsPlan};
ghost use Rattle.replay_core.specs.Worklists.{rows_of, work_of, AreUsers, IsFirstList, IsUpTo, ListGrows};

use crate::plan::Plan;
use std::alloc::{AllocError, Global};

/// Which items are to be looked at. An item is looked at once at first, and again when what it stopped at is passed on, and each
/// look goes on where the last one stopped: so all looks together are linear in the plan, whatever the order of items.
#[derive(Debug, Drop)]
pub struct Worklist {
    /// For each item those that depend on it. They stay as they are.
    pub users: Vec<Vec<u32>>,
    /// The items whose users were put on the list.
    pub passed: Vec<bool>,
    /// For each item how many of its dependencies are known to be met.
    pub progress: Vec<u32>,
    /// The items to look at, of which the first `head` were looked at.
    pub fresh: Vec<u32>,
    pub head: usize,
}

/// How many users there are in all.
fn total_len(users: &[Vec<u32>]) -> usize
    requires { sum_by (λ v. length v.items) users.now < 2 ^ 60 }
    ensures { result ≡ sum_by (λ v. length v.items) users.now }
{
    let mut total = 0;
    for row in users {
        total += row.len();
    }
    total
}

/// All items, in a list that has room for more of them.
fn all_items(alloc: Global, items: u32, room: usize) -> Result<Vec<u32>, AllocError>
    requires { items + room < 2 ^ 62 }
    ensures room { IfOk result (λ v. items + room ≤ vec_capacity v) }
    ensures items { IfOk result (λ v. IsUpTo items v.items) }
{
    let mut all = Vec::with_capacity(alloc, items as usize + room)?;
    for item in 0..items {
        all.push(item)?;
    }
    Ok(all)
}

/// The list before any look, with room for all that can come into it.
pub fn worklist_over(
    alloc: Global,
    plan: &Plan,
    users: Vec<Vec<u32>>,
) -> Result<Worklist, AllocError>
    requires plan { IsPlan plan.now }
    requires users { AreUsers plan.now (items_of plan.now) (rows_of users) }
    ensures { IfOk result (IsFirstList plan.now) }
{
    let items = plan.deps.len();
    let room = total_len(users.as_slice());
    let passed = vec![in alloc; false; items]?;
    let progress = vec![in alloc; 0; items]?;
    let fresh = all_items(alloc, items as u32, room)?;
    Ok(Worklist {
        users,
        passed,
        progress,
        fresh,
        head: 0,
    })
}

/// Adds items to a list that has room for them.
fn extend_within(list: &mut Vec<u32>, items: &[u32])
    requires { length list.old.items + length items.now ≤ vec_capacity list.old }
    ensures items { list.new.items ≡ list.old.items ++ items.now }
    ensures capacity { vec_capacity list.old ≤ vec_capacity list.new }
{
    match list.extend_from_slice(items) {
        Ok(()) => (),
        Err(_) => unreachable!(),
    }
}

/// The item is passed on: those that depend on it are to be looked at.
pub fn pass_on(list: &mut Worklist, item: u32)
    requires inside { item < length (rows_of list.old.users) }
    requires known { item < length list.old.passed.items }
    requires once { slice_index_or list.old.passed.items item false ≡ false }
    requires room { work_of list.old ≤ vec_capacity list.old.fresh }
    ensures passed { list.new.passed.items ≡ slice_set list.old.passed.items item true }
    ensures fresh { list.new.fresh.items ≡ list.old.fresh.items ++ slice_index_or (rows_of list.old.users) item [] }
    ensures room { vec_capacity list.old.fresh ≤ vec_capacity list.new.fresh }
    ensures rest { list.new ≡ record list.old { passed = list.new.passed; fresh = list.new.fresh } }
    ensures head { list.new.head ≡ list.old.head }
    ensures grows { ListGrows list.old list.new }
    ensures work { work_of list.new ≡ work_of list.old }
{
    list.passed[item as usize] = true;
    let users = list.users[item as usize].as_slice();
    extend_within(&mut list.fresh, users);
}
