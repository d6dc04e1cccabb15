ghost use Rattle.std.specs.Prelude.{◌≡◌, ◌<◌, ◌≤◌, length, take, All, IfOk};
ghost use Rattle.replay_core.specs.Plans.{items_of};
ghost use Rattle.replay_core.specs.Histories.{IsInRange, IsPlan};
ghost use Rattle.replay_core.specs.Notes.{MarksFounded};
ghost use Rattle.replay_core.specs.Searching.{is_marked_dep, IsMarked, IsSearch, StopsAt, WasLookedAt};
ghost use Rattle.replay_core.specs.Worklists.{rows_of, work_of, AreUsers, ListGrows};

use crate::plan::{Dep, Plan};
use crate::worklist::{Worklist, pass_on, worklist_over};
use std::alloc::{AllocError, Global};

/// The dependency is an item that is marked.
fn is_marked(dep: Dep, marks: &[bool]) -> bool
    requires { IsInRange (length marks.now) dep }
    ensures { result ≡ is_marked_dep marks.now dep }
{
    match dep {
        Dep::Item(item) => marks[item as usize],
        Dep::Absent(_) => false,
    }
}

/// The first place from `from` on that holds no marked item, or the end. Those before `from` are known to be marked.
fn first_unmarked(deps: &[Dep], from: usize, marks: &[bool]) -> usize
    requires from { from ≤ length deps.now }
    requires marked { All (IsMarked marks.now) (take from deps.now) }
    requires in_range { All (IsInRange (length marks.now)) deps.now }
    ensures inside { result ≤ length deps.now }
    ensures marked { All (IsMarked marks.now) (take result deps.now) }
    ensures stops { result < length deps.now → StopsAt marks.now deps.now result }
{
    for place in from..deps.len() {
        if !is_marked(deps[place], marks) {
            return place;
        }
    }
    deps.len()
}

/// Looks at an item: it is marked, or stops at a dependency that is not. An item is marked as it is passed on.
fn look_at(plan: &Plan, list: &mut Worklist, item: u32)
    requires plan { IsPlan plan.now }
    requires fits { IsSearch plan.now list.old }
    requires inside { item < items_of plan.now }
    ensures fits { IsSearch plan.now list.new }
    ensures looked { WasLookedAt plan.now list.new item }
    ensures head { list.new.head ≡ list.old.head }
    ensures fresh { ListGrows list.old list.new }
    ensures work { work_of list.new ≡ work_of list.old }
{
    if list.passed[item as usize] {
        return;
    }
    let rows = plan.deps.as_slice();
    let deps = rows[item as usize].as_slice();
    let from = list.progress[item as usize] as usize;
    let place = first_unmarked(deps, from, list.passed.as_slice());
    if place == deps.len() {
        pass_on(list, item);
        return;
    }
    list.progress[item as usize] = place as u32;
}

/// Searches for the founded items, given the users of each item: they are those that the list has passed on in the end.
pub fn search_founded(
    alloc: Global,
    plan: &Plan,
    users: Vec<Vec<u32>>,
) -> Result<Worklist, AllocError>
    requires plan { IsPlan plan.now }
    requires users { AreUsers plan.now (items_of plan.now) (rows_of users) }
    ensures founded { IfOk result (λ list. MarksFounded plan.now list.passed.items) }
    ensures users { IfOk result (λ list. AreUsers plan.now (items_of plan.now) (rows_of list.users)) }
{
    let mut list = worklist_over(alloc, plan, users)?;
    while list.head < list.fresh.len() {
        let item = list.fresh[list.head];
        look_at(plan, &mut list, item);
        list.head += 1;
    }
    Ok(list)
}
