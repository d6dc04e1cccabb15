ghost use Rattle.std.specs.Prelude.{◌≡◌, ◌<◌, ◌≤◌, false, length, map, All, IfOk, IfErr};
ghost use Rattle.foz_entry.specs.Limits.{count_limit};
ghost use Rattle.replay_core.specs.Histories.{IsPlan};
ghost use Rattle.replay_core.specs.Runs.{setup_of, IsRun};
ghost use Rattle.dep_graph.specs.Graphs.{IsGraphOf};
ghost use Rattle.dep_graph.specs.Items.{HasItsSize};
ghost use Rattle.crew_run.specs.Crews.{ArePlayed};
ghost use Rattle.replay_run.specs.Replays.{IsCrewReplay, orders_in};

use crew_run::run_all;
use dep_graph::{Graph, plan_of};
use foz_entry::Entry;
use foz_words::NoMemory;
use replay_core::Core;
use replay_crew::Jobs;
use slot_log::Slot;
use std::alloc::Global;
use std::sync::Wait;
use std::thread::Threads;

/// An archive's graph, and the scheduler at the end of its replay.
#[derive(Debug, Drop)]
pub struct Replayed {
    pub graph: Graph,
    pub core: Core,
}

/// Replays the items of a graph by workers in these slots. Gives the scheduler with what really happened.
fn play<S: Slot + Send, X: Wait + Threads + Sync>(
    rt: &X,
    alloc: Global,
    entries: &[Entry],
    graph: &Graph,
    slots: &mut [S],
) -> Result<Core, NoMemory>
    requires graph { IsGraphOf entries.now graph.now }
    requires plan { IsPlan graph.now.plan }
    requires sized { All HasItsSize entries.now }
    requires some_slot { 0 < length slots.old }
    requires few_slots { length slots.old ≤ 16 }
    requires at_rest { All (λ slot. S.running slot ≡ false) slots.old }

    ensures setup { IfOk result (λ core. core.setup ≡ setup_of graph.now.plan (length slots.old)) }
    ensures run { IfOk result (λ core. IsRun core.setup core.events) }
    ensures played { IfOk result (λ core. ArePlayed (λ slot. record { log = S.log slot; start_faults = S.start_faults slot; running = S.running slot }) (orders_in entries.now graph.now) core slots.old slots.new) }
    ensures untouched { IfErr result (λ _. slots.new ≡ slots.old) }
{
    let plan = graph.plan.copy(alloc)?;
    let core = Core::new(alloc, plan, slots.len() as u32)?;
    let jobs = Jobs { graph, entries };
    match run_all(rt, alloc, core, slots, &jobs) {
        Ok(core) => Ok(core),
        Err(_) => Err(NoMemory),
    }
}

/// Replays the items of an archive's entries, of which there are at most 1,048,576, by workers in these slots: each is
/// given to a worker once what it depends on succeeded. Where memory lacks, no worker was started.
pub fn replay_entries<S: Slot + Send, X: Wait + Threads + Sync>(
    rt: &X,
    alloc: Global,
    entries: &[Entry],
    slots: &mut [S],
) -> Result<Replayed, NoMemory>
    requires few { length entries.now ≤ count_limit }
    requires sized { All HasItsSize entries.now }
    requires some_slot { 0 < length slots.old }
    requires few_slots { length slots.old ≤ 16 }
    requires at_rest { All (λ slot. S.running slot ≡ false) slots.old }

    ensures replayed { let seen = map (λ slot. record { log = S.log slot; start_faults = S.start_faults slot; running = S.running slot }) in
        IfOk result (λ replayed. IsCrewReplay entries.now (seen slots.old) (seen slots.new) replayed.graph replayed.core) }
    ensures at_rest { IfOk result (λ _. All (λ slot. S.running slot ≡ false) slots.new) }
    ensures untouched { IfErr result (λ _. slots.new ≡ slots.old) }
{
    let graph = plan_of(alloc, entries)?;
    let core = play(rt, alloc, entries, &graph, slots)?;
    Ok(Replayed { graph, core })
}
