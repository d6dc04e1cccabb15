ghost use Rattle.std.specs.Prelude.{◌≡◌, ◌≤◌, List, length, map, All, IfOk};
ghost use Rattle.foz_entry.specs.declared.cut.Entry.{Entry};
ghost use Rattle.indexmap.specs.IndexMap.{get};
ghost use Rattle.foz_entry.specs.Limits.{count_limit};
ghost use Rattle.record_words.specs.Index.{IsIndexOf};
ghost use Rattle.replay_core.specs.Histories.{IsPlan};
ghost use Rattle.dep_graph.specs.Items.{HasItsSize};
ghost use Rattle.dep_graph.specs.Graphs.{IsGraphOf};
ghost use Rattle.dep_graph.specs.Surveys.{deps_held};

use crate::class::Class;
use crate::survey::{Survey, survey_of};
use foz_entry::Entry;
use foz_words::{Key, NoMemory, Row};
use replay_core::{Dep, Plan};
use std::alloc::Global;

/// The dependency graph of an archive's entries.
#[derive(Debug, Drop)]
pub struct Graph {
    /// What each item depends on.
    pub plan: Plan,
    /// The place of each item among the entries.
    pub items: Row<u32>,
    /// The class of each entry.
    pub classes: Row<Class>,
}

/// The graph of an archive's entries, of which there are at most 1,048,576: no archive that is read has more.
pub fn plan_of(alloc: Global, entries: &[Entry]) -> Result<Graph, NoMemory>
    requires few { length entries.now ≤ count_limit }
    ensures graph { IfOk result (IsGraphOf entries.now) }

    // A scheduler takes the plan. In entries that were read from a file each payload has its size; without that a payload could
    // name more items than a row of a plan may have.
    ensures plan { IfOk result (λ graph. All HasItsSize entries.now → IsPlan graph.plan) }
{
    let survey = survey_of(alloc, entries)?;
    let deps = all_deps(alloc, &survey)?;
    Ok(Graph {
        plan: Plan { deps },
        items: survey.items,
        classes: survey.classes,
    })
}

/// What each item depends on.
fn all_deps(alloc: Global, survey: &Survey) -> Result<Row<Row<Dep>>, NoMemory>
    ensures { (entries : List Entry) → IsIndexOf (get ⟦<Key as PartialEq>⟧.eq survey.now.index) entries → IfOk result (λ deps. deps ≡ map (deps_held entries survey.now.classes) survey.now.refs) }
{
    let rows = survey.refs.as_slice();
    let mut deps = Vec::with_capacity(alloc, rows.len())?;
    for refs in rows {
        deps.push(survey.deps_on(alloc, refs.as_slice())?)?;
    }
    Ok(Row::from_vec(deps))
}
