//! How a replay went as a whole.
ghost use Rattle.std.specs.Prelude.{◌≡◌};
ghost use Rattle.std.specs.List.{list_all};
ghost use Rattle.replay_text.specs.Overall.{is_well, overall};

use crate::counts::unanswered_among;
use crate::lines::verdict_in;
use dep_graph::{Class, Graph};
use replay_core::Verdict;

/// How a replay went.
#[derive(Clone, Copy, Debug, PartialEq, Eq)]
pub enum Overall {
    /// Each line says `done` or `kept`.
    Flawless,
    /// Each item has a verdict, and some line says neither `done` nor `kept`.
    Flawed,
    /// Some item has no verdict.
    Unanswered,
}

/// The line of an entry of this class says `done` or `kept`.
fn is_well(verdicts: &[Option<Verdict>], class: &Class) -> bool
    ensures { result ≡ is_well verdicts.now class.now }
{
    match class {
        Class::Kept => true,
        Class::Item { number } => matches!(verdict_in(verdicts, *number), Some(Verdict::Done(0))),
        Class::Damaged(_) | Class::Duplicate { .. } | Class::Unreadable(_) => false,
    }
}

/// Each line of entries of these classes says `done` or `kept`.
fn are_all_well(verdicts: &[Option<Verdict>], classes: &[Class]) -> bool
    ensures { result ≡ list_all (is_well verdicts.now) classes.now }
{
    classes.iter().all(|class| is_well(verdicts, class))
}

/// How a replay of these classes with these verdicts went.
#[tactic(auto, unfolding(crate::specs::Overall::overall))]
pub(crate) fn judge(graph: &Graph, verdicts: &[Option<Verdict>]) -> Overall
    ensures { result ≡ overall graph.now.classes verdicts.now }
{
    if unanswered_among(verdicts) != 0 {
        return Overall::Unanswered;
    }
    if are_all_well(verdicts, graph.classes.as_slice()) {
        Overall::Flawless
    } else {
        Overall::Flawed
    }
}
