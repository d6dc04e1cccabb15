ghost use Rattle.std.specs.Prelude.{◌≡◌, ◌<◌, ◌≤◌, ◌^◌, take, ◌↔◌, length, All, IsTrue};
ghost use Rattle.replay_core.specs.Histories.{IsInRange};
ghost use Rattle.replay_core.specs.Notes.{MetIn, LostIn, ProspectIn};

use crate::event::Verdict;
use crate::plan::Dep;

/// What can become of an item that waits.
#[derive(Clone, Copy, Debug)]
pub enum Prospect {
    /// It can start.
    Ready,
    /// It cannot start any more, for the dependency at this place.
    Lost(u32),
    /// It depends on what is still undecided, first at this place.
    Pending(u32),
}

/// The dependency is an item that succeeded.
fn is_met(dep: Dep, verdicts: &[Option<Verdict>]) -> bool
    requires { IsInRange (length verdicts.now) dep }
    ensures { IsTrue result ↔ MetIn verdicts.now dep }
{
    match dep {
        Dep::Item(item) => verdicts[item as usize] == Some(Verdict::Done(0)),
        Dep::Absent(_) => false,
    }
}

/// A dependency that is not met never will be.
fn is_lost(dep: Dep, verdicts: &[Option<Verdict>], founded: &[bool]) -> bool
    requires verdicts { IsInRange (length verdicts.now) dep }
    requires founded { IsInRange (length founded.now) dep }
    ensures { IsTrue result ↔ LostIn founded.now verdicts.now dep }
{
    match dep {
        Dep::Item(item) => !founded[item as usize] || verdicts[item as usize].is_some(),
        Dep::Absent(_) => true,
    }
}

/// Looks at an item's dependencies from a place on, up to the first that is not met.
pub fn prospect_of(
    deps: &[Dep],
    from: usize,
    verdicts: &[Option<Verdict>],
    founded: &[bool],
) -> Prospect
    requires short { length deps.now < 2 ^ 30 }
    requires from { from ≤ length deps.now }
    requires met { All (MetIn verdicts.now) (take from deps.now) }
    requires verdicts { All (IsInRange (length verdicts.now)) deps.now }
    requires founded { All (IsInRange (length founded.now)) deps.now }
    ensures { ProspectIn founded.now verdicts.now deps.now result }
{
    for place in from..deps.len() {
        let dep = deps[place];
        if !is_met(dep, verdicts) {
            return if is_lost(dep, verdicts, founded) {
                Prospect::Lost(place as u32)
            } else {
                Prospect::Pending(place as u32)
            };
        }
    }
    Prospect::Ready
}
