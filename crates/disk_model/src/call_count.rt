// The calls of an object in memory, some of which are to fail.
ghost use Rattle.std.specs.Prelude.{◌≡◌, ◌≤◌, IsTrue, ◌↔◌};
ghost use Rattle.disk_model.specs.Faults.{Rose};
ghost use Rattle.disk_model.specs.Plans.{IsListed, next_number};

use crate::Failed;

/// An object in memory that fails where it was told to, and nowhere else.
pub trait Planned {
    ghost Plan: { Type 0 };

    /// What it was made with, and how far it has come.
    ghost plan: { Self → Plan };
}

#[derive(Drop)]
pub(crate) struct CallCount {
    made: u64,
    failing: Vec<u64>,
    faults: u64,
}

impl CallCount {
    /// No call is made yet. Those with the listed numbers are to fail, counted from 0.
    pub(crate) fn new(failing: Vec<u64>) -> CallCount
        ensures made { result.made ≡ 0 }
        ensures failing { result.failing ≡ failing }
        ensures faults { result.faults ≡ 0 }
    {
        CallCount {
            made: 0,
            failing,
            faults: 0,
        }
    }

    /// Counts a call, and tells whether it is to fail.
    pub(crate) fn fails_next(&mut self) -> bool
        ensures exact { IsTrue result ↔ IsListed self.old.failing.items self.old.made }
        ensures counted { self.new.made ≡ next_number self.old.made }
        ensures failing { self.new.failing ≡ self.old.failing }
        ensures faults { self.new.faults ≡ self.old.faults }
    {
        let fails = self.failing.contains(&self.made);
        self.made = self.made.saturating_add(1);
        fails
    }

    /// Counts a failure of the last call.
    pub(crate) fn fail(&mut self) -> Failed
        ensures made { self.new.made ≡ self.old.made }
        ensures failing { self.new.failing ≡ self.old.failing }
        ensures later { self.old.faults ≤ self.new.faults }
        ensures rose { Rose self.old.faults self.new.faults }
    {
        self.faults = self.faults.saturating_add(1);
        Failed
    }
}
