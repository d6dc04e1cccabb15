//! Laws of sessions.
ghost use Rattle.std.specs.Prelude.{◌≡◌, ℕ, List, []};
ghost use Rattle.worker_node.specs.Ends.{IsCutShort, IsEnd};
ghost use Rattle.worker_node.specs.declared.served.Served.{Served};

use driver_check::Driver;

/// The messages of a stream come to one end alone. Where nothing is taken and nothing written, a session was cut short.
pub fn sessions_have_one_end<R: Driver>()
    ensures one_end { (stream left : List ℕ) (end other : Served) → IsEnd stream left end → IsEnd stream left other → end ≡ other }
    ensures unserved { (before : R.Meaning) → IsCutShort R.creates before [] [] before }
{}
