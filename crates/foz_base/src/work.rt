//! What is done to a file that is written.
ghost use Rattle.std.specs.Prelude.{◌≡◌, ◌≤◌, ℕ, List, Result, IfOk, IfErr, IsOk};
ghost use Rattle.disk_model.specs.Disk.{History, NothingPending, latest};
ghost use Rattle.disk_model.specs.Faults.{Rose};
ghost use Rattle.foz_base.specs.declared.stop.Stop.{Stop};
ghost use Rattle.foz_base.specs.FileWork.{WriteCauses};

use crate::stop::Stop;
use disk_model::Disk;
use std::alloc::Global;

/// A disk after a work, and what came of it.
#[derive(Drop)]
pub struct Worked<D, T> {
    pub disk: D,
    pub outcome: Result<T, Stop>,
}

/// A work on the disk of a file. Whatever happens, it hands the disk back.
pub trait Work {
    type Done: Drop;

    /// It may be begun.
    ghost ready: { Self → Type 0 };

    /// What it makes of a content, and how it ends.
    ghost does: { Self → List ℕ → List ℕ → Result Self.Done Stop → Type 0 };

    /// What is known of its result whatever the disk tells.
    ghost tells: { Self → Self.Done → Type 0 };

    /// What a crash leaves of a content on which nothing was pending, at any moment from the one history to the other.
    ghost leaves: { Self → List ℕ → History → History → Type 0 };

    fn work_on<D: Disk + Drop + Send>(self, alloc: Global, disk: D) -> Worked<D, Self::Done>
        requires ready { ready self }
        ensures does { D.tells_content → does self (D.content disk) (D.content result.disk) result.outcome }
        ensures leaves { D.tells_images → NothingPending (latest (D.history disk)) → leaves self (D.content disk) (D.history disk) (D.history result.disk) }
        ensures tells { IfOk result.outcome (tells self) }
        ensures durable { D.tells_images → IsOk result.outcome → NothingPending (latest (D.history result.disk)) }
        ensures causes { IfErr result.outcome (WriteCauses (Rose (D.faults disk) (D.faults result.disk))) }
        ensures later { D.faults disk ≤ D.faults result.disk };
}
