// Files by their names.
ghost use Rattle.std.specs.Prelude.{◌≡◌, ◌≢◌, ◌⊎◌, ◌≤◌, ◌↔◌, List, ℕ, IfOk, OnErr};
ghost use Rattle.disk_model.specs.Disk.{IsMade};
ghost use Rattle.disk_model.specs.Faults.{Rose};
ghost use Rattle.disk_model.specs.Place.{Place, missing, stored, out, with_place};

use crate::Disk;
use std::alloc::{AllocError, Global};

/// What a file is taken for.
#[derive(Clone, Copy, Debug, PartialEq, Eq)]
pub enum Mode {
    Read,
    Write,
}

/// Why a file could not be taken.
#[derive(Clone, Copy, Debug, PartialEq, Eq)]
pub enum TakeError {
    /// There is no file of this name to read.
    Absent,
    Failed,
    Memory,
}

impl From<AllocError> for TakeError {
    ghost use Rattle.disk_model.specs.declared.shelf.TakeError.TheVariants.{Memory};

    ghost from_gives = { λ _ error. error ≡ Memory };

    fn from(_refused: AllocError) -> TakeError {
        TakeError::Memory
    }
}

/// Files by their names. A file that is taken is out until it is put back.
pub trait Shelf {
    type Held: Disk + Drop + Send;

    /// Where this holds, the shelf tells what stands under each name.
    ghost tells: { Type 0 };

    /// What stands under each name.
    ghost places: { Self → List ℕ → Place Self.Held };

    /// How often it has failed. A fault of a file that it gave out is none of its own.
    ghost faults: { Self → ℕ };

    /// Gives the file of a name. To write it, an empty one is made where there is none.
    fn take(&mut self, alloc: Global, name: &str, mode: Mode) -> Result<Self::Held, TakeError>
        requires here { tells → places self.old name.now ≢ out }
        ensures taken { tells → IfOk result (λ disk. (places self.old name.now ≡ stored disk)
            ⊎ ((mode ≡ Mode.Write) × (places self.old name.now ≡ missing)
            × IsMade Self.Held.tells_content Self.Held.tells_images (Self.Held.content disk) (Self.Held.history disk) (Self.Held.faults disk))) }
        ensures now_out { tells → IfOk result (λ disk. places self.new ≡ with_place (places self.old) name.now out) }
        ensures absent { tells → ((result ≡ Err TakeError.Absent) ↔ ((mode ≡ Mode.Read) × (places self.old name.now ≡ missing))) }
        ensures left { tells → OnErr result (places self.new ≡ places self.old) }
        ensures later { faults self.old ≤ faults self.new }
        ensures failed { result ≡ Err TakeError.Failed → Rose (faults self.old) (faults self.new) };

    /// Takes back a file that was given under this name.
    fn put_back(&mut self, name: &str, disk: Self::Held)
        requires was_out { tells → places self.old name.now ≡ out }
        ensures back { tells → places self.new ≡ with_place (places self.old) name.now (stored disk) }
        ensures later { faults self.old ≤ faults self.new };
}
