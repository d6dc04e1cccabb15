// A shelf in memory.
ghost use Rattle.std.specs.Prelude.{◌≡◌, ◌≢◌, ◌⊎◌, ◌↔◌, ◌≤◌, List, ℕ, string_bytes, IfNone, IfSome, IfOk, OnOk, OnErr, Err};
ghost use Rattle.disk_model.specs.Disk.{IsMade};
ghost use Rattle.disk_model.specs.Faults.{Rose};
ghost use Rattle.disk_model.specs.Place.{missing, stored, out, with_place};
ghost use Rattle.disk_model.specs.Plans.{ShelfPlan, IsListed, next_number, unused};
ghost use Rattle.disk_model.specs.Filed.{file_in, place_in};

use crate::call_count::{CallCount, Planned};
use crate::files::Files;
use crate::{Disk, MemDisk, Mode, Shelf, TakeError};
use std::alloc::Global;

#[derive(Drop)]
pub struct MemShelf {
    files: Files<MemDisk>,

    // What a disk that is made here gets.
    room: u64,
    calls: u64,

    takes: CallCount,
}

impl MemShelf {
    /// A shelf with these files. Of its calls of `take` those with the listed numbers fail, counted from 0, but for one that
    /// is to answer that there is no such file. A disk that it makes has this room and this number of calls, and no listed
    /// failure.
    pub fn new(files: Vec<(String, MemDisk)>, room: u64, calls: u64, failing: Vec<u64>) -> MemShelf
        ensures places { ⟦<MemShelf as Shelf>⟧.places result ≡ file_in string_bytes files.items }
        ensures here { (name : List ℕ) → ⟦<MemShelf as Shelf>⟧.places result name ≢ out }
        ensures faults { ⟦<MemShelf as Shelf>⟧.faults result ≡ 0 }
        ensures plan { ⟦<MemShelf as Planned>⟧.plan result ≡ record { room = room; calls = calls; next = 0; failing = failing.items } }
    {
        MemShelf {
            files: Files::new(files),
            room,
            calls,
            takes: CallCount::new(failing),
        }
    }

    /// The disk under this name, where there is one and it isn't out.
    pub fn get(&self, name: &str) -> Option<&MemDisk>
        ensures some { IfSome result (λ disk. ⟦<MemShelf as Shelf>⟧.places self.now name.now ≡ stored disk.now) }
        ensures none { IfNone result ((disk : MemDisk) → ⟦<MemShelf as Shelf>⟧.places self.now name.now ≢ stored disk) }
    {
        self.files.get(name)
    }
}

impl Planned for MemShelf {
    ghost Plan = { ShelfPlan };

    ghost plan = { λ shelf. record { room = shelf.room; calls = shelf.calls; next = shelf.takes.made; failing = shelf.takes.failing.items } };
}

impl Shelf for MemShelf {
    type Held = MemDisk;

    ghost tells = { Unit {0} };

    ghost places = { λ shelf. place_in string_bytes shelf.files.slots.items shelf.files.given.items };

    ghost faults = { λ shelf. shelf.takes.faults };

    fn take(&mut self, alloc: Global, name: &str, mode: Mode) -> Result<MemDisk, TakeError>
        requires here { ⟦<MemShelf as Shelf>⟧.places self.old name.now ≢ out }
        ensures taken { IfOk result (λ disk. (⟦<MemShelf as Shelf>⟧.places self.old name.now ≡ stored disk)
            ⊎ ((mode ≡ Mode.Write) × (⟦<MemShelf as Shelf>⟧.places self.old name.now ≡ missing)
            × IsMade (Unit {0}) (Unit {0}) (⟦<MemDisk as Disk>⟧.content disk) (⟦<MemDisk as Disk>⟧.history disk) (⟦<MemDisk as Disk>⟧.faults disk))) }
        ensures made { let plan = ⟦<MemShelf as Planned>⟧.plan self.old in IfOk result (λ disk. ⟦<MemShelf as Shelf>⟧.places self.old name.now ≡ missing
            → ⟦<MemDisk as Planned>⟧.plan disk ≡ unused plan.room 0 plan.calls) }
        ensures now_out { OnOk result (⟦<MemShelf as Shelf>⟧.places self.new ≡ with_place (⟦<MemShelf as Shelf>⟧.places self.old) name.now out) }
        ensures absent { (result ≡ Err TakeError.Absent) ↔ ((mode ≡ Mode.Read) × (⟦<MemShelf as Shelf>⟧.places self.old name.now ≡ missing)) }
        ensures left { OnErr result (⟦<MemShelf as Shelf>⟧.places self.new ≡ ⟦<MemShelf as Shelf>⟧.places self.old) }
        ensures later { ⟦<MemShelf as Shelf>⟧.faults self.old ≤ ⟦<MemShelf as Shelf>⟧.faults self.new }
        ensures rose { result ≡ Err TakeError.Failed → Rose (⟦<MemShelf as Shelf>⟧.faults self.old) (⟦<MemShelf as Shelf>⟧.faults self.new) }
        ensures failed { let plan = ⟦<MemShelf as Planned>⟧.plan self.old in
            (result ≡ Err TakeError.Failed) ↔ (IsListed plan.failing plan.next × ¬ ((mode ≡ Mode.Read) × (⟦<MemShelf as Shelf>⟧.places self.old name.now ≡ missing))) }
        ensures counted { let plan = ⟦<MemShelf as Planned>⟧.plan self.old in ⟦<MemShelf as Planned>⟧.plan self.new ≡ record plan { next = next_number plan.next } }
    {
        let fails = self.takes.fails_next();
        if matches!(mode, Mode::Read) && !self.files.has(name) {
            return Err(TakeError::Absent);
        }
        if fails {
            let _ = self.takes.fail();
            return Err(TakeError::Failed);
        }
        if let Some(disk) = self.files.lend(name)? {
            return Ok(disk);
        }
        let disk = MemDisk::new(
            alloc,
            Vec::new(alloc),
            self.room,
            self.calls,
            Vec::new(alloc),
        )?;
        self.files.add_out(alloc, name)?;
        Ok(disk)
    }

    fn put_back(&mut self, name: &str, disk: MemDisk)
        requires was_out { ⟦<MemShelf as Shelf>⟧.places self.old name.now ≡ out }
        ensures back { ⟦<MemShelf as Shelf>⟧.places self.new ≡ with_place (⟦<MemShelf as Shelf>⟧.places self.old) name.now (stored disk) }
        ensures later { ⟦<MemShelf as Shelf>⟧.faults self.old ≤ ⟦<MemShelf as Shelf>⟧.faults self.new }
        ensures plan { ⟦<MemShelf as Planned>⟧.plan self.new ≡ ⟦<MemShelf as Planned>⟧.plan self.old }
    {
        self.files.put_back(name, disk);
    }
}
