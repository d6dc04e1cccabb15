//! Files that a command reads or writes. What is taken is put back.
ghost use Rattle.std.specs.Prelude.{◌≡◌, ◌≢◌, ◌⊎◌, ◌≤◌, ℕ, List, IfOk, IfErr, IsOk, OnErr};
ghost use Rattle.disk_model.specs.Disk.{latest, IsMade};
ghost use Rattle.disk_model.specs.Faults.{Rose};
ghost use Rattle.disk_model.specs.Place.{missing, out, stored, with_place};
ghost use Rattle.foz_base.specs.Outside.{file_of, history_of, files_of, FileFaultRose, IsFileOnlyRead, IsSettledFile, WorksOn};
ghost use Rattle.foz_base.specs.FileRead.{FileReads, IsBounded, ReadCauses};
ghost use Rattle.foz_base.specs.FileWork.{Writes, WriteCauses, FileLeaves};

use crate::stop::Stop;
use crate::work::Work;
use disk_model::{Disk, Mode, Shelf, TakeError};
use foz_archive::{Scanned, entries_are_bounded, read_disk};
use std::alloc::Global;

/// What stands in a file of the shelf. It is only read.
pub fn read_file<F: Shelf>(alloc: Global, files: &mut F, name: &str) -> Result<Scanned, Stop>
    requires here { F.tells → F.places files.old name.now ≢ out }

    ensures reads { F.tells → F.Held.tells_content → let seen = files_of F.Held.content F.Held.history F.Held.faults in
        FileReads (file_of F.Held.content (F.places files.old name.now)) (FileFaultRose (seen (F.places files.old) (F.faults files.old)) (seen (F.places files.new) (F.faults files.new)) name.now) result }
    ensures only_read { F.tells → F.Held.tells_content → let seen = files_of F.Held.content F.Held.history F.Held.faults in
        IsFileOnlyRead F.Held.tells_images (seen (F.places files.old) (F.faults files.old)) (seen (F.places files.new) (F.faults files.new)) name.now }
    ensures works { WorksOn F.tells (F.places files.old) (F.places files.new) name.now }
    ensures causes { let seen = files_of F.Held.content F.Held.history F.Held.faults in
        IfErr result (ReadCauses (F.tells → FileFaultRose (seen (F.places files.old) (F.faults files.old)) (seen (F.places files.new) (F.faults files.new)) name.now)) }
    ensures bounded { IfOk result IsBounded }
{
    entries_are_bounded();
    let mut disk = match files.take(alloc, name, Mode::Read) {
        Ok(disk) => disk,
        Err(TakeError::Absent) => return Err(Stop::Absent),
        Err(TakeError::Failed) => return Err(Stop::ReadFault),
        Err(TakeError::Memory) => return Err(Stop::Memory),
    };
    let scanned = read_disk(alloc, &mut disk);
    files.put_back(name, disk);
    match scanned {
        Ok(scanned) => Ok(scanned),
        Err(unread) => Err(Stop::from(unread)),
    }
}

/// What holds of every disk that tells its images. No code is in it.
pub(crate) fn laws_of_disks<D: Disk>()
    ensures both { D.tells_images → D.tells_content }
    ensures is_now { D.tells_images → (disk : D) → D.content disk ≡ (latest (D.history disk)).now }
{}

/// Takes a file of the shelf to write it. One that isn't there is made.
pub(crate) fn take_to_write<F: Shelf>(
    alloc: Global,
    files: &mut F,
    name: &str,
) -> Result<F::Held, Stop>
    requires here { F.tells → F.places files.old name.now ≢ out }

    ensures taken { F.tells → IfOk result (λ disk. (F.places files.old name.now ≡ stored disk)
        ⊎ ((F.places files.old name.now ≡ missing) × IsMade F.Held.tells_content F.Held.tells_images (F.Held.content disk) (F.Held.history disk) (F.Held.faults disk))) }
    ensures now_out { F.tells → IfOk result (λ disk. F.places files.new ≡ with_place (F.places files.old) name.now out) }
    ensures left { F.tells → OnErr result (F.places files.new ≡ F.places files.old) }
    ensures later { F.faults files.old ≤ F.faults files.new }
    ensures untaken { IfErr result (WriteCauses (F.tells → Rose (F.faults files.old) (F.faults files.new))) }
    ensures no_archive { IfErr result (λ stop. (stop ≡ Stop.DiskFault) ⊎ (stop ≡ Stop.Memory)) }
{
    match files.take(alloc, name, Mode::Write) {
        Ok(disk) => Ok(disk),
        Err(TakeError::Memory) => Err(Stop::Memory),
        // A file that isn't there is made, so it is never absent.
        Err(TakeError::Absent | TakeError::Failed) => Err(Stop::DiskFault),
    }
}

/// Does a work on a file of the shelf. One that isn't there is made.
pub fn write_file<F: Shelf, W: Work + Drop>(
    alloc: Global,
    files: &mut F,
    name: &str,
    work: W,
) -> Result<W::Done, Stop>
    requires here { F.tells → F.places files.old name.now ≢ out }
    requires ready { W.ready work }

    ensures does { F.tells → F.Held.tells_content → Writes (W.does work) (file_of F.Held.content (F.places files.old name.now)) (file_of F.Held.content (F.places files.new name.now)) result }
    ensures tells { IfOk result (W.tells work) }
    ensures leaves { F.tells → F.Held.tells_images → FileLeaves (W.leaves work) (file_of F.Held.content (F.places files.old name.now))
        (history_of F.Held.history (F.places files.old name.now)) (history_of F.Held.history (F.places files.new name.now)) }
    ensures durable { F.tells → F.Held.tells_images → IsOk result → IsSettledFile (history_of F.Held.history (F.places files.new name.now)) }
    ensures works { WorksOn F.tells (F.places files.old) (F.places files.new) name.now }
    ensures causes { let seen = files_of F.Held.content F.Held.history F.Held.faults in
        IfErr result (WriteCauses (F.tells → FileFaultRose (seen (F.places files.old) (F.faults files.old)) (seen (F.places files.new) (F.faults files.new)) name.now)) }
{
    laws_of_disks::<F::Held>();
    let disk = take_to_write(alloc, files, name)?;
    let worked = work.work_on(alloc, disk);
    files.put_back(name, worked.disk);
    worked.outcome
}
