//! A capture recorded in the archive on a disk.
ghost use Rattle.std.specs.Prelude.{◌≡◌, ◌≤◌, ◌<◌, ◌^◌, length, IfOk, IsOk};
ghost use Rattle.disk_model.specs.Disk.{latest, NothingPending};
ghost use Rattle.disk_model.specs.Faults.{Rose};
ghost use Rattle.record_lines.specs.Capture.{AreAnswered, CaptureEnds, CaptureLeaves, stop_of_open, stop_of_lines};

use crate::line::Lines;
use crate::recording::{RecordStop, Report, record_lines};
use disk_model::Disk;
use foz_archive::{ArchiveError, OpenCause, OpenRefused, readings_are_unique};
use record_dedup::Book;
use record_words::lines_in_order_make_a_record;
use std::alloc::Global;

/// Why a capture was not recorded whole.
#[derive(Clone, Copy, Debug, PartialEq, Eq)]
pub enum CaptureStop {
    /// The file is refused, and stays as it is.
    Archive(ArchiveError),
    /// A call of the disk failed.
    DiskFault,
    Memory,
}

impl From<OpenCause> for CaptureStop {
    ghost from_gives = { λ cause stop. stop ≡ stop_of_open cause };

    fn from(cause: OpenCause) -> CaptureStop {
        match cause {
            OpenCause::DiskFault => CaptureStop::DiskFault,
            OpenCause::Archive(error) => CaptureStop::Archive(error),
            OpenCause::Memory => CaptureStop::Memory,
        }
    }
}

impl From<RecordStop> for CaptureStop {
    ghost from_gives = { λ stopped stop. stop ≡ stop_of_lines stopped };

    fn from(stopped: RecordStop) -> CaptureStop {
        match stopped {
            RecordStop::DiskFault => CaptureStop::DiskFault,
            RecordStop::Memory => CaptureStop::Memory,
        }
    }
}

/// A disk after a capture was recorded, and the report, or why there is none.
#[derive(Drop)]
pub struct Captured<D, C> {
    pub disk: D,
    pub outcome: Result<Report<C>, CaptureStop>,
}

/// Opens the archive on a disk, records the lines of a capture in order, and writes what they add. The disk is handed
/// back in any case.
pub fn record_capture<D: Disk, L: Lines>(
    alloc: Global,
    disk: D,
    lines: &mut L,
) -> Captured<D, L::Cause>
    requires few { length (L.rest lines.old) < 2 ^ 32 }

    ensures ends { D.tells_content → CaptureEnds (D.content disk) (D.content result.disk) (Rose (D.faults disk) (D.faults result.disk)) (L.rest lines.old) 1 result.outcome }
    ensures leaves { D.tells_images → NothingPending (latest (D.history disk)) → CaptureLeaves (D.content disk) (D.history disk) (D.history result.disk) (L.rest lines.old) 1 }
    ensures durable { D.tells_images → IsOk result.outcome → NothingPending (latest (D.history result.disk)) }
    // Whatever the disk tells, the answers are those of one thread on some entries.
    ensures answered { IfOk result.outcome (AreAnswered (L.rest lines.old) 1) }
    ensures fault { result.outcome ≡ Err CaptureStop.DiskFault → Rose (D.faults disk) (D.faults result.disk) }
    ensures later { D.faults disk ≤ D.faults result.disk }
{
    readings_are_unique();
    lines_in_order_make_a_record::<L::Cause>();
    let mut book = match Book::open(alloc, disk) {
        Ok(book) => book,
        Err(OpenRefused { disk, cause }) => {
            return Captured {
                disk,
                outcome: Err(CaptureStop::from(cause)),
            };
        }
    };
    match record_lines(alloc, &mut book, lines) {
        Ok(report) => Captured {
            disk: book.close(),
            outcome: Ok(report),
        },
        Err(stop) => Captured {
            disk: book.close(),
            outcome: Err(CaptureStop::from(stop)),
        },
    }
}
