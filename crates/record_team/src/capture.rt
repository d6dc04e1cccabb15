//! A capture, recorded by several threads in the archive on a disk.
ghost use Rattle.std.specs.Prelude.{◌≡◌, ◌<◌, ◌≤◌, ◌^◌, length, IfOk, IsOk};
ghost use Rattle.disk_model.specs.Disk.{latest, NothingPending};
ghost use Rattle.disk_model.specs.Faults.{Rose};
ghost use Rattle.record_lines.specs.Capture.{AreAnswered, CaptureEnds, CaptureLeaves};

use crate::meet::Meet;
use crate::record::{Teamed, record_by_team};
use disk_model::Disk;
use foz_archive::{OpenRefused, readings_are_unique};
use record_dedup::Book;
use record_lines::{CaptureStop, Captured, Lines};
use std::alloc::Global;
use std::sync::Wait;
use std::thread::Threads;

/// Opens the archive on a disk, and so many threads, two or more, record the lines of a capture in it. The disk is handed
/// back in any case.
pub fn record_capture_by_team<
    D: Disk + Drop + Send,
    L: Lines + Copy + Drop + Send,
    M: Meet + Sync,
    X: Wait + Threads + Sync,
>(rt: &X, alloc: Global, disk: D, lines: L, threads: u32, meet: &M) -> Captured<D, L::Cause>
where
    L::Cause: Send,
    requires threads { (1 < threads) × (threads ≤ 16) }
    requires few { length (L.rest lines) < 2 ^ 30 }

    ensures ends { D.tells_content → CaptureEnds (D.content disk) (D.content result.disk) (Rose (D.faults disk) (D.faults result.disk)) (L.rest lines) threads result.outcome }
    ensures leaves { D.tells_images → NothingPending (latest (D.history disk)) → CaptureLeaves (D.content disk) (D.history disk) (D.history result.disk) (L.rest lines) threads }
    ensures durable { D.tells_images → IsOk result.outcome → NothingPending (latest (D.history result.disk)) }
    // Whatever the disk tells, the answers are those of so many threads on some entries.
    ensures answered { IfOk result.outcome (AreAnswered (L.rest lines) threads) }
    ensures fault { result.outcome ≡ Err CaptureStop.DiskFault → Rose (D.faults disk) (D.faults result.disk) }
    ensures later { D.faults disk ≤ D.faults result.disk }
{
    readings_are_unique();
    let book = match Book::open(alloc, disk) {
        Ok(book) => book,
        Err(OpenRefused { disk, cause }) => {
            return Captured {
                disk,
                outcome: Err(CaptureStop::from(cause)),
            };
        }
    };
    let Teamed { book, outcome } = record_by_team(rt, alloc, book, lines, threads, meet);
    match outcome {
        Ok(report) => Captured {
            disk: book.close(),
            outcome: Ok(report),
        },
        Err(stop) => Captured {
            disk: book.close(),
            outcome: Err(CaptureStop::from(stop)),
        },
    }
}
