//! Why a command ends early, and the status of that.
ghost use Rattle.std.specs.Prelude.{◌≡◌};
ghost use Rattle.foz_base.specs.declared.stop.Stop.TheVariants.{Memory};
ghost use Rattle.foz_base.specs.Status.{stop_of_read, stop_of_capture, status_of_stop};

use foz_archive::{ArchiveError, ReadError};
use foz_words::NoMemory;
use record_lines::CaptureStop;

/// Why a command ends without its whole report.
#[derive(Clone, Copy, Debug, PartialEq, Eq)]
pub enum Stop {
    Usage,
    /// The input, or a file that is only read.
    ReadFault,
    /// The output.
    WriteFault,
    /// A file that is written.
    DiskFault,
    Absent,
    Archive(ArchiveError),
    Memory,
    /// The archive ends at `end`, and an entry of `need` bytes has no room after it.
    Full { end: u64, need: u64 },
    /// So many entries are there that no other has room.
    TooMany { count: u32 },
    InputTooLong,
}

impl From<NoMemory> for Stop {
    ghost from_gives = { λ _ stop. stop ≡ Memory };

    fn from(_refused: NoMemory) -> Stop {
        Stop::Memory
    }
}

impl From<ReadError> for Stop {
    ghost from_gives = { λ unread stop. stop ≡ stop_of_read unread };

    fn from(unread: ReadError) -> Stop {
        match unread {
            ReadError::DiskFault => Stop::ReadFault,
            ReadError::Archive(error) => Stop::Archive(error),
            ReadError::Memory => Stop::Memory,
        }
    }
}

impl From<CaptureStop> for Stop {
    ghost from_gives = { λ stopped stop. stop ≡ stop_of_capture stopped };

    fn from(stopped: CaptureStop) -> Stop {
        match stopped {
            CaptureStop::Archive(error) => Stop::Archive(error),
            CaptureStop::DiskFault => Stop::DiskFault,
            CaptureStop::Memory => Stop::Memory,
        }
    }
}

/// The status of a command that ends so.
pub fn status_of(stop: &Stop) -> u8
    ensures { result ≡ status_of_stop stop.now }
{
    match stop {
        Stop::Usage => 2,
        Stop::ReadFault => 3,
        Stop::WriteFault => 4,
        Stop::DiskFault => 5,
        Stop::Absent | Stop::Archive(_) => 6,
        Stop::Memory => 7,
        Stop::Full { .. } | Stop::TooMany { .. } => 8,
        Stop::InputTooLong => 10,
    }
}
