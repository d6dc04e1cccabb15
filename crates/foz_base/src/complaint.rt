//! What the program says on the error output.
use crate::stop::Stop;
use disk_model::{Sink, write_all};
use foz_archive::ArchiveError;
use std::alloc::Global;
use std::fmt;

/// The first bytes of a file, at most sixteen, as hexadecimal digits, or `-` where there are none.
#[derive(Clone, Copy)]
struct FirstBytes<'a>(&'a [u8]);

impl fmt::Display for FirstBytes<'_> {
    fn fmt<W: fmt::Write>(&self, f: &mut fmt::Formatter<W>) -> fmt::Result {
        if self.0.is_empty() {
            return f.write_str("-");
        }
        for byte in self.0 {
            write!(f, "{byte:02x}")?;
        }
        Ok(())
    }
}

impl fmt::Display for Stop {
    fn fmt<W: fmt::Write>(&self, f: &mut fmt::Formatter<W>) -> fmt::Result {
        match self {
            Stop::Usage => write!(f, "usage"),
            Stop::ReadFault => write!(f, "read fault"),
            Stop::WriteFault => write!(f, "write fault"),
            Stop::DiskFault => write!(f, "disk fault"),
            Stop::Absent => write!(f, "absent"),
            Stop::Archive(ArchiveError::BadMagic { len, bytes }) => {
                let first = FirstBytes(&bytes[..(*len).min(16)]);
                write!(f, "bad magic {first}")
            }
            Stop::Archive(ArchiveError::BadVersion { v }) => write!(f, "bad version {v}"),
            Stop::Archive(ArchiveError::TooLong { len }) => write!(f, "too long {len}"),
            Stop::Archive(ArchiveError::TooMany) | Stop::TooMany { count: _ } => {
                write!(f, "too many entries")
            }
            Stop::Memory => write!(f, "out of memory"),
            Stop::Full { end, need } => write!(f, "full {end} {need}"),
            Stop::InputTooLong => write!(f, "input too long"),
        }
    }
}

/// Says on the error output why a command ended. A failure there changes nothing.
pub fn complain<O: Sink, T: fmt::Display>(alloc: Global, errors: &mut O, reason: &T) {
    if let Ok(text) = format!(in alloc; "foz: {reason}\n") {
        let _ = write_all(errors, text.as_bytes());
    }
}
