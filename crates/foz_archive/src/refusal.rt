use disk_model::Failed;
use foz_words::NoMemory;
use std::alloc::AllocError;

/// Why a file is no archive that is read, the first reason in this order.
#[derive(Clone, Copy, Debug, PartialEq, Eq)]
pub enum ArchiveError {
    /// It doesn't begin with a header. Of a file with fewer than 16 bytes the missing ones are 0 here.
    BadMagic { len: usize, bytes: [u8; 16] },
    /// Its version is none of those that are read, or not the one to which entries are added.
    BadVersion { v: u8 },
    /// Its entries end above [`foz_entry::END_LIMIT`], or more than one byte of it stands above that.
    TooLong { len: u64 },
    /// More than [`foz_entry::COUNT_LIMIT`] whole entries stand in a row.
    TooMany,
}

/// Why bytes are not read.
#[derive(Clone, Copy, Debug, PartialEq, Eq)]
pub enum ScanError {
    Archive(ArchiveError),
    Memory,
}

impl From<NoMemory> for ScanError {
    ghost use Rattle.std.specs.Prelude.{◌≡◌};
    ghost use Rattle.foz_archive.specs.declared.refusal.ScanError.TheVariants.{Memory};

    ghost from_gives = { λ _ error. error ≡ Memory };

    fn from(_refused: NoMemory) -> ScanError {
        ScanError::Memory
    }
}

/// Why a disk is not read.
#[derive(Clone, Copy, Debug, PartialEq, Eq)]
pub enum ReadError {
    DiskFault,
    Archive(ArchiveError),
    Memory,
}

impl From<Failed> for ReadError {
    ghost use Rattle.std.specs.Prelude.{◌≡◌};
    ghost use Rattle.foz_archive.specs.declared.refusal.ReadError.TheVariants.{DiskFault};

    ghost from_gives = { λ _ error. error ≡ DiskFault };

    fn from(_failed: Failed) -> ReadError {
        ReadError::DiskFault
    }
}

impl From<AllocError> for ReadError {
    ghost use Rattle.std.specs.Prelude.{◌≡◌};
    ghost use Rattle.foz_archive.specs.declared.refusal.ReadError.TheVariants.{Memory};

    ghost from_gives = { λ _ error. error ≡ Memory };

    fn from(_refused: AllocError) -> ReadError {
        ReadError::Memory
    }
}

impl From<ScanError> for ReadError {
    ghost use Rattle.std.specs.Prelude.{◌≡◌};
    ghost use Rattle.foz_archive.specs.Refusal.{read_error_of};

    ghost from_gives = { λ unread error. error ≡ read_error_of unread };

    fn from(unread: ScanError) -> ReadError {
        match unread {
            ScanError::Archive(error) => ReadError::Archive(error),
            ScanError::Memory => ReadError::Memory,
        }
    }
}
