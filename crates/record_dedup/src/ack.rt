ghost use Rattle.std.specs.Prelude.{◌≡◌};
ghost use Rattle.record_dedup.specs.Steps.{reply_told};

use foz_archive::PushError;
use foz_words::NoMemory;
use gate_append::DiskFault;
use record_words::RecordReply;

/// A payload that stands in the book under its key.
#[derive(Clone, Copy, Debug, PartialEq, Eq)]
pub enum Ack {
    /// It was added as the entry at this place.
    New { index: u32 },
    /// The entry at this place has it already.
    Known { index: u32 },
}

/// Why nothing was recorded, the first reason in this order.
#[derive(Clone, Copy, Debug, PartialEq, Eq)]
pub enum RecordError {
    /// An earlier flush failed: the file must be opened again.
    Broken,
    /// The payload has so many bytes, more than [`foz_entry::PAYLOAD_LIMIT`].
    TooLarge { size: u64 },
    /// The entry at this place has another payload under the key.
    Collision { index: u32 },
    /// The entries end at `end`, and an entry of `need` bytes would end above [`foz_entry::END_LIMIT`].
    Full { end: u64, need: u64 },
    /// So many entries are there, [`foz_entry::COUNT_LIMIT`].
    TooMany { count: u32 },
    Memory,
}

impl From<PushError> for RecordError {
    ghost use Rattle.std.specs.Prelude.{◌≡◌};
    ghost use Rattle.record_dedup.specs.Steps.{record_error_of};

    ghost from_gives = { λ refusal error. error ≡ record_error_of refusal };

    fn from(refusal: PushError) -> RecordError {
        match refusal {
            PushError::TooLarge { size } => RecordError::TooLarge { size },
            PushError::Full { end, need } => RecordError::Full { end, need },
            PushError::TooMany { count } => RecordError::TooMany { count },
            PushError::Memory => RecordError::Memory,
        }
    }
}

impl From<NoMemory> for RecordError {
    ghost use Rattle.std.specs.Prelude.{◌≡◌};
    ghost use Rattle.record_dedup.specs.declared.ack.RecordError.TheVariants.{Memory};

    ghost from_gives = { λ _ error. error ≡ Memory };

    fn from(_refused: NoMemory) -> RecordError {
        RecordError::Memory
    }
}

/// Why nothing was flushed.
#[derive(Clone, Copy, Debug, PartialEq, Eq)]
pub enum FlushError {
    /// An earlier flush failed: the file must be opened again.
    Broken,
    /// A call of the disk failed, and the book is broken from now on.
    DiskFault,
    /// There was no memory to note the flush. A book that is flushed by itself never answers it.
    Memory,
}

impl From<DiskFault> for FlushError {
    ghost use Rattle.std.specs.Prelude.{◌≡◌};
    ghost use Rattle.record_dedup.specs.declared.ack.FlushError.TheVariants as errors;

    ghost from_gives = { λ _ error. error ≡ errors.DiskFault };

    fn from(_fault: DiskFault) -> FlushError {
        FlushError::DiskFault
    }
}

/// The reply that an answer to `record` tells, which running out of memory doesn't.
pub fn reply_told(answer: &Result<Ack, RecordError>) -> Option<RecordReply>
    ensures { result ≡ reply_told answer.now }
{
    match *answer {
        Ok(Ack::New { index }) => Some(RecordReply::New { index }),
        Ok(Ack::Known { index }) => Some(RecordReply::Known { index }),
        Err(RecordError::Broken) => Some(RecordReply::Broken),
        Err(RecordError::TooLarge { size }) => Some(RecordReply::TooLarge { size }),
        Err(RecordError::Collision { index }) => Some(RecordReply::Collision { index }),
        Err(RecordError::Full { end, need }) => Some(RecordReply::Full { end, need }),
        Err(RecordError::TooMany { count }) => Some(RecordReply::TooMany { count }),
        Err(RecordError::Memory) => None,
    }
}
