ghost use Rattle.std.specs.Prelude.{◌≡◌};
ghost use Rattle.worker_msg.specs.declared.error.TakeFrame.TheVariants.{Memory};

use foz_words::NoMemory;

/// Why no message was taken.
#[derive(Clone, Copy, Debug, PartialEq, Eq)]
pub enum TakeFrame {
    /// What stands at this place, counted from the first byte that the feed was given, begins or goes on no frame.
    BadFrame { at: u64 },
    /// Memory ran out for a payload.
    Memory,
}

impl From<NoMemory> for TakeFrame {
    ghost from_gives = { λ _ error. error ≡ Memory };

    fn from(_refused: NoMemory) -> TakeFrame {
        TakeFrame::Memory
    }
}
