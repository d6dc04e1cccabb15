// Why a worker's session ends, as its steps tell it.
ghost use Rattle.std.specs.Prelude.{◌≡◌};
ghost use Rattle.worker_node.specs.Steps.{ended, stopped_as};
ghost use Rattle.worker_node.specs.declared.ends.Stopped.TheVariants.{Memory};

use crate::served::Served;
use foz_words::NoMemory;

/// What stands in the input that ends a session.
#[derive(Clone, Copy)]
pub(crate) enum End {
    Quit,
    BadFrame { at: u64 },
}

impl End {
    pub(crate) fn served(self) -> Served
        ensures { result ≡ ended self }
    {
        match self {
            End::Quit => Served::Quit,
            End::BadFrame { at } => Served::BadFrame { at },
        }
    }
}

/// Why the work on a message stopped.
#[derive(Clone, Copy)]
pub(crate) enum Stopped {
    WriteFault,
    Memory,
}

impl Stopped {
    pub(crate) fn served(self) -> Served
        ensures { result ≡ stopped_as self }
    {
        match self {
            Stopped::WriteFault => Served::WriteFault,
            Stopped::Memory => Served::Memory,
        }
    }
}

impl From<NoMemory> for Stopped {
    ghost from_gives = { λ _ stopped. stopped ≡ Memory };

    fn from(_refused: NoMemory) -> Stopped {
        Stopped::Memory
    }
}
