use replay_core::Event;

/// An event of the scheduler, with the number of the seat that made it.
#[derive(Clone, Copy, Debug, PartialEq, Eq)]
pub struct BoardNote {
    pub seat: u32,
    pub event: Event,
}
