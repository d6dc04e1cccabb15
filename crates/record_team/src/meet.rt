//! What a thread does before each of its lines.

/// A place where the threads of a team may wait for each other.
pub trait Meet {
    /// Called by the thread of this number, counted from 0, before each of its lines, while it is in no turn.
    fn at(&self, thread: u32);
}

/// Nobody waits for anybody.
#[derive(Clone, Copy, Debug)]
pub struct NoMeeting;

impl Meet for NoMeeting {
    fn at(&self, _thread: u32) {}
}
