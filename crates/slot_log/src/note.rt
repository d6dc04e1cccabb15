use foz_words::Row;

/// One note of a slot's log.
#[derive(Debug, Drop)]
pub enum SlotNote {
    /// A worker was started, and has said hello.
    Started,
    /// No worker could be started.
    NotStarted,
    /// This frame went to the worker.
    Sent(Row<u8>),
    /// These bytes came from the worker.
    Got(Row<u8>),
    /// The worker was found dead.
    Died,
    /// The worker was stopped.
    Stopped,
}
