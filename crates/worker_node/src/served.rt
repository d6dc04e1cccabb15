/// How serving ended.
#[derive(Clone, Copy, Debug, PartialEq, Eq)]
pub enum Served {
    /// A Quit came.
    Quit,
    /// The source ended before a Quit, with so many bytes of an unfinished frame.
    InputEnded { left: usize },
    /// The source failed.
    ReadFault,
    /// The sink failed.
    WriteFault,
    /// What stands at this place, counted from the first byte, begins or goes on no frame.
    BadFrame { at: u64 },
    /// Memory ran out.
    Memory,
}
