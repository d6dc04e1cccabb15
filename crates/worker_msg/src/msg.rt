use foz_words::{Key, Row};

/// What a crew and its workers tell each other.
#[derive(Debug, Drop)]
pub enum Msg {
    /// A worker is there.
    Hello,
    /// Create this, and answer nothing.
    Load { key: Key, payload: Row<u8> },
    /// Create this, and answer.
    Do { key: Key, payload: Row<u8> },
    /// The answer to a Do.
    Reply { key: Key, code: u32 },
    /// End.
    Quit,
}
