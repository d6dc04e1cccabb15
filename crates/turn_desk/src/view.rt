// What a seat knows of the desk's story.
use std::collections::LinkedList;

/// What a seat knows. It exists in contracts alone: no value of it is made.
pub struct View<N, O> {
    /// Whether it is a seat still, and was not joined into the root.
    pub live: bool,
    /// The value's origin, of each live seat.
    pub origin: Option<O>,
    pub number: u32,
    pub turns: u32,
    /// Seats split off and not joined back, and seats made so far. Only the root counts them.
    pub out: u32,
    pub made: u32,
    /// Inside a turn, the story of the value as it was taken.
    pub inside: Option<LinkedList<N>>,
    /// The story at the seat's last leave, split or join.
    pub seen: LinkedList<N>,
    /// The seat's own notes.
    pub mine: LinkedList<N>,
    /// Of the root, the seats that were joined back.
    pub joined: LinkedList<Joined<N>>,
}

/// A seat that was joined into the root: its number, its notes, and what it had seen.
pub struct Joined<N> {
    pub number: u32,
    pub notes: LinkedList<N>,
    pub seen: LinkedList<N>,
}
