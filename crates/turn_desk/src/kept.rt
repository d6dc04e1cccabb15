// What a value has to mean, so that a desk can keep it.
ghost use Rattle.std.specs.Prelude.{ℕ, List};

/// A value that stores its own story.
pub trait Kept {
    /// What a seat adds to the story in its turn.
    type Note;

    /// What no turn changes, and each seat knows. It is a meaning: no value of it has to be made.
    type Origin;

    // The notes that the value stores, the oldest first.
    ghost story: { Self → List Self.Note };

    ghost origin: { Self → Self.Origin };

    // The number of the seat that wrote the note.
    ghost number: { Self.Note → ℕ };
}
