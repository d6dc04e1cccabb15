//! Laws of the lines of an input.
ghost use Rattle.std.specs.Prelude.{◌≤◌, ℕ, List, length};
ghost use Rattle.input_lines.specs.Lines.{lines_of};

/// An input has no more lines than bytes.
pub fn lines_are_few()
    ensures { (input : List ℕ) → length (lines_of input) ≤ length input }
{}
