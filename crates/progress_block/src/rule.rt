// The rule that holds of the cell between any two steps, and what each of its three kinds of step tells.
ghost use Rattle.std.specs.Prelude.{true, []};
ghost use Rattle.progress_block.specs.Cell.{IsTold, published_one, HasRead, reader_of};

use crate::cell_row::CellRow;
use crate::view::View;
use atomic_table::Split;
use crossbeam_utils::rule::{Outcome, Protocol};

/// The cell's own `Protocol`.
pub struct Rows;

impl Protocol<CellRow, View> for Rows {
    ghost holds = { IsTold };

    ghost first = { record { writes = true; rows = [] } };
}

/// The writer puts a row into the cell.
pub struct Publish;

impl Outcome<CellRow, View> for Publish {
    ghost then = { published_one };
}

/// A reader takes a copy of the row in the cell.
pub struct Read;

impl Outcome<CellRow, View> for Read {
    ghost then = { HasRead };
}

/// The writer makes a reader, which knows the rows that the writer does.
pub struct NewReader;

impl Split<View> for NewReader {
    ghost left = { λ v. v };

    ghost right = { reader_of };
}
