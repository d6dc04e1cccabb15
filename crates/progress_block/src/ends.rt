// The two kinds of end.
ghost use Rattle.std.specs.Prelude.{◌≡◌, ◌≢◌, ◌≤◌, true, false, []};
ghost use Rattle.crossbeam_utils.specs.Seq.{cell_view};

use crate::cell_row::CellRow;
use crate::view::View;
use crossbeam_utils::atomic::seq_cell::Pass;
use replay_core::Counts;

/// The right to publish. There is one for each cell.
#[derive(Drop)]
pub struct Writer {
    pub(crate) pass: Pass<CellRow, View>,
    /// The row that the cell was made with. It is published late, by the first call that may wait,
    /// and before any reader is there to miss it.
    pub(crate) first: Counts,
    pub(crate) told: bool,
    ghost writes: { (cell_view pass).writes ≡ true },
    ghost most: { first.events ≤ 2147483647 },
    ghost untold: { told ≡ false → (cell_view pass).rows ≡ [] },
    ghost some_told: { told ≡ true → (cell_view pass).rows ≢ [] },
}

/// The right to read. It can go to another thread.
#[derive(Drop)]
pub struct Reader {
    pub(crate) pass: Pass<CellRow, View>,
    ghost some: { (cell_view pass).rows ≢ [] },
}
