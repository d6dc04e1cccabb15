// What no turn changes, and every seat knows.
ghost use base.Fml.{ftrue};
ghost use Rattle.atomic_table.specs.Seated.{TableId, table_id_coded};

use replay_core::Plan;
use std::marker::{Model, PhantomData};

/// Which progress cell a writer belongs to. It exists in contracts alone: no value of it is made.
pub struct CellName {
    marker: PhantomData<()>,
    pub ghost cell: { TableId } by { table_id_coded },
}

impl Model for CellName {
    ghost also_owns = { λ _. ftrue };
}

/// What the scheduler was given, and the board's progress cell. It exists in contracts alone: no value of it is made.
pub struct BoardOrigin {
    pub plan: Plan,
    pub slots: u32,
    pub deaths: u32,
    pub cell: CellName,
}
