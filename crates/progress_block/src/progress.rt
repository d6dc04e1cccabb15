// The cell.
ghost use Rattle.std.specs.Prelude.{◌≡◌};

use crate::cell_row::CellRow;
use crate::ends::{Reader, Writer};
use crate::rule::{NewReader, Publish, Read, Rows};
use crate::view::View;
use crossbeam_utils::atomic::seq_cell::RuledSeqCell;
use foz_words::NoMemory;
use replay_core::Counts;
use std::alloc::Global;
use std::sync::Wait;

/// A cell of one row. Threads share it by `&`, each with a reader of its own.
#[derive(Drop)]
pub struct Progress {
    cell: RuledSeqCell<CellRow, View, Rows, 8>,
}

impl Progress {
    ghost use Rattle.std.specs.Prelude.{◌≡◌, ◌≤◌, [], ◌∷◌, ◌++◌, true, IfOk};
    ghost use Rattle.replay_core.specs.declared.counts.Counts.{Counts};
    ghost use mathlib.Core.List.{IsPrefix};
    ghost use Rattle.progress_block.specs.Rows.{Rise, EndsWith};
    ghost use Rattle.progress_block.specs.Ends.{rows_of, seen_of, IsWriterOf, IsReaderOf, IsSameWriter, IsSameReader};

    /// A cell with its writer. The first row counts as published.
    pub fn new(alloc: Global, first: Counts) -> Result<(Progress, Writer), NoMemory>
        requires { first.events ≤ 2147483647 }
        ensures writer { IfOk result (λ r. IsWriterOf r.0 r.1) }
        ensures rows { IfOk result (λ r. rows_of r.1 ≡ first ∷ []) }
    {
        let (cell, pass) = RuledSeqCell::ruled(alloc, CellRow { counts: first })?;
        let writer = Writer {
            pass,
            first,
            told: false,
        };
        Ok((Progress { cell }, writer))
    }

    // Publishes the first row, where no call has done so.
    fn tell<R: Wait>(&self, rt: &R, writer: &mut Writer)
        requires { IsWriterOf self.now writer.old }
        ensures same { IsSameWriter writer.old writer.new }
        ensures rows { rows_of writer.new ≡ rows_of writer.old }
        ensures told { writer.new.told ≡ true }
    {
        if !writer.told {
            let first = CellRow {
                counts: writer.first,
            };
            self.cell.swap_as::<Publish, R>(rt, &mut writer.pass, first);
            writer.told = true;
        }
    }

    /// Publishes a row, whose events are no fewer than those of the row before.
    pub fn publish<R: Wait>(&self, rt: &R, writer: &mut Writer, row: Counts)
        requires progress { IsWriterOf self.now writer.old }
        requires later { (last : Counts) → EndsWith (rows_of writer.old) last → last.events ≤ row.events }
        requires most { row.events ≤ 2147483647 }
        ensures same { IsSameWriter writer.old writer.new }
        ensures rows { rows_of writer.new ≡ rows_of writer.old ++ row ∷ [] }
    {
        self.tell(rt, writer);
        self.cell
            .swap_as::<Publish, R>(rt, &mut writer.pass, CellRow { counts: row });
    }

    /// A reader that has seen all rows that the writer has published.
    pub fn reader<R: Wait>(&self, rt: &R, writer: &mut Writer) -> Reader
        requires { IsWriterOf self.now writer.old }
        ensures same { IsSameWriter writer.old writer.new }
        ensures rows { rows_of writer.new ≡ rows_of writer.old }
        ensures reader { IsReaderOf self.now result }
        ensures seen { seen_of result ≡ rows_of writer.old }
    {
        self.tell(rt, writer);
        Reader {
            pass: self.cell.split_pass::<NewReader>(&mut writer.pass),
        }
    }

    /// The row that was last published. The rows up to it begin with all that this reader had seen.
    pub fn read<R: Wait>(&self, rt: &R, reader: &mut Reader) -> Counts
        requires { IsReaderOf self.now reader.old }
        ensures same { IsSameReader reader.old reader.new }
        ensures seen { IsPrefix (seen_of reader.old) (seen_of reader.new) }
        ensures row { EndsWith (seen_of reader.new) result }
        ensures rise { Rise 0 (seen_of reader.new) }
        ensures later { (before : Counts) → EndsWith (seen_of reader.old) before → before.events ≤ result.events }
        ensures most { result.events ≤ 2147483647 }
    {
        self.cell.load_as::<Read, R>(rt, &mut reader.pass).counts
    }
}
