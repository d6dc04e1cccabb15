// How the cell holds counts.
ghost use Rattle.progress_block.specs.Rows.{words_of};

use crossbeam_utils::atomic::Words;
use replay_core::Counts;

/// Counts as eight words. The wrapper is there since neither `Words` nor `Counts` is of this crate.
#[derive(Clone, Copy)]
pub struct CellRow {
    pub counts: Counts,
}

impl Words<8> for CellRow {
    ghost words = { λ row. words_of row.counts };

    fn to_words(self) -> [u64; 8] {
        let counts = self.counts;
        [
            counts.events,
            counts.done,
            counts.refused,
            counts.blamed,
            counts.missing,
            counts.deaths,
            counts.restarts,
            counts.retired,
        ]
    }

    fn from_words(bits: &[u64; 8]) -> CellRow {
        CellRow {
            counts: Counts {
                events: bits[0],
                done: bits[1],
                refused: bits[2],
                blamed: bits[3],
                missing: bits[4],
                deaths: bits[5],
                restarts: bits[6],
                retired: bits[7],
            },
        }
    }
}
