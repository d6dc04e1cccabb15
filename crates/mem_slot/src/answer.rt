// What is left of a worker's answer.
ghost use Rattle.std.specs.Prelude.{◌≡◌, ◌++◌, [], length, take, drop, min};
ghost use Rattle.worker_msg.specs.Frames.{spelling};
ghost use Rattle.worker_msg.specs.declared.msg.Msg.TheVariants.{Reply};

use foz_words::Key;
use std::marker::Model;
use worker_msg::reply_frame;

/// How many bytes of an answer are asked for at most: those of a Reply.
const MOST: usize = 21;

/// Bytes that are still to be sent. Contracts see them as a list.
#[derive(Drop)]
pub(crate) struct Answer {
    bytes: [u8; MOST],
    from: usize,
    end: usize,
}

impl Model for Answer {
    ghost use Rattle.std.specs.Prelude.{List, ℕ, ◌≤◌, take, drop};

    ghost Value = { List ℕ };

    ghost view = { λ answer. drop answer.from (take answer.end answer.bytes) };

    ghost invariant = { λ answer. (answer.from ≤ answer.end) × (answer.end ≤ 21) };
}

impl Answer {
    pub(crate) fn nothing() -> Answer
        ensures { result ≡ [] }
    {
        Answer {
            bytes: [0; MOST],
            from: 0,
            end: 0,
        }
    }

    pub(crate) fn reply(key: &Key, code: u32) -> Answer
        ensures { result ≡ spelling (Reply key.now code) }
    {
        Answer {
            bytes: reply_frame(key, code),
            from: 0,
            end: MOST,
        }
    }

    /// The bytes of a row, as far as they are ever asked for.
    pub(crate) fn raw(row: &[u8]) -> Answer
        ensures { result ≡ take 21 row.now }
    {
        let end = row.len().min(MOST);
        let mut bytes = [0; MOST];
        bytes[..end].copy_from_slice(&row[..end]);
        Answer {
            bytes,
            from: 0,
            end,
        }
    }

    /// Gives as many bytes as there are and fit.
    pub(crate) fn give(&mut self, piece: &mut [u8]) -> usize
        ensures count { result ≡ min (length piece.old) (length self.old) }
        ensures piece { piece.new ≡ take result self.old ++ drop result piece.old }
        ensures rest { self.new ≡ drop result self.old }
    {
        let count = piece.len().min(self.end - self.from);
        piece[..count].copy_from_slice(&self.bytes[self.from..self.from + count]);
        self.from += count;
        count
    }
}
