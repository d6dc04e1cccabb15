//! The text of a record that has each reply, with the causes of a test.
ghost use Rattle.std.specs.Prelude.{codes, decimal, ◌++◌};

use foz_text::{CauseText, push_record};
use foz_words::{Key, NoMemory};
use record_words::{Answered, LineAnswer, RecordReply};
use std::alloc::Global;
use std::test::Fail;

#[derive(Debug, Drop)]
struct At(u32);

impl CauseText for At {
    ghost text = { λ cause. codes "at " ++ decimal cause.0 };

    fn push_text(&self, alloc: Global, out: &mut Vec<u8>) -> Result<(), NoMemory> {
        let place = self.0;
        let words = format!(in alloc; "at {place}")?;
        out.extend_from_slice(words.as_bytes())?;
        Ok(())
    }
}

const KEY: Key = Key { tag: 7, hash: 0xAB };

// The lines of a capture, and what they are answered.
const REPLIES: &[(u32, RecordReply)] = &[
    (1, RecordReply::New { index: 4 }),
    (2, RecordReply::Known { index: 4 }),
    (3, RecordReply::Known { index: 0 }),
    (4, RecordReply::Collision { index: 4 }),
    (5, RecordReply::TooLarge { size: 16_777_217 }),
    (
        6,
        RecordReply::Full {
            end: 268_435_456,
            need: 56,
        },
    ),
    (7, RecordReply::TooMany { count: 1_048_576 }),
];

/// The replies, and a line that is refused.
fn answers(alloc: Global) -> Result<Vec<Answered<At>>, Fail> {
    let mut answers = Vec::new(alloc);
    for (line, reply) in REPLIES {
        answers.push(Answered {
            line: *line,
            answer: LineAnswer::Replied {
                key: KEY,
                reply: *reply,
            },
        })?;
    }
    answers.push(Answered {
        line: 10,
        answer: LineAnswer::Refused(At(17)),
    })?;
    Ok(answers)
}

fn text_of(alloc: Global, answers: &[Answered<At>]) -> Result<Vec<u8>, Fail> {
    let mut text = Vec::from_slice(alloc, b"before\n")?;
    push_record(alloc, &mut text, answers, 5)?;
    Ok(text)
}

#[test]
fn a_record_has_a_line_for_each_answer(rt: HostRuntime) -> Result<(), Fail> {
    let answers = answers(rt.alloc())?;
    let text = text_of(rt.alloc(), &answers)?;
    assert_eq!(rt;
        str::from_utf8(&text)?,
        "before\n\
         1 7 00000000000000ab new 4\n\
         2 7 00000000000000ab known 4\n\
         3 7 00000000000000ab known 0\n\
         4 7 00000000000000ab collision 4\n\
         5 7 00000000000000ab too large 16777217\n\
         6 7 00000000000000ab full 268435456 56\n\
         7 7 00000000000000ab too many\n\
         10 refused at 17\n\
         new 1 known 2 refused 5 entries 5\n"
    );
    Ok(())
}
