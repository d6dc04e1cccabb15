//! The text of the command `put`.
ghost use Rattle.std.specs.Prelude.{◌≡◌, ◌++◌, OnOk, OnErr};
ghost use Rattle.foz_text.specs.PutText.{put_text};

use foz_words::NoMemory;
use record_words::RecordReply;
use std::alloc::Global;

/// Adds the line of a reply that has one. An `Err` changes nothing.
#[tactic(auto, unfolding(crate::specs::PutText::put_text))]
pub fn push_put(alloc: Global, out: &mut Vec<u8>, reply: &RecordReply) -> Result<(), NoMemory>
    ensures text { OnOk result (out.new.items ≡ out.old.items ++ put_text reply.now) }
    ensures refused { OnErr result (out.new.items ≡ out.old.items) }
{
    let line = match reply {
        RecordReply::New { index } => format!(in alloc; "new {index}\n")?,
        RecordReply::Known { index } => format!(in alloc; "known {index}\n")?,
        RecordReply::Collision { index } => format!(in alloc; "collision {index}\n")?,
        RecordReply::TooLarge { size } => format!(in alloc; "too large {size}\n")?,
        _ => return Ok(()),
    };
    out.extend_from_slice(line.as_bytes())?;
    Ok(())
}
