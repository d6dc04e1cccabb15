// What a frame asks for.
ghost use Rattle.std.specs.Prelude.{◌≡◌};
ghost use Rattle.worker_msg.specs.Feeds.{Spells};
ghost use Rattle.worker_msg.specs.Frames.{IsKey};
ghost use Rattle.worker_msg.specs.declared.msg.Msg.{Msg};
ghost use Rattle.worker_msg.specs.declared.side.Side.TheVariants.{Worker};
ghost use Rattle.mem_slot.specs.Acts.{key_asked};

use foz_words::{Key, get_le32, get_le64};

/// The key that a Do asks for, `None` for another frame.
pub(crate) fn asked_key(frame: &[u8]) -> Option<Key>
    ensures { (message : Msg) → Spells Worker frame.now message → result ≡ key_asked message }
{
    if frame.len() < 17 || frame[4] != 3 {
        return None;
    }
    let (Some(tag), Some(hash)) = (get_le32(&frame[5..]), get_le64(&frame[9..])) else {
        return None;
    };
    Some(key_of(tag, hash))
}

fn key_of(tag: u32, hash: u64) -> Key
    ensures key { result ≡ record { tag = tag; hash = hash } }
    ensures within { IsKey result }
{
    Key { tag, hash }
}
