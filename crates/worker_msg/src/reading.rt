// A whole frame as a message.
ghost use Rattle.std.specs.Prelude.{◌≡◌, ◌≢◌, ◌≤◌, ◌++◌, length, drop, slice_index, MatchResult};
ghost use Rattle.worker_msg.specs.Frames.{IsFrame, IsKey, key_bytes};
ghost use Rattle.worker_msg.specs.Feeds.{Spells, HasPayload};
ghost use Rattle.worker_msg.specs.declared.side.Side.TheVariants.{Worker, Crew};

use crate::heads::HELLO;
use crate::msg::Msg;
use crate::side::Side;
use foz_words::{Key, NoMemory, Row, get_le32, get_le64};
use std::alloc::Global;

/// The message that a frame spells. Memory is taken for a payload alone.
pub(crate) fn message_of(alloc: Global, side: Side, frame: &[u8]) -> Result<Msg, NoMemory>
    requires { IsFrame side frame.now }
    ensures { MatchResult result (λ message. Spells side frame.now message) (λ _. HasPayload side frame.now) }
{
    match side {
        Side::Worker => work_of(alloc, frame),
        Side::Crew => Ok(answer_of(frame)),
    }
}

fn work_of(alloc: Global, frame: &[u8]) -> Result<Msg, NoMemory>
    requires frame { IsFrame Worker frame.now }
    requires kind { 5 ≤ length frame.now }
    requires key { slice_index frame.now 4 ≢ 5 → 17 ≤ length frame.now }
    ensures { MatchResult result (λ message. Spells Worker frame.now message) (λ _. HasPayload Worker frame.now) }
{
    let kind = frame[4];
    if kind == 5 {
        return Ok(Msg::Quit);
    }
    let key = key_of(&frame[5..]);
    let payload = Row::from_vec(Vec::from_slice(alloc, &frame[17..])?);
    if kind == 2 {
        Ok(Msg::Load { key, payload })
    } else {
        Ok(Msg::Do { key, payload })
    }
}

fn answer_of(frame: &[u8]) -> Msg
    requires frame { IsFrame Crew frame.now }
    requires reply { length frame.now ≢ 9 → length frame.now ≡ 21 }
    ensures { Spells Crew frame.now result }
{
    if frame.len() == HELLO.len() {
        return Msg::Hello;
    }
    let Some(code) = get_le32(&frame[5..]) else {
        unreachable!()
    };
    Msg::Reply {
        key: key_of(&frame[9..]),
        code,
    }
}

/// The key whose bytes stand at the beginning.
fn key_of(fields: &[u8]) -> Key
    requires { 12 ≤ length fields.now }
    ensures spelled { fields.now ≡ key_bytes result ++ drop 12 fields.now }
    ensures within { IsKey result }
{
    let (Some(tag), Some(hash)) = (get_le32(fields), get_le64(&fields[4..])) else {
        unreachable!()
    };
    Key { tag, hash }
}
