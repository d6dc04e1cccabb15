// What stands at the beginning of the bytes that a feed keeps.
ghost use Rattle.std.specs.Prelude.{◌≡◌, ◌≢◌, ◌+◌, ◌<◌, ◌≤◌, ◌↔◌, length, take, slice_index, IsTrue, IfSome, IfNone};
ghost use Rattle.worker_msg.specs.Frames.{IsWorkLength, IsWorkKind};
ghost use Rattle.worker_msg.specs.Fronts.{Stands, IsHead};
ghost use Rattle.worker_msg.specs.declared.side.Side.TheVariants.{Worker, Crew};

use crate::heads::{HELLO, REPLY_HEAD};
use crate::side::Side;
use foz_words::get_le32;

/// The longest body: a kind, a key and the longest payload.
const LONGEST: u32 = 13 + 16_777_216;

#[derive(Clone, Copy, Debug)]
pub(crate) enum Front {
    /// No more than the beginning of a frame, or nothing.
    Partial,
    /// No frame: the first byte that is in none, or the length if it is one of its four.
    Bad { place: usize },
    /// A frame of so many bytes.
    Whole { len: usize },
}

pub(crate) fn look(side: Side, bytes: &[u8]) -> Front
    ensures { Stands side bytes.now result }
{
    match side {
        Side::Worker => look_worker(bytes),
        Side::Crew => look_crew(bytes),
    }
}

fn look_worker(bytes: &[u8]) -> Front
    ensures { Stands Worker bytes.now result }
{
    let Some(length) = get_le32(bytes) else {
        // Whatever three bytes are, there is a Load whose length begins with them.
        return Front::Partial;
    };
    if !is_work_length(length) {
        return Front::Bad { place: 0 };
    }
    if bytes.len() == 4 {
        return Front::Partial;
    }
    if !is_work_kind(length, bytes[4]) {
        return Front::Bad { place: 4 };
    }
    if bytes.len() - 4 < length as usize {
        return Front::Partial;
    }
    Front::Whole {
        len: 4 + length as usize,
    }
}

fn is_work_length(length: u32) -> bool
    ensures { IsTrue result ↔ IsWorkLength length }
{
    length == 1 || (13 <= length && length <= LONGEST)
}

fn is_work_kind(length: u32, kind: u8) -> bool
    ensures { IsTrue result ↔ IsWorkKind length kind }
{
    match kind {
        2 | 3 => length != 1,
        5 => length == 1,
        _ => false,
    }
}

fn look_crew(bytes: &[u8]) -> Front
    ensures { Stands Crew bytes.now result }
{
    match bytes.first() {
        None => Front::Partial,
        Some(5) => look_head(bytes, &HELLO, 0),
        Some(17) => look_head(bytes, &REPLY_HEAD, 16),
        Some(_) => Front::Bad { place: 0 },
    }
}

/// What stands there, where the first byte is that of frames which are this head and so many bytes more.
fn look_head(bytes: &[u8], head: &[u8], more: usize) -> Front
    requires head { IsHead head.now more }
    requires some { 0 < length bytes.now }
    requires first { slice_index bytes.now 0 ≡ slice_index head.now 0 }
    ensures { Stands Crew bytes.now result }
{
    if let Some(at) = first_difference(bytes, head) {
        return Front::Bad {
            place: if at < 4 { 0 } else { at },
        };
    }
    if bytes.len() < head.len() + more {
        return Front::Partial;
    }
    Front::Whole {
        len: head.len() + more,
    }
}

/// The first place where the bytes differ, as far as both go.
fn first_difference(bytes: &[u8], head: &[u8]) -> Option<usize>
    ensures within { IfSome result (λ at. (at < length bytes.now) × (at < length head.now)) }
    ensures same { IfSome result (λ at. take at bytes.now ≡ take at head.now) }
    ensures differ { IfSome result (λ at. slice_index bytes.now at ≢ slice_index head.now at) }
    ensures none { IfNone result (take (length head.now) bytes.now ≡ take (length bytes.now) head.now) }
{
    let shorter = bytes.len().min(head.len());
    for at in 0..shorter {
        if bytes[at] != head[at] {
            return Some(at);
        }
    }
    None
}
