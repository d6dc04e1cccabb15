ghost use Rattle.std.specs.Prelude.{◌≡◌, ◌+◌, ◌<◌, ◌^◌, length};
ghost use Rattle.worker_msg.specs.Feeds.{given_to};
ghost use Rattle.worker_msg.specs.Frames.{HasFittingPayload};
ghost use Rattle.worker_msg.specs.declared.side.Side.TheVariants.{Crew};

use super::*;
use foz_words::{Key, Row};
use std::alloc::Global;
use std::mem::drop;

const KEY: Key = Key {
    tag: 3,
    hash: 0x0102_0304_0506_0708,
};

const PAYLOAD: [u8; 3] = [0x7B, 0, 0x7D];

const HELLO: [u8; 9] = [5, 0, 0, 0, 1, 0x46, 0x4F, 0x5A, 1];

/// The frame of a Load of the key with that payload.
const LOAD: [u8; 20] = [
    16, 0, 0, 0, 2, 3, 0, 0, 0, 8, 7, 6, 5, 4, 3, 2, 1, 0x7B, 0, 0x7D,
];

/// A Do of the key without a payload.
const EMPTY: [u8; 17] = [13, 0, 0, 0, 3, 3, 0, 0, 0, 8, 7, 6, 5, 4, 3, 2, 1];

/// A Reply of the key with the code 41.
const REPLY: [u8; 21] = [
    17, 0, 0, 0, 4, 41, 0, 0, 0, 3, 0, 0, 0, 8, 7, 6, 5, 4, 3, 2, 1,
];

const QUIT: [u8; 5] = [1, 0, 0, 0, 5];

// ---- writing

fn load(alloc: Global) -> Msg
    ensures { HasFittingPayload result }
{
    let mut payload = Row::new(alloc);
    if payload.extend(&PAYLOAD).is_err() {
        return Msg::Quit;
    }
    Msg::Load { key: KEY, payload }
}

fn is_spelled(alloc: Global, message: &Msg, bytes: &[u8]) -> bool
    requires { HasFittingPayload message.now }
{
    let mut out = Vec::new(alloc);
    write_msg(&mut out, message).is_ok() && out.as_slice() == bytes
}

#[test]
fn each_message_has_its_bytes(rt: HostRuntime) {
    let alloc = rt.alloc();
    assert!(rt; is_spelled(alloc, &Msg::Hello, &HELLO));
    assert!(rt; is_spelled(alloc, &load(alloc), &LOAD));
    assert!(rt; is_spelled(alloc, &Msg::Reply { key: KEY, code: 41 }, &REPLY));
    assert!(rt; is_spelled(alloc, &Msg::Quit, &QUIT));
}

#[test]
fn frames_are_laid_without_memory(rt: HostRuntime) {
    assert_eq!(rt; hello_frame(), HELLO);
    assert_eq!(rt; reply_frame(&KEY, 41), REPLY);
    assert_eq!(rt; quit_frame(), QUIT);
    let mut laid = [9u8; 22];
    assert_eq!(rt; lay_msg(&mut laid, true, KEY, &[0x7B, 0, 0x7D]), 20);
    assert_eq!(rt; &laid[..20], LOAD.as_slice());
    assert_eq!(rt; &laid[20..], [9u8, 9].as_slice());
}

// ---- a worker's feed

/// Whether this is a Load, where `load` is true, or a Do of the key with this payload.
fn is_work(taken: &Result<Option<Msg>, TakeFrame>, load: bool, bytes: &[u8]) -> bool {
    match taken {
        Ok(Some(Msg::Load { key, payload })) => load && *key == KEY && payload.as_slice() == bytes,
        Ok(Some(Msg::Do { key, payload })) => !load && *key == KEY && payload.as_slice() == bytes,
        _ => false,
    }
}

fn is_bad(taken: &Result<Option<Msg>, TakeFrame>, place: u64) -> bool {
    matches!(taken, Err(TakeFrame::BadFrame { at }) if *at == place)
}

/// What a worker's feed takes from bytes that come in two pieces, with a try between them.
fn taken_from(alloc: Global, first: &[u8], second: &[u8]) -> Result<Option<Msg>, TakeFrame>
    requires { length first.now + length second.now < 2 ^ 63 }
{
    let mut feed = Feed::new(alloc, Side::Worker);
    feed.push(first)?;
    let early = feed.take(alloc)?;
    if early.is_some() {
        return Ok(early);
    }
    feed.push(second)?;
    feed.take(alloc)
}

#[test]
fn a_frame_cut_anywhere_is_taken_whole(rt: HostRuntime) {
    for cut in 0..21usize {
        assert!(rt;
            is_work(
                &taken_from(rt.alloc(), &LOAD[..cut], &LOAD[cut..]),
                true,
                &PAYLOAD
            )
        );
    }
    assert!(rt; is_work(&taken_from(rt.alloc(), &EMPTY, &[]), false, &[]));
    let longest = [13, 0, 0, 1, 2];
    assert!(rt; matches!(&taken_from(rt.alloc(), &longest, &[]), Ok(None)));
}

#[test]
fn a_bad_frame_is_placed_wherever_it_is_cut(rt: HostRuntime) {
    let table: [([u8; 5], u64); 6] = [
        ([2, 0, 0, 0, 5], 0),
        ([12, 0, 0, 0, 2], 0),
        ([14, 0, 0, 1, 2], 0),
        ([1, 0, 0, 0, 3], 4),
        ([13, 0, 0, 0, 5], 4),
        ([17, 0, 0, 0, 4], 4),
    ];
    for (bytes, place) in table.iter() {
        for cut in 0..6usize {
            assert!(rt;
                is_bad(
                    &taken_from(rt.alloc(), &bytes[..cut], &bytes[cut..]),
                    *place
                )
            );
        }
    }
}

/// Whether a worker's feed takes the Quit before a bad frame, places that from the first byte of all, and does so again after
/// another Quit came.
fn stays_bad(alloc: Global) -> Result<bool, TakeFrame> {
    let mut feed = Feed::new(alloc, Side::Worker);
    feed.push(&[1, 0, 0, 0, 5, 1, 0, 0, 0, 3])?;
    let quits = matches!(&feed.take(alloc), Ok(Some(Msg::Quit)));
    let is_placed = is_bad(&feed.take(alloc), 9);
    feed.push(&QUIT)?;
    Ok(quits && is_placed && is_bad(&feed.take(alloc), 9))
}

#[test]
fn a_bad_frame_stays_one(rt: HostRuntime) {
    assert!(rt; matches!(&stays_bad(rt.alloc()), Ok(true)));
}

// ---- a crew's feed

/// What a crew's feed took.
#[derive(Clone, Copy)]
enum Taken {
    Nothing,
    Hello,
    /// The Reply above.
    Reply,
    Other,
}

fn taken_by_crew(alloc: Global, feed: &mut Feed) -> Taken
    requires { feed.old.side ≡ Crew }
    ensures side { feed.new.side ≡ Crew }
    ensures given { given_to feed.new ≡ given_to feed.old }
{
    match feed.take(alloc) {
        Ok(None) => Taken::Nothing,
        Ok(Some(Msg::Hello)) => Taken::Hello,
        Ok(Some(Msg::Reply { key, code: 41 })) if key == KEY => Taken::Reply,
        Ok(Some(message)) => {
            drop(message);
            Taken::Other
        }
        Err(_) => Taken::Other,
    }
}

/// Whether a crew's feed, of which all is taken, reads a Hello and a Reply, and keeps no more than a Reply meanwhile.
fn reads_both(alloc: Global) -> bool {
    let mut feed = Feed::new(alloc, Side::Crew);
    let hello = feed.push_reply(&HELLO);
    let begun = feed.push_reply(&REPLY);
    let none = feed.push_reply(&REPLY);
    let first = taken_by_crew(alloc, &mut feed);
    let second = taken_by_crew(alloc, &mut feed);
    let kept = feed.left();
    let rest = feed.push_reply(&REPLY[12..]);
    let third = taken_by_crew(alloc, &mut feed);
    let counts = [hello, begun, none, kept, rest, feed.left()];
    counts == [9, 12, 0, 12, 9, 0]
        && matches!(
            (first, second, third),
            (Taken::Hello, Taken::Nothing, Taken::Reply)
        )
}

#[test]
fn a_crew_reads_a_hello_and_a_reply(rt: HostRuntime) {
    assert!(rt; reads_both(rt.alloc()));
}

fn crew_takes(alloc: Global, bytes: &[u8]) -> Result<Option<Msg>, TakeFrame>
    requires { length bytes.now < 2 ^ 63 }
{
    let mut feed = Feed::new(alloc, Side::Crew);
    feed.push_reply(bytes);
    feed.take(alloc)
}

#[test]
fn a_crew_places_bad_frames(rt: HostRuntime) {
    let table: [(&[u8], u64); 5] = [
        (&[5, 0, 0, 0, 1, 0x46, 0x4F, 0x5B], 7),
        (&[17, 0, 0, 0, 1], 4),
        (&[5, 0, 0, 0, 4], 4),
        (&[5, 1], 0),
        (&[6], 0),
    ];
    for (bytes, place) in table.iter() {
        let bytes: &[u8] = *bytes;
        assert!(rt; bytes.len() < 22 && is_bad(&crew_takes(rt.alloc(), bytes), *place));
    }
}
