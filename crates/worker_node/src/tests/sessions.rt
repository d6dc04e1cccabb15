//! Sessions as a whole, as tables of what is sent and what is answered.
use super::frames::{
    Calls, DO, HELLO, LAYOUT, LOAD, QUIT, Sent, bytes_of, comes_to, pieces, replies,
};
use crate::Served;
use foz_words::{Key, NoMemory};
use std::alloc::Global;

const SAMPLER: Key = Key { tag: 1, hash: 1 };

const PIPELINE: Key = Key { tag: 7, hash: 7 };

/// A key with a tag that no kind has.
const NO_KIND: Key = Key { tag: 8, hash: 1 };

/// A Do of a layout without anything, as its bytes.
const LAYOUT_FRAME: &[u8; 72] =
    b"\x44\0\0\0\x03\x03\0\0\0\x03\0\0\0\0\0\0\0{\"pipelineLayouts\":{\"0000000000000003\":{}},\"version\":6}";

/// What is written where that is all: a Hello of 9 bytes and a Reply.
const ANSWERED: &[u8; 30] =
    b"\x05\0\0\0\x01FOZ\x01\x11\0\0\0\x04\0\0\0\0\x03\0\0\0\x03\0\0\0\0\0\0\0";

/// The words of the smallest compute module, as varints.
const COMPUTE: &[u8] =
    b"\x83\x84\x8c\x39\x80\x80\x04\x00\x05\x00\x91\x80\x08\x01\x8e\x80\x0c\x00\x01\x8f\x80\x14\x05\x01\
      \xed\xc2\xa5\xf3\x06\x00\x90\x80\x18\x01\x11\x01\x01\x01\x93\x80\x08\x02\xa1\x80\x0c\x03\x02\xb6\
      \x80\x14\x02\x01\x00\x03\xf8\x81\x08\x04\xfd\x81\x04\xb8\x80\x04";

const COMPUTE_PIPELINE: &str =
    "{\"layout\":\"0000000000000003\",\"stage\":{\"module\":\"0000000000000004\",\"name\":\"main\",\"stage\":32}}";

/// What is sent in a session, how that ends, and which code is answered to which key.
struct Session {
    name: &'static str,
    sent: &'static [Sent],
    end: Served,
    codes: &'static [(Key, u32)],
}

const SESSIONS: &[Session] = &[
    Session {
        name: "a state is created and answered",
        sent: &[Sent::Bytes(LAYOUT_FRAME), Sent::Bytes(QUIT)],
        end: Served::Quit,
        codes: &[(LAYOUT, 0)],
    },
    Session {
        name: "a pipeline without its layout is refused, and created once that is there",
        sent: &[
            Sent::Module(LOAD, 4, 35, COMPUTE),
            Sent::State(DO, PIPELINE, COMPUTE_PIPELINE),
            Sent::State(DO, LAYOUT, "{}"),
            Sent::State(DO, PIPELINE, COMPUTE_PIPELINE),
            Sent::Bytes(QUIT),
        ],
        end: Served::Quit,
        codes: &[(PIPELINE, 41), (LAYOUT, 0), (PIPELINE, 0)],
    },
    Session {
        name: "after a Load that can't be read, or that is refused, the next Do alone is refused",
        sent: &[
            Sent::Payload(LOAD, SAMPLER, b"{}"),
            Sent::State(DO, LAYOUT, "{}"),
            Sent::State(DO, LAYOUT, "{}"),
            Sent::State(LOAD, SAMPLER, "{\"magFilter\":2}"),
            Sent::State(LOAD, SAMPLER, "{}"),
            Sent::State(DO, LAYOUT, "{}"),
            Sent::State(DO, LAYOUT, "{}"),
            Sent::Bytes(QUIT),
        ],
        end: Served::Quit,
        codes: &[(LAYOUT, 200), (LAYOUT, 0), (LAYOUT, 200), (LAYOUT, 0)],
    },
    Session {
        name: "a Do that is no state is answered",
        sent: &[
            Sent::Payload(DO, SAMPLER, b"{}"),
            Sent::Payload(DO, NO_KIND, b""),
        ],
        end: Served::InputEnded { left: 0 },
        codes: &[(SAMPLER, 201), (NO_KIND, 201)],
    },
    Session {
        name: "nothing after a Quit is read",
        sent: &[
            Sent::Bytes(LAYOUT_FRAME),
            Sent::Payload(LOAD, SAMPLER, b"{}"),
            Sent::State(DO, LAYOUT, "{}"),
            Sent::Bytes(QUIT),
            Sent::Bytes(b"after the end"),
        ],
        end: Served::Quit,
        codes: &[(LAYOUT, 0), (LAYOUT, 200)],
    },
];

/// However long the pieces are that the input comes in, up to a hundred bytes, the session comes to the same.
fn in_pieces(alloc: Global, input: &[u8], end: Served, written: &[u8]) -> bool {
    let mut same = true;
    for step in 1..=100usize {
        same = comes_to(alloc, input, pieces(step), end, written) && same;
    }
    same
}

fn goes(alloc: Global, session: &Session) -> Result<bool, NoMemory> {
    let input = bytes_of(alloc, session.sent)?;
    let written = replies(alloc, session.codes)?;
    Ok(in_pieces(alloc, &input, session.end, &written))
}

fn goes_as_told(alloc: Global, session: &Session) -> bool {
    goes(alloc, session) == Ok(true)
}

#[test]
fn each_session_is_answered_whatever_the_pieces(rt: HostRuntime) {
    for session in SESSIONS {
        let name = session.name;
        assert!(rt; goes_as_told(rt.alloc(), session), "{name}");
    }
}

#[test]
fn an_input_that_ends_early_leaves_its_bytes(rt: HostRuntime) {
    for cut in 0..72usize {
        let end = Served::InputEnded { left: cut };
        assert!(rt; comes_to(rt.alloc(), &LAYOUT_FRAME[..cut], pieces(10), end, HELLO));
    }
    let end = Served::InputEnded { left: 0 };
    assert!(rt; comes_to(rt.alloc(), LAYOUT_FRAME, pieces(10), end, ANSWERED));
}

const BAD_FRAMES: &[(&[u8], u32)] = &[
    (b"\x02\0\0\0", 0),
    (b"\x01\0\0\0\x03", 4),
    (b"\x05\0\0\0\x01FOZ\x01", 0),
    (b"\x11\0\0\0\x04\0\0\0\0\x03\0\0\0\x03\0\0\0\0\0\0\0", 4),
];

fn after_a_frame(alloc: Global, bytes: &[u8]) -> Result<Vec<u8>, NoMemory> {
    let mut input = Vec::from_slice(alloc, LAYOUT_FRAME)?;
    input.extend_from_slice(bytes)?;
    Ok(input)
}

/// Whether a bad frame after another one is placed there.
fn is_placed_later(alloc: Global, bytes: &[u8], place: u32) -> bool {
    let end = Served::BadFrame {
        at: 72 + u64::from(place),
    };
    match after_a_frame(alloc, bytes) {
        Ok(input) => comes_to(alloc, &input, pieces(50), end, ANSWERED),
        Err(_) => false,
    }
}

/// Whether a bad frame is placed there, alone and after another frame.
fn is_placed(alloc: Global, bytes: &[u8], place: u32) -> bool {
    let at = u64::from(place);
    comes_to(alloc, bytes, pieces(3), Served::BadFrame { at }, HELLO)
        && is_placed_later(alloc, bytes, place)
}

#[test]
fn a_bad_frame_is_placed_from_the_first_byte(rt: HostRuntime) {
    for (bytes, place) in BAD_FRAMES {
        assert!(rt; is_placed(rt.alloc(), *bytes, *place));
    }
}

/// The calls of the source and of the sink that fail, how the session ends, and how many bytes of the answer are written then. Two
/// calls write a Hello, and three a Reply.
const FAILED_CALLS: &[(&[u64], &[u64], Served, usize)] = &[
    (&[0], &[], Served::ReadFault, 9),
    (&[1], &[], Served::ReadFault, 30),
    (&[], &[0], Served::WriteFault, 0),
    (&[], &[1], Served::WriteFault, 7),
    (&[], &[3], Served::WriteFault, 16),
];

#[test]
fn a_failed_call_ends_the_session(rt: HostRuntime) {
    for (reads, writes, end, written) in FAILED_CALLS {
        let calls = Calls {
            step: 1000,
            reads: *reads,
            writes: *writes,
        };
        let written = &ANSWERED[..(*written).min(30)];
        assert!(rt; comes_to(rt.alloc(), LAYOUT_FRAME, calls, *end, written));
    }
}
