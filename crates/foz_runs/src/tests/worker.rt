//! `worker`: sessions with the shipped driver, whose frames are written here byte by byte.
use super::{Case, Given, NOTHING, ROOM, Wanted, expect_cases, joined, run_over};
use std::alloc::Global;
use std::process::Abort;
use std::sync::Wait;
use std::test::Fail;
use std::thread::Threads;

// The frames: an end,
const QUIT: &[u8] = b"\x01\0\0\0\x05";

// a layout of nothing to be created,
const DO_LAYOUT: &[u8] =
    b"\x44\x00\x00\x00\x03\x03\x00\x00\x00\x03\x00\x00\x00\x00\x00\x00\x00{\"pipelineLayouts\":{\"\
    0000000000000003\":{}},\"version\":6}";

// and loaded,
const LOAD_LAYOUT: &[u8] =
    b"\x44\x00\x00\x00\x02\x03\x00\x00\x00\x03\x00\x00\x00\x00\x00\x00\x00{\"pipelineLayouts\":{\"\
    0000000000000003\":{}},\"version\":6}";

// the smallest compute module to be loaded,
const LOAD_MODULE: &[u8] =
    b"\xbc\x00\x00\x00\x02\x04\x00\x00\x00\x04\x00\x00\x00\x00\x00\x00\x00{\"shaderModules\":{\"0\
    000000000000004\":{\"codeSize\":140,\"flags\":0,\"varintOffset\":0,\"varintSize\":64}},\"ve\
    rsion\":6}\0\x83\x84\x8c\x39\x80\x80\x04\x00\x05\x00\x91\x80\x08\x01\x8e\x80\x0c\x00\x01\x8f\
    \x80\x14\x05\x01\xed\xc2\xa5\xf3\x06\x00\x90\x80\x18\x01\x11\x01\x01\x01\x93\x80\x08\x02\xa1\
    \x80\x0c\x03\x02\xb6\x80\x14\x02\x01\x00\x03\xf8\x81\x08\x04\xfd\x81\x04\xb8\x80\x04";

// a pipeline of both to be created,
const DO_PIPELINE: &[u8] =
    b"\x9f\x00\x00\x00\x03\x07\x00\x00\x00\x07\x00\x00\x00\x00\x00\x00\x00{\"computePipelines\":{\
    \"0000000000000007\":{\"layout\":\"0000000000000003\",\"stage\":{\"module\":\"0000000000000\
    004\",\"name\":\"main\",\"stage\":32}}},\"version\":6}";

// what is no state to be loaded,
const LOAD_NO_STATE: &[u8] =
    b"\x0f\x00\x00\x00\x02\x01\x00\x00\x00\x01\x00\x00\x00\x00\x00\x00\x00{}";

// and created.
const DO_NO_STATE: &[u8] =
    b"\x0f\x00\x00\x00\x03\x01\x00\x00\x00\x01\x00\x00\x00\x00\x00\x00\x00{}";

// What is written: a beginning,
const HELLO: &[u8] = b"\x05\0\0\0\x01FOZ\x01";

// and the replies.
const LAYOUT_DONE: &[u8] =
    b"\x11\0\0\0\x04\x00\x00\x00\x00\x03\x00\x00\x00\x03\x00\x00\x00\x00\x00\x00\x00";

const LAYOUT_UNREADY: &[u8] =
    b"\x11\0\0\0\x04\xc8\x00\x00\x00\x03\x00\x00\x00\x03\x00\x00\x00\x00\x00\x00\x00";

const PIPELINE_DONE: &[u8] =
    b"\x11\0\0\0\x04\x00\x00\x00\x00\x07\x00\x00\x00\x07\x00\x00\x00\x00\x00\x00\x00";

const PIPELINE_REFUSED: &[u8] =
    b"\x11\0\0\0\x04\x29\x00\x00\x00\x07\x00\x00\x00\x07\x00\x00\x00\x00\x00\x00\x00";

const NO_STATE: &[u8] =
    b"\x11\0\0\0\x04\xc9\x00\x00\x00\x01\x00\x00\x00\x01\x00\x00\x00\x00\x00\x00\x00";

/// The frames that a session is given, its status, what is written and said.
type Session = (
    &'static [&'static [u8]],
    u8,
    &'static [&'static [u8]],
    &'static str,
);

const SESSIONS: &[Session] = &[
    (&[DO_LAYOUT, QUIT], 0, &[HELLO, LAYOUT_DONE], ""),
    (
        &[LOAD_MODULE, DO_PIPELINE, QUIT],
        0,
        &[HELLO, PIPELINE_REFUSED],
        "",
    ),
    (
        &[LOAD_MODULE, LOAD_LAYOUT, DO_PIPELINE, QUIT],
        0,
        &[HELLO, PIPELINE_DONE],
        "",
    ),
    (
        &[LOAD_NO_STATE, DO_LAYOUT, DO_LAYOUT, QUIT],
        0,
        &[HELLO, LAYOUT_UNREADY, LAYOUT_DONE],
        "",
    ),
    (&[DO_NO_STATE], 0, &[HELLO, NO_STATE], ""),
    (&[b"\x02\0\0\0"], 1, &[HELLO], "foz: bad frame 0\n"),
    (&[b"\x01\0\0\0\x03"], 1, &[HELLO], "foz: bad frame 4\n"),
    (
        &[DO_LAYOUT, b"\x01\0\0\0\x03"],
        1,
        &[HELLO, LAYOUT_DONE],
        "foz: bad frame 76\n",
    ),
];

fn expect_session(
    rt: &(impl Abort + Wait + Threads + Sync),
    alloc: Global,
    frames: &[&[u8]],
    status: u8,
    output: &[&[u8]],
    errors: &'static str,
) -> Result<(), Fail> {
    let input = joined(alloc, frames)?;
    let output = joined(alloc, output)?;
    let given = Given {
        words: "worker",
        input: &input,
        ..NOTHING
    };
    let left = run_over(rt, alloc, None, ROOM, &given)?;
    assert_eq!(rt; left.errors.as_slice(), errors.as_bytes());
    assert_eq!(rt; left.output.as_slice(), output.as_slice());
    assert_eq!(rt; left.status, status);
    Ok(())
}

#[test]
fn frames_are_answered(rt: HostRuntime) -> Result<(), Fail> {
    for (frames, status, output, errors) in SESSIONS {
        expect_session(&rt, rt.alloc(), frames, *status, output, errors)?;
    }
    Ok(())
}

#[test]
fn an_input_without_a_quit_is_served(rt: HostRuntime) -> Result<(), Fail> {
    for cut in [0, 3, 71] {
        let prefix = &DO_LAYOUT[..cut];
        expect_session(&rt, rt.alloc(), &[prefix], 0, &[HELLO], "")?;
        expect_session(
            &rt,
            rt.alloc(),
            &[DO_LAYOUT, prefix],
            0,
            &[HELLO, LAYOUT_DONE],
            "",
        )?;
    }
    Ok(())
}

// Two calls write a beginning, and the third the first bytes of a reply.
const FAULTS: &[Case] = &[
    (
        Given {
            words: "worker",
            input: DO_LAYOUT,
            input_failing: &[1],
            ..NOTHING
        },
        Wanted {
            status: 3,
            output: b"\x05\0\0\0\x01FOZ\x01\x11\0\0\0\x04\x00\x00\x00\x00\x03\x00\x00\x00\x03\x00\x00\x00\x00\x00\x00\x00",
            errors: "foz: read fault\n",
            file: None,
        },
    ),
    (
        Given {
            words: "worker",
            input: DO_LAYOUT,
            output_failing: &[3],
            ..NOTHING
        },
        Wanted {
            status: 4,
            output: b"\x05\0\0\0\x01FOZ\x01\x11\0\0\0\x04\0\0",
            errors: "foz: write fault\n",
            file: None,
        },
    ),
];

#[test]
fn a_worker_tells_a_fault(rt: HostRuntime) -> Result<(), Fail> {
    expect_cases(&rt, rt.alloc(), FAULTS)
}
