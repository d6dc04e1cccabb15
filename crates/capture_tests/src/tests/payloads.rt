//! The payloads of states, as they are published or worked by hand.
ghost use Rattle.state_words.specs.Words.{IsOrdinaryState};

use super::state_of as state_of_line;
use foz_payload::{Unreadable, payload_of, state_of};
use foz_words::{Key, Row};
use spirv_varint::{VarintError, encode};
use state_words::{State, key_of};
use std::alloc::Global;
use std::process::Abort;
use std::test::Fail;

fn cause_of(answer: &Result<State, Unreadable>) -> &'static str {
    match answer {
        Ok(_) => "read",
        Err(Unreadable::WrongTag { .. }) => "wrong tag",
        Err(Unreadable::NoZeroByte) => "no zero byte",
        Err(Unreadable::Float { at: 5 }) => "a float",
        Err(Unreadable::BadJson) => "bad JSON",
        Err(Unreadable::NoSuchState) => "no such state",
        Err(Unreadable::Field(..)) => "a field",
        Err(Unreadable::CodeSize { stated: 2 }) => "code size",
        Err(
            Unreadable::Window {
                offset: 4294967295,
                size: 1,
                have: 0,
            },
        ) => "window",
        Err(Unreadable::Varint(VarintError::Short { at: 1 })) => "varint",
        Err(_) => "another",
    }
}

// A tag, a payload under it and the hash 4, and the answer.
const CAUSES: &[(u32, &[u8], &str)] = &[
    (0, b"", "wrong tag"),
    (8, b"", "wrong tag"),
    (1, b"", "bad JSON"),
    (5, b"", "bad JSON"),
    (4, b"{", "no zero byte"),
    (4, b"{\x00", "bad JSON"),
    (1, b"{\"a\":1.5", "a float"),
    (1, b"[]", "no such state"),
    (
        1,
        b"{\"samplers\":{\"0000000000000005\":{}}}",
        "no such state",
    ),
    (
        1,
        b"{\"samplers\":{\"0000000000000004\":[]}}",
        "no such state",
    ),
    (
        1,
        b"{\"samplers\":{\"0000000000000004\":{\"pNext\":0}}}",
        "a field",
    ),
    (
        1,
        b"{\"samplers\":{\"0000000000000004\":{}},\"pNext\":0}\x00\xFF",
        "read",
    ),
    (
        4,
        b"{\"shaderModules\":{\"0000000000000004\":{\"codeSize\":2}}}\x00",
        "code size",
    ),
    (
        4,
        b"{\"shaderModules\":{\"0000000000000004\":{\"varintOffset\":4294967295,\"varintSize\":1}}}\x00",
        "window",
    ),
    (
        4,
        b"{\"shaderModules\":{\"0000000000000004\":{\"codeSize\":4,\"varintSize\":1}}}\x00\x80",
        "varint",
    ),
    (
        4,
        b"{\"shaderModules\":{\"0000000000000004\":{\"codeSize\":4,\"varintOffset\":1,\"varintSize\":1}}}\x00\x80\x07\x80",
        "read",
    ),
];

#[test]
fn the_first_cause_is_answered(rt: HostRuntime) {
    for (tag, payload, expected) in CAUSES {
        assert_eq!(rt; answer_to(rt.alloc(), *tag, payload), *expected);
    }
}

fn answer_to(alloc: Global, tag: u32, payload: &[u8]) -> &'static str {
    cause_of(&state_of(alloc, Key { tag, hash: 4 }, payload))
}

// The minimal compute module.
const WORDS: [u32; 35] = [
    0x0723_0203,
    0x0001_0000,
    0,
    5,
    0,
    0x0002_0011,
    1,
    0x0003_000E,
    0,
    1,
    0x0005_000F,
    5,
    1,
    0x6E69_616D,
    0,
    0x0006_0010,
    1,
    0x11,
    1,
    1,
    1,
    0x0002_0013,
    2,
    0x0003_0021,
    3,
    2,
    0x0005_0036,
    2,
    1,
    0,
    3,
    0x0002_00F8,
    4,
    0x0001_00FD,
    0x0001_0038,
];

/// A payload with the words as varints.
fn payload_with(alloc: Global, head: &[u8], words: &[u32]) -> Result<Vec<u8>, Fail> {
    let varints = encode(alloc, words)?;
    let mut payload = Vec::from_slice(alloc, head)?;
    payload.push(0)?;
    payload.extend_from_slice(varints.as_slice())?;
    Ok(payload)
}

#[test]
fn a_module_is_read_from_its_varints(rt: HostRuntime) -> Result<(), Fail> {
    let payload = payload_with(
        rt.alloc(),
        b"{\"shaderModules\":{\"0000000000000004\":{\"codeSize\":140,\"flags\":0,\"varintOffset\":0,\"varintSize\":64}},\"version\":6}",
        &WORDS,
    )?;
    assert_eq!(rt; payload.len(), 175);
    assert!(rt;
        has_code(
            &state_of(rt.alloc(), Key { tag: 4, hash: 4 }, &payload),
            &WORDS
        )
    );
    Ok(())
}

fn has_code(answer: &Result<State, Unreadable>, words: &[u32]) -> bool {
    match answer {
        Ok(State::ShaderModule(module)) => module.code.as_slice() == words,
        _ => false,
    }
}

// The minimal compute module as a line.
const MODULE: &[u8] =
    b"shader_module {\"code\":\"AwIjBwAAAQAAAAAABQAAAAAAAAARAAIAAQAAAA4AAwAAAAAAAQAAAA8ABQAFAAAAAQAAAG1haW4AAAAAEAAGAAEAAAARAAAAAQAAAAEAAAABAAAAEwACAAIAAAAhAAMAAwAAAAIAAAA2AAUAAgAAAAEAAAAAAAAAAwAAAPgAAgAEAAAA/QABADgAAQA=\"}";

// The 35 words of the module take 64 bytes as varints.
#[test]
fn a_payload_is_compact_json_and_varints(rt: HostRuntime) -> Result<(), Fail> {
    let state = state_of_line(rt.alloc(), MODULE)?;
    is_in_payload(&rt, rt.alloc(), &state)
}

fn is_in_payload(rt: &impl Abort, alloc: Global, state: &State) -> Result<(), Fail>
    requires { IsOrdinaryState state.now }
{
    let payload = payload_of(alloc, state)?;
    assert_eq!(rt; payload.len(), 175);
    let json = head_under(alloc, key_of(state).hash)?;
    assert!(rt; payload.as_slice().starts_with(json.as_bytes()));
    Ok(())
}

/// The JSON of the payload with the module, and the zero byte after it.
fn head_under(alloc: Global, hash: u64) -> Result<String, Fail> {
    Ok(format!(in alloc;
        "{{\"shaderModules\":{{\"{hash:016x}\":{{\"codeSize\":140,\"flags\":0,\"varintOffset\":0,\"varintSize\":64}}}},\"version\":6}}\0"
    )?)
}
