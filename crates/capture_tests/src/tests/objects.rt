//! States as JSON: texts as they are parsed, and objects by their kind.
use serde_json::Value;
use state_json::{JsonKind, ParseError, parse, state_from, value_of};
use state_words::State;
use std::alloc::Global;
use std::process::Abort;
use std::test::Fail;

const FAULTS: &[(&[u8], ParseError)] = &[
    (b"", ParseError::Json),
    (b"{\"a\":1.5,\xFF", ParseError::Float { at: 5 }),
    (b"{\"a\":1.0,\xFF}", ParseError::Json),
    (b"{}{}", ParseError::Json),
];

#[test]
fn a_text_is_parsed_or_its_first_fault_answered(rt: HostRuntime) -> Result<(), Fail> {
    for (text, fault) in FAULTS {
        assert!(rt; parse(rt.alloc(), text).err() == Some(*fault));
    }
    let value = value_in(rt.alloc(), b"{\"maxLod\":1.0,\"x\":\"1.0\"}")?;
    is_written(&rt, rt.alloc(), &value, "{\"maxLod\":1,\"x\":\"1.0\"}")
}

#[test]
fn a_state_is_read_by_its_kind(rt: HostRuntime) -> Result<(), Fail> {
    let state = state_in(rt.alloc(), JsonKind::SetLayout, b"{}")?;
    let value = object_of(&rt, rt.alloc(), &state, 2)?;
    is_written(&rt, rt.alloc(), &value, "{\"bindings\":[],\"flags\":0}")
}

fn value_in(alloc: Global, text: &[u8]) -> Result<Value, Fail> {
    Ok(parse(alloc, text)?)
}

fn state_in(alloc: Global, kind: JsonKind, text: &[u8]) -> Result<State, Fail> {
    let value = value_in(alloc, text)?;
    state_from(alloc, kind, &value, "").map_err(Fail::from)
}

/// The object of a state that has this tag.
fn object_of(rt: &impl Abort, alloc: Global, state: &State, tag: u32) -> Result<Value, Fail> {
    assert_eq!(rt; state.tag(), tag);
    match value_of(alloc, state)? {
        Some(value) => Ok(value),
        None => Err(Fail::new("a state without an object")),
    }
}

fn is_written(rt: &impl Abort, alloc: Global, value: &Value, expected: &str) -> Result<(), Fail> {
    let text = value.to_string(alloc)?;
    assert_eq!(rt; text.as_str(), expected);
    Ok(())
}
