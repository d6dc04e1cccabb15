//! The words of states, their tags, and the states that they refer to.
ghost use Rattle.state_words.specs.Words.{IsOrdinaryState};

use super::{PIPELINE, state_of};
use foz_words::Key;
use state_words::{State, refs_of, words_of};
use std::alloc::Global;
use std::process::Abort;
use std::test::Fail;

const WORDS: &[(&[u8], &[u32])] = &[
    (
        b"sampler {}",
        &[1, 0, 0, 0, 0, 0, 0, 0, 0, 0, 0, 0, 0, 0, 0, 0, 0],
    ),
    (b"set_layout {}", &[2, 0, 0]),
    (b"render_pass {}", &[5, 0, 0, 0, 0]),
    (
        PIPELINE,
        &[7, 0, 0, 32, 4, 0, 4, 0x6d, 0x61, 0x69, 0x6e, 0, 3, 0, 0, 0],
    ),
];

#[test]
fn words_are_a_tag_and_the_fields_in_order(rt: HostRuntime) -> Result<(), Fail> {
    for (line, words) in WORDS {
        line_has_words(&rt, rt.alloc(), line, words)?;
    }
    Ok(())
}

fn line_has_words(rt: &impl Abort, alloc: Global, line: &[u8], words: &[u32]) -> Result<(), Fail> {
    let state = state_of(alloc, line)?;
    words_are(rt, alloc, &state, words)
}

fn words_are(rt: &impl Abort, alloc: Global, state: &State, words: &[u32]) -> Result<(), Fail>
    requires { IsOrdinaryState state.now }
{
    let found = words_of(alloc, state)?;
    assert_eq!(rt; found.as_slice(), words);
    Ok(())
}

const BASED_PIPELINE: &[u8] =
    b"compute_pipeline {\"basePipelineHandle\":\"0000000000000008\",\"layout\":\"0000000000000003\",\"stage\":{\"module\":\"0000000000000004\",\"name\":\"main\",\"stage\":32}}";

const LAYOUT: &[u8] =
    b"pipeline_layout {\"flags\":1,\"setLayouts\":[\"0000000000000007\",\"0000000000000000\"]}";

// A line, the tag of its state, and what that refers to.
const REFERENCES: &[(&[u8], u32, &[Key])] = &[
    (
        PIPELINE,
        7,
        &[Key { tag: 4, hash: 4 }, Key { tag: 3, hash: 3 }],
    ),
    (
        BASED_PIPELINE,
        7,
        &[
            Key { tag: 4, hash: 4 },
            Key { tag: 3, hash: 3 },
            Key { tag: 7, hash: 8 },
        ],
    ),
    (
        LAYOUT,
        3,
        &[Key { tag: 2, hash: 7 }, Key { tag: 2, hash: 0 }],
    ),
];

#[test]
fn references_stand_in_the_order_of_the_fields(rt: HostRuntime) -> Result<(), Fail> {
    for (line, tag, refs) in REFERENCES {
        line_refers_to(&rt, rt.alloc(), line, *tag, refs)?;
    }
    Ok(())
}

fn line_refers_to(
    rt: &impl Abort,
    alloc: Global,
    line: &[u8],
    tag: u32,
    refs: &[Key],
) -> Result<(), Fail> {
    let state = state_of(alloc, line)?;
    refs_are(rt, alloc, &state, tag, refs)
}

fn refs_are(
    rt: &impl Abort,
    alloc: Global,
    state: &State,
    tag: u32,
    refs: &[Key],
) -> Result<(), Fail> {
    assert_eq!(rt; state.tag(), tag);
    let found = refs_of(alloc, state)?;
    assert_eq!(rt; found.as_slice(), refs);
    Ok(())
}
