//! Texts with what they fold to, or with the place of their first other float.
use super::*;
use foz_words::NoMemory;
use std::alloc::Global;

/// Texts, and these with their floats folded.
const FOLDED: &[(&[u8], &[u8])] = &[
    (b"", b""),
    (
        b"{\"minLod\":0.0,\"maxLod\":1.0}",
        b"{\"minLod\":0,\"maxLod\":1}",
    ),
    (b"{\"x\":\"0.0\"}", b"{\"x\":\"0.0\"}"),
    (b"0.0", b"0"),
    (b"[1.0", b"[1"),
    (b"1.0\n", b"1\n"),
    (b"[0.0,1.0,0.0]", b"[0,1,0]"),
    (b"\"0.5 1.0\"", b"\"0.5 1.0\""),
    (b"\"0.5", b"\"0.5"),
    (b"\"a\\\"0.5\\\\\",0.0", b"\"a\\\"0.5\\\\\",0"),
    (b"\"\\", b"\"\\"),
    (
        b"{\"0.5, behind so many bytes that a search for a quote takes them at once, \\\", 0.5\":1.0}",
        b"{\"0.5, behind so many bytes that a search for a quote takes them at once, \\\", 0.5\":1}",
    ),
    (b"[-12,+7,00,true,null]", b"[-12,+7,00,true,null]"),
    (b"x.e", b"x.e"),
];

fn folds_to(alloc: Global, text: &[u8], expected: &[u8]) -> bool {
    match fold_floats(alloc, text) {
        Ok(found) => found.as_slice() == expected,
        Err(_) => false,
    }
}

#[test]
fn zeros_and_ones_fold_outside_texts(rt: HostRuntime) {
    for (text, expected) in FOLDED {
        assert!(rt; folds_to(rt.alloc(), *text, *expected));
    }
}

/// Texts with the place of their first float that is neither zero nor one.
const REFUSED: &[(&[u8], usize)] = &[
    (b"{\"maxLod\":1000.0}", 10),
    (b"{\"x\":-0.0}", 5),
    (b"-0.0", 0),
    (b"[1.0e5]", 1),
    (b" 00.0", 1),
    (b"1.0.0", 0),
    (b"[0.0,2.5,3.5]", 5),
    (b"[1,1e9", 3),
    (b"7E", 0),
    (b"1.", 0),
    (b"\"a\\\\\"0.5", 5),
    (b"--1.0", 0),
    (b"0.01", 0),
];

fn is_refused(alloc: Global, text: &[u8], place: usize) -> bool {
    match fold_floats(alloc, text) {
        Err(FoldError::FloatField { at }) => at == place,
        _ => false,
    }
}

#[test]
fn the_first_other_float_is_answered(rt: HostRuntime) {
    for (text, at) in REFUSED {
        assert!(rt; is_refused(rt.alloc(), *text, *at));
    }
}

/// A hundred thousand times the text, and then the last one.
fn repeated(alloc: Global, text: &[u8], last: &[u8]) -> Result<Vec<u8>, NoMemory> {
    let mut texts = Vec::new(alloc);
    for _ in 0..100_000u32 {
        texts.extend_from_slice(text)?;
    }
    texts.extend_from_slice(last)?;
    Ok(texts)
}

const OBJECT: &[u8] = b"{\"minLod\":0.0,\"name\":\"0.5\"},";

const OBJECT_FOLDED: &[u8] = b"{\"minLod\":0,\"name\":\"0.5\"},";

fn large_text_folds(alloc: Global) -> Result<bool, NoMemory> {
    let text = repeated(alloc, OBJECT, b"")?;
    let expected = repeated(alloc, OBJECT_FOLDED, b"")?;
    Ok(folds_to(alloc, &text, &expected))
}

fn large_text_is_refused(alloc: Global) -> Result<bool, NoMemory> {
    let text = repeated(alloc, OBJECT, b"0.5")?;
    Ok(is_refused(alloc, &text, 2_800_000))
}

#[test]
fn a_large_text_folds(rt: HostRuntime) {
    assert!(rt; large_text_folds(rt.alloc()) == Ok(true));
    assert!(rt; large_text_is_refused(rt.alloc()) == Ok(true));
}
