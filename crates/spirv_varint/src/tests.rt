//! Words with their varints, and rows of bytes with the words or the first fault that they give.
use super::*;
use std::alloc::Global;

/// Words with their shortest varints.
const SHORTEST: &[(u32, &[u8])] = &[
    (0, &[0]),
    (127, &[0x7F]),
    (128, &[0x80, 1]),
    (16_383, &[0xFF, 0x7F]),
    (16_384, &[0x80, 0x80, 1]),
    (2_097_151, &[0xFF, 0xFF, 0x7F]),
    (2_097_152, &[0x80, 0x80, 0x80, 1]),
    (0x0723_0203, &[0x83, 0x84, 0x8C, 0x39]),
    (268_435_455, &[0xFF, 0xFF, 0xFF, 0x7F]),
    (268_435_456, &[0x80, 0x80, 0x80, 0x80, 1]),
    (u32::MAX, &[0xFF, 0xFF, 0xFF, 0xFF, 0x0F]),
];

fn is_encoded(alloc: Global, words: &[u32], bytes: &[u8]) -> bool {
    match encode(alloc, words) {
        Ok(row) => row.as_slice() == bytes,
        Err(_) => false,
    }
}

fn is_decoded(alloc: Global, bytes: &[u8], words: &[u32]) -> bool {
    match decode(alloc, bytes, words.len()) {
        Ok(found) => found.as_slice() == words,
        Err(_) => false,
    }
}

#[test]
fn each_word_has_its_shortest_varint(rt: HostRuntime) {
    for (word, bytes) in SHORTEST {
        assert!(rt; is_encoded(rt.alloc(), &[*word], *bytes));
        assert!(rt; is_decoded(rt.alloc(), *bytes, &[*word]));
    }
}

/// Rows of bytes with the words that they give, some of them longer than they need be.
const ROWS: &[(&[u8], &[u32])] = &[
    (&[], &[]),
    (&[1, 0xAC, 2, 0], &[1, 300, 0]),
    (&[0x80, 0], &[0]),
    (&[0x85, 0x80, 0x80, 0x80, 0], &[5]),
];

#[test]
fn a_row_is_written_and_read(rt: HostRuntime) {
    assert!(rt; is_encoded(rt.alloc(), &[1, 300, 0], &[1, 0xAC, 2, 0]));
    for (bytes, words) in ROWS {
        assert!(rt; is_decoded(rt.alloc(), *bytes, *words));
    }
}

/// Rows of bytes with a number of words, and the first fault of these.
const FAULTS: &[(&[u8], usize, VarintError)] = &[
    (&[], 1, VarintError::Short { at: 0 }),
    (&[0x80], 1, VarintError::Short { at: 1 }),
    (&[1, 2], 16_777_216, VarintError::Short { at: 2 }),
    (&[0x80, 0x80, 0x80, 0x80], 1, VarintError::Short { at: 4 }),
    (
        &[0xFF, 0xFF, 0xFF, 0xFF, 0x1F],
        1,
        VarintError::TooLarge { at: 4 },
    ),
    (
        &[0xFF, 0xFF, 0xFF, 0xFF, 0x80],
        1,
        VarintError::TooLarge { at: 4 },
    ),
    (
        &[7, 0x80, 0x80, 0x80, 0x80, 16, 9],
        2,
        VarintError::TooLarge { at: 5 },
    ),
    (&[0, 0], 1, VarintError::Extra { at: 1 }),
    (&[0], 0, VarintError::Extra { at: 0 }),
];

fn has_fault(alloc: Global, bytes: &[u8], words: usize, fault: VarintError) -> bool {
    match decode(alloc, bytes, words) {
        Ok(_) => false,
        Err(found) => found == fault,
    }
}

#[test]
fn the_first_fault_of_a_row_is_answered(rt: HostRuntime) {
    for (bytes, words, fault) in FAULTS {
        assert!(rt; has_fault(rt.alloc(), *bytes, *words, *fault));
    }
}
