//! What contracts don't say: lines as they lie in captures, through the trait that a recorder asks.
use crate::CaptureReader;
use foz_words::NoMemory;
use record_lines::{Lines, NextLine};
use std::alloc::Global;
use std::test::Fail;

/// The tag and the length of the payload of the next line that is read. None where it isn't read, or where none is left.
fn next_read<L: Lines>(alloc: Global, lines: &mut L) -> Result<Option<(u32, usize)>, NoMemory> {
    match lines.next(alloc)? {
        Some(NextLine::Read { key, payload }) => Ok(Some((key.tag, payload.len()))),
        _ => Ok(None),
    }
}

// The payload of the least sampler has 303 bytes, that of the least pipeline layout 104.
#[test]
fn lines_are_read_in_order(rt: HostRuntime) -> Result<(), Fail> {
    let alloc = rt.alloc();
    let mut lines = CaptureReader::new(b"sampler {}\n\nlens {}\npipeline_layout {}");
    for read in [Some((1, 303)), None, None, Some((3, 104)), None] {
        assert_eq!(rt; next_read(alloc, &mut lines), Ok(read));
    }
    assert!(rt; matches!(&lines.next(alloc), Ok(None)));
    Ok(())
}
