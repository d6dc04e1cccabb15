//! States by their lines: makers that give a state or a text, and checkers that borrow. A test holds no state itself,
//! since each of its ways out would prove the drop of it.
ghost use Rattle.std.specs.Prelude.{IfOk};
ghost use Rattle.state_words.specs.Words.{IsOrdinaryState};

mod full;
mod lines;
mod members;
mod objects;
mod payloads;
mod realistic;
mod words;

use capture_lines::{read_line, write_line};
use state_words::State;
use std::alloc::Global;
use std::process::Abort;
use std::test::Fail;

const PIPELINE: &[u8] =
    b"compute_pipeline {\"layout\":\"0000000000000003\",\"stage\":{\"module\":\"0000000000000004\",\"name\":\"main\",\"stage\":32}}";

/// The state of a line.
fn state_of(alloc: Global, line: &[u8]) -> Result<State, Fail>
    ensures { IfOk result (λ state. IsOrdinaryState state) }
{
    if line.len() >= 1 << 29 {
        return Err(Fail::new("the line is long"));
    }
    match read_line(alloc, line) {
        Ok(Some(state)) => Ok(state),
        Ok(None) => Err(Fail::new("the line is skipped")),
        Err(_cause) => Err(Fail::new("the line is refused")),
    }
}

/// The line that is written of a state, without its line feed.
fn line_of(alloc: Global, state: &State) -> Result<Vec<u8>, Fail> {
    let mut line = Vec::new(alloc);
    write_line(alloc, &mut line, state)?;
    match line.pop() {
        Some(b'\n') => Ok(line),
        _ => Err(Fail::new("a line without an end")),
    }
}

/// What is written of the state that is read of a line.
fn line_again(alloc: Global, line: &[u8]) -> Result<Vec<u8>, Fail> {
    let state = state_of(alloc, line)?;
    line_of(alloc, &state)
}

/// Each line is read as a state whose own line is the other one.
fn are_read_as(rt: &impl Abort, alloc: Global, lines: &[(&[u8], &[u8])]) -> Result<(), Fail> {
    for (line, expected) in lines {
        let written = line_again(alloc, line)?;
        assert_eq!(rt; written.as_slice(), *expected);
    }
    Ok(())
}
