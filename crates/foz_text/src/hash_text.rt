//! The text of the command `hash`.
ghost use Rattle.std.specs.Prelude.{◌≡◌, ◌<◌, ◌^◌, ◌++◌, length, IfOk, OnOk, OnErr};
ghost use Rattle.state_words.specs.Words.{IsOrdinaryState};
ghost use Rattle.capture_lines.specs.Line.{line_meaning};
ghost use Rattle.report_words.specs.Fronts.{BeginsWith};
ghost use Rattle.foz_text.specs.HashText.{hash_words, hashed_line, hash_line, hash_text, is_read, is_readable};

use crate::record_text::push_refused;
use capture_lines::{LineError, kind_word, read_line};
use foz_words::NoMemory;
use input_lines::first_line;
use report_words::Hash;
use state_words::{State, key_of};
use std::alloc::Global;

/// Adds the line of a state.
fn push_hashed(alloc: Global, out: &mut Vec<u8>, number: u32, state: &State) -> Result<(), NoMemory>
    requires ordinary { IsOrdinaryState state.now }

    ensures line { OnOk result (out.new.items ≡ out.old.items ++ hashed_line number state.now) }
    ensures refused { OnErr result (out.new.items ≡ out.old.items) }
{
    push_words(alloc, out, number, kind_word(state), key_of(state).hash)
}

/// Adds the line of a kind and a hash. It knows no state, so that nothing of one is unfolded where the text is proved.
fn push_words(
    alloc: Global,
    out: &mut Vec<u8>,
    number: u32,
    kind: &str,
    hash: u64,
) -> Result<(), NoMemory>
    ensures line { OnOk result (out.new.items ≡ out.old.items ++ hash_words number kind.now hash) }
    ensures refused { OnErr result (out.new.items ≡ out.old.items) }
{
    let hash = Hash(hash);
    let text = format!(in alloc; "{number} {kind} {hash}\n")?;
    out.extend_from_slice(text.as_bytes())?;
    Ok(())
}

/// Adds what is printed of a line of a capture, and says whether the line isn't refused.
fn push_line(alloc: Global, out: &mut Vec<u8>, number: u32, line: &[u8]) -> Result<bool, NoMemory>
    requires short { length line.now < 2 ^ 30 }

    ensures line { OnOk result (out.new.items ≡ out.old.items ++ hash_line number (line_meaning line.now)) }
    ensures read { IfOk result (λ read. read ≡ is_read (line_meaning line.now)) }
    ensures refused { OnErr result (out.new.items ≡ out.old.items) }
{
    match read_line(alloc, line) {
        Ok(None) => Ok(true),
        Ok(Some(state)) => {
            push_hashed(alloc, out, number, &state)?;
            Ok(true)
        }
        Err(LineError::Memory) => Err(NoMemory),
        Err(cause) => {
            push_refused(alloc, out, number, &cause)?;
            Ok(false)
        }
    }
}

/// Adds all lines. An `Err` keeps what was there before, and may leave some of the lines.
fn push_lines(alloc: Global, out: &mut Vec<u8>, capture: &[u8]) -> Result<bool, NoMemory>
    requires short { length capture.now < 2 ^ 30 }

    ensures text { OnOk result (out.new.items ≡ out.old.items ++ hash_text capture.now) }
    ensures readable { IfOk result (λ readable. readable ≡ is_readable capture.now) }
    ensures front { OnErr result (BeginsWith out.old.items out.new.items) }
{
    let mut rest = capture;
    let mut number = 0;
    let mut readable = true;
    while let Some((line, after)) = first_line(rest) {
        number += 1;
        let read = push_line(alloc, out, number, line)?;
        readable = readable && read;
        rest = after;
    }
    Ok(readable)
}

/// Adds the text of a capture: a line for each state in it, with its kind and its hash, and one for each line that can't be
/// read. Says whether no line is refused. An `Err` changes nothing.
pub fn push_hash(alloc: Global, out: &mut Vec<u8>, capture: &[u8]) -> Result<bool, NoMemory>
    requires short { length capture.now < 2 ^ 30 }

    ensures text { OnOk result (out.new.items ≡ out.old.items ++ hash_text capture.now) }
    ensures readable { IfOk result (λ readable. readable ≡ is_readable capture.now) }
    ensures refused { OnErr result (out.new.items ≡ out.old.items) }
{
    let start = out.len();
    let pushed = push_lines(alloc, out, capture);
    if pushed.is_err() {
        out.truncate(start);
    }
    pushed
}
