ghost use Rattle.std.specs.Prelude.{◌≡◌, ◌<◌, ◌^◌, length, IfOk};
ghost use Rattle.record_lines.specs.Lines.{line_of};
ghost use Rattle.capture_reader.specs.Said.{line_said, lines_said};

use capture_lines::{LineError, read_line};
use foz_payload::payload_of;
use foz_words::NoMemory;
use input_lines::first_line;
use record_lines::{Lines, NextLine};
use state_words::key_of;
use std::alloc::Global;

/// The lines of an input that are still to come. It is short enough for each state in it to have a key.
#[derive(Clone, Copy)]
pub struct CaptureReader<'a> {
    rest: &'a [u8],
    ghost short: { length rest.now < 2 ^ 30 },
}

impl<'a> CaptureReader<'a> {
    pub fn new(input: &'a [u8]) -> CaptureReader<'a>
        requires short { length input.now < 2 ^ 30 }
        ensures { ⟦<CaptureReader<'a> as Lines>⟧.rest result ≡ lines_said input.now }
    {
        CaptureReader { rest: input }
    }
}

impl Lines for CaptureReader<'_> {
    type Cause = LineError;

    ghost rest = { λ reader. lines_said reader.rest.now };

    #[tactic(auto, using(crate::proofs::Said::next_said, crate::proofs::Said::none_said))]
    fn next(&mut self, alloc: Global) -> Result<Option<NextLine<LineError>>, NoMemory> {
        let Some((line, rest)) = first_line(self.rest) else {
            return Ok(None);
        };
        let next = prepared(alloc, line)?;
        self.rest = rest;
        Ok(Some(next))
    }

    #[tactic(auto, using(crate::proofs::Said::one_passed, crate::proofs::Said::none_passed))]
    fn skip(&mut self) {
        if let Some((_line, later)) = first_line(self.rest) {
            self.rest = later;
        }
    }

    #[tactic(auto, using(crate::proofs::Said::is_said))]
    fn is_at_end(&self) -> bool {
        self.rest.is_empty()
    }
}

/// What a line says, with the key and the payload of its state.
#[tactic(auto, using(crate::proofs::Said::is_refused))]
fn prepared(alloc: Global, line: &[u8]) -> Result<NextLine<LineError>, NoMemory>
    requires short { length line.now < 2 ^ 30 }
    ensures { IfOk result (λ next. line_of next ≡ line_said line.now) }
{
    match read_line(alloc, line) {
        Ok(None) => Ok(NextLine::Skipped),
        Ok(Some(state)) => Ok(NextLine::Read {
            key: key_of(&state),
            payload: payload_of(alloc, &state)?,
        }),
        Err(LineError::Memory) => Err(NoMemory),
        Err(cause) => Ok(NextLine::Refused(cause)),
    }
}
