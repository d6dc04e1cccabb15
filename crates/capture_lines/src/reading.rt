ghost use Rattle.std.specs.Prelude.{◌^◌, ◌<◌, length, IfOk, IfSome};
ghost use Rattle.serde_json.specs.View.{view};
ghost use Rattle.state_words.specs.References.{refs_of};
ghost use Rattle.state_words.specs.Words.{IsOrdinaryState};
ghost use Rattle.capture_lines.specs.Line.{Means, line_meaning, value_meaning};

use crate::cutting::{cut, is_skipped};
use crate::error::LineError;
use crate::kind::{LineKind, kind_of};
use crate::module::module_from;
use serde_json::Value;
use state_json::{parse, state_from};
use state_words::State;
use std::alloc::Global;

/// The state of a capture line, which comes without its line feed: its kind word, one blank and JSON text. It is `None`
/// exactly for an empty line and one that begins with `#`. Numbers `0.0` and `1.0` stand for 0 and 1. The state of fewer
/// than 2^30 bytes has fewer than 2^30 elements in each list, text and byte field, and refers to fewer than 2^30 states.
pub fn read_line(alloc: Global, line: &[u8]) -> Result<Option<State>, LineError>
    ensures meant { Means result (line_meaning line.now) }
    ensures ordinary { length line.now < 2 ^ 30 → IfOk result (λ found. IfSome found IsOrdinaryState) }
    ensures few { length line.now < 2 ^ 30 → IfOk result (λ found. IfSome found (λ state. length (refs_of state) < 2 ^ 30)) }
{
    if is_skipped(line) {
        return Ok(None);
    }
    let Some((word, text)) = cut(line) else {
        return Err(LineError::Kind);
    };
    let Some(kind) = kind_of(word) else {
        return Err(LineError::Kind);
    };
    let value = parse(alloc, text)?;
    Ok(Some(state_of(alloc, kind, &value)?))
}

/// The state that a value of this kind is.
fn state_of(alloc: Global, kind: LineKind, value: &Value) -> Result<State, LineError>
    ensures { Means result (value_meaning kind (view value.now)) }
{
    match kind {
        LineKind::Object(kind) => Ok(state_from(alloc, kind, value, "")?),
        LineKind::ShaderModule => Ok(State::ShaderModule(module_from(alloc, value)?)),
    }
}
