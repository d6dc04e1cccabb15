ghost use Rattle.std.specs.Prelude.{◌≡◌, Ok, false, IfOk};
ghost use Rattle.serde_json.specs.View.{view};
ghost use Rattle.serde_json.specs.Written.{has_float};
ghost use Rattle.state_words.specs.declared.state.State.TheVariants as states;
ghost use Rattle.capture_lines.specs.Line.{MeansModule, value_meaning};
ghost use Rattle.capture_lines.specs.Writing.{line_object};
ghost use Rattle.capture_lines.specs.declared.kind.LineKind.TheVariants as kinds;

use crate::captured::CapturedModule;
use crate::code::{bytes_of_words, words_of_bytes};
use crate::error::LineError;
use foz_words::NoMemory;
use json_fold::Json;
use serde_json::Value;
use std::alloc::Global;
use vk_basic::ShaderModule;

/// The shader module that a value is.
pub(crate) fn module_from(alloc: Global, value: &Value) -> Result<ShaderModule, LineError>
    ensures { MeansModule result (value_meaning kinds.ShaderModule (view value.now)) }
{
    let captured = CapturedModule::from_json(alloc, value, "")?;
    let words = words_of_bytes(alloc, captured.code.as_slice())?;
    match words {
        Some(code) => Ok(ShaderModule {
            flags: captured.flags,
            code,
        }),
        None => Err(LineError::Code),
    }
}

/// The object of a shader module.
pub(crate) fn module_value(alloc: Global, shader: &ShaderModule) -> Result<Value, NoMemory>
    ensures object { IfOk result (λ v. view v ≡ line_object (states.ShaderModule shader.now)) }
    ensures no_float { IfOk result (λ v. has_float (view v) ≡ false) }
    ensures again { IfOk result (λ v. value_meaning kinds.ShaderModule (view v) ≡ Ok (states.ShaderModule shader.now)) }
{
    let captured = CapturedModule {
        flags: shader.flags,
        code: bytes_of_words(alloc, shader.code.as_slice())?,
    };
    captured.to_json(alloc)
}
