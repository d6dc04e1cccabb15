ghost use Rattle.std.specs.Prelude.{◌≡◌, ◌≤◌, ◌∷◌, ◌++◌, [], Ok, Some, false, string_bytes, length, IfOk, OnOk, OnErr};
ghost use Rattle.serde_json.specs.Data.{depth};
ghost use Rattle.serde_json.specs.Read.{max_depth};
ghost use Rattle.serde_json.specs.View.{view};
ghost use Rattle.serde_json.specs.Written.{compact_text, has_float};
ghost use Rattle.state_json.specs.Parsed.{parsed};
ghost use Rattle.capture_lines.specs.Kinds.{kind_of_state};
ghost use Rattle.capture_lines.specs.Line.{line_meaning, value_meaning};
ghost use Rattle.capture_lines.specs.Writing.{Extends, line_object, line_of, line_text};

use crate::kind::kind_word;
use crate::module::module_value;
use foz_words::NoMemory;
use serde_json::Value;
use state_json::value_of;
use state_words::State;
use std::alloc::Global;

/// Appends the line of a state: its kind word, a blank, its object as compact JSON, and a line feed. An `Err` changes
/// nothing.
pub fn write_line(alloc: Global, out: &mut Vec<u8>, state: &State) -> Result<(), NoMemory>
    ensures written { OnOk result (out.new.items ≡ out.old.items ++ line_of state.now) }
    ensures unchanged { OnErr result (out.new.items ≡ out.old.items) }
    // What was written, without its line feed, is read as the state.
    ensures read_again { OnOk result (line_meaning (line_text state.now) ≡ Ok (Some state.now)) }
{
    let value = object_of(alloc, state)?;
    let text = text_of(alloc, &value)?;
    put_line(out, kind_word(state), text.as_str())
}

/// The object in the line of a state.
fn object_of(alloc: Global, state: &State) -> Result<Value, NoMemory>
    ensures object { IfOk result (λ v. view v ≡ line_object state.now) }
    ensures no_float { IfOk result (λ v. has_float (view v) ≡ false) }
    ensures flat { IfOk result (λ v. depth (view v) ≤ max_depth) }
    ensures read_again { IfOk result (λ v. value_meaning (kind_of_state state.now) (view v) ≡ Ok state.now) }
{
    match state {
        State::ShaderModule(module) => module_value(alloc, module),
        _ => match value_of(alloc, state)? {
            Some(value) => Ok(value),
            None => unreachable!(),
        },
    }
}

/// The compact text of a value without floats, which is read as the value.
fn text_of(alloc: Global, value: &Value) -> Result<String, NoMemory>
    requires no_float { has_float (view value.now) ≡ false }
    requires flat { depth (view value.now) ≤ max_depth }
    ensures text { IfOk result (λ s. string_bytes s ≡ compact_text (view value.now)) }
    ensures read_again { IfOk result (λ s. parsed (compact_text (view value.now)) ≡ Ok (view value.now)) }
{
    let text = value.to_string(alloc)?;
    // That it is UTF-8 is known of the borrowed text.
    let _text = text.as_str();
    Ok(text)
}

/// Appends the word, a blank, the text and a line feed. An `Err` changes nothing.
fn put_line(out: &mut Vec<u8>, word: &str, text: &str) -> Result<(), NoMemory>
    ensures ok { OnOk result (out.new.items ≡ out.old.items ++ ((word.now ++ 32 ∷ text.now) ++ 10 ∷ [])) }
    ensures err { OnErr result (out.new.items ≡ out.old.items) }
{
    let before = out.len();
    let put = put_parts(out, word, text);
    if put.is_err() {
        out.truncate(before);
    }
    put
}

/// Appends the parts of a line. An `Err` may leave some of them.
fn put_parts(out: &mut Vec<u8>, word: &str, text: &str) -> Result<(), NoMemory>
    ensures ok { OnOk result (out.new.items ≡ out.old.items ++ ((word.now ++ 32 ∷ text.now) ++ 10 ∷ [])) }
    ensures err { OnErr result (Extends out.old.items out.new.items) }
{
    out.extend_from_slice(word.as_bytes())?;
    out.push(b' ')?;
    out.extend_from_slice(text.as_bytes())?;
    out.push(b'\n')?;
    Ok(())
}
