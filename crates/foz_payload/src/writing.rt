ghost use Rattle.std.specs.Prelude.{◌≡◌, ◌^◌, ◌<◌, ◌≤◌, ◌∷◌, ◌++◌, All, IfOk, OnOk, Ok, false, length};
ghost use Rattle.serde_json.specs.View.{view};
ghost use Rattle.serde_json.specs.Written.{compact_text, has_float};
ghost use Rattle.spirv_varint.specs.Varint.{spelling};
ghost use Rattle.state_words.specs.declared.state.State.TheVariants as states;
ghost use Rattle.state_words.specs.Words.{IsOrdinaryState, key_of};
ghost use Rattle.foz_payload.specs.Held.{IsReadAgain};
ghost use Rattle.foz_payload.specs.Meaning.{Means};
ghost use Rattle.foz_payload.specs.Payload.{IsPlain, payload, payload_value, module_object};

use crate::kinds::{MODULES, member_of_state};
use foz_words::{NoMemory, Row};
use json_fold::{ObjectWriter, hash_text};
use serde_json::Value;
use spirv_varint::encode;
use state_json::value_of;
use state_words::{State, key_of};
use std::alloc::Global;
use vk_basic::ShaderModule;

/// The payload of a state under its key: JSON with the state's object, and for a shader module a zero byte and the words
/// of its code as varints. Each list, text and byte field of the state has fewer than 2^30 elements.
pub fn payload_of(alloc: Global, state: &State) -> Result<Row<u8>, NoMemory>
    requires { IsOrdinaryState state.now }
    ensures written { IfOk result (λ row. row ≡ payload state.now) }
    // What was written means the state. An entry holds no longer payload.
    ensures read_back { IfOk result (λ row. length row ≤ 16_777_216 → Means (key_of state.now) row (Ok state.now)) }
{
    let hash = key_of(state).hash;
    match state {
        State::ShaderModule(shader) => module_payload(alloc, hash, shader),
        _ => plain_payload(alloc, hash, state),
    }
}

/// The payload of a state that isn't a shader module.
fn plain_payload(alloc: Global, hash: u64, state: &State) -> Result<Row<u8>, NoMemory>
    requires plain { IsPlain state.now }
    requires hash { hash ≡ (key_of state.now).hash }
    ensures written { IfOk result (λ row. row ≡ payload state.now) }
    ensures read_back { IfOk result (λ row. length row ≤ 16_777_216 → Means (key_of state.now) row (Ok state.now)) }
{
    let value = value_of(alloc, state)?;
    let Some(object) = value else { unreachable!() };
    let text = text_of(alloc, member_of_state(state), hash, object)?;
    Ok(Row::from_vec(text))
}

/// The payload of a shader module.
fn module_payload(alloc: Global, hash: u64, shader: &ShaderModule) -> Result<Row<u8>, NoMemory>
    requires words { length shader.now.code < 2 ^ 30 }
    requires hash { hash ≡ (key_of (states.ShaderModule shader.now)).hash }
    ensures written { IfOk result (λ row. row ≡ payload (states.ShaderModule shader.now)) }
    ensures read_back { IfOk result (λ row. length row ≤ 16_777_216 → Means (key_of (states.ShaderModule shader.now)) row (Ok (states.ShaderModule shader.now))) }
{
    let varints = varints_of(alloc, shader.code.as_slice())?;
    let object = module_object(alloc, shader, varints.len() as u64)?;
    let mut bytes = Row::from_vec(text_of(alloc, MODULES, hash, object)?);
    put_varints(&mut bytes, varints.as_slice())?;
    Ok(bytes)
}

/// The words of a shader module as varints.
fn varints_of(alloc: Global, words: &[u32]) -> Result<Row<u8>, NoMemory>
    ensures spelled { IfOk result (λ bytes. bytes ≡ spelling words.now) }
    ensures in_range { All (λ word. word < 2 ^ 32) words.now }
{
    encode(alloc, words)
}

/// Appends what stands after the JSON of a shader module.
fn put_varints(bytes: &mut Row<u8>, varints: &[u8]) -> Result<(), NoMemory>
    ensures { OnOk result (bytes.new ≡ bytes.old ++ 0 ∷ varints.now) }
{
    bytes.push(0)?;
    bytes.extend(varints)?;
    Ok(())
}

/// The object of a shader module whose varints take so many bytes.
#[tactic(auto, unfolding(crate::specs::Payload::module_object, crate::specs::Tables::module_head))]
fn module_object(alloc: Global, shader: &ShaderModule, varint_size: u64) -> Result<Value, NoMemory>
    requires words { length shader.now.code < 2 ^ 30 }
    requires varints { varint_size ≡ length (spelling shader.now.code) }
    ensures object { IfOk result (λ value. view value ≡ module_object shader.now) }
    ensures flags { OnOk result (shader.now.flags < 2 ^ 32) }
{
    let mut out = ObjectWriter::new(alloc);
    out.number("flags", shader.flags)?;
    out.wide_number("codeSize", 4 * shader.code.len() as u64)?;
    out.number("varintOffset", 0)?;
    out.wide_number("varintSize", varint_size)?;
    Ok(out.into_value())
}

/// The JSON of a payload, whose object stands under the member and the digits of the hash.
fn text_of(alloc: Global, member: &str, hash: u64, object: Value) -> Result<Vec<u8>, NoMemory>
    requires { has_float (view object) ≡ false }
    ensures text { IfOk result (λ bytes. bytes.items ≡ compact_text (payload_value member.now hash (view object))) }
    ensures again { OnOk result (IsReadAgain (payload_value member.now hash (view object))) }
{
    let value = payload_value(alloc, member, hash, object)?;
    let text = value.to_string(alloc)?;
    Ok(text.into_bytes())
}

/// The object of a payload.
#[tactic(auto, unfolding(crate::specs::Payload::payload_value))]
fn payload_value(alloc: Global, member: &str, hash: u64, object: Value) -> Result<Value, NoMemory>
    ensures { IfOk result (λ value. view value ≡ payload_value member.now hash (view object)) }
{
    let digits = hash_text(alloc, hash)?;
    let mut by_hash = ObjectWriter::new(alloc);
    by_hash.value(digits.as_str(), object)?;
    let mut whole = ObjectWriter::new(alloc);
    whole.value(member, by_hash.into_value())?;
    whole.number("version", 6)?;
    Ok(whole.into_value())
}
