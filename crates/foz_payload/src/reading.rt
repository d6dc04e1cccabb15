ghost use Rattle.std.specs.Prelude.{◌≡◌, ◌^◌, ◌<◌, IfOk, Some, length};
ghost use Rattle.serde_json.specs.View.{view};
ghost use Rattle.state_words.specs.References.{refs_of};
ghost use Rattle.state_words.specs.Words.{IsOrdinaryState};
ghost use Rattle.state_json.specs.Parsed.{parsed};
ghost use Rattle.foz_payload.specs.Plain as plain;
ghost use Rattle.foz_payload.specs.Meaning.{Means, MeansHead, Gives, Finds, plain_meaning, of_parse, or_none, found, head_of, head_in, window_of, of_varint};

use crate::kinds::{MODULES, kind_of_tag, member_of};
use crate::module_head::ModuleHead;
use crate::parts::{json_part, parts};
use crate::unreadable::Unreadable;
use foz_words::Key;
use json_fold::{FieldError, Json, hash_text};
use serde_json::Value;
use spirv_varint::{VarintError, decode};
use state_json::{JsonKind, ParseError, parse, state_from};
use state_words::State;
use std::alloc::Global;
use vk_basic::ShaderModule;

// The greatest size of a module's code, in bytes.
const CODE_LIMIT: u32 = 67_108_864;

/// The state that a payload is under a key, or the first cause why it can't be read. The state of fewer than 2^30 bytes
/// has fewer than 2^30 elements in each list, text and byte field, and refers to fewer than 2^30 states.
#[tactic(auto, unfolding(crate::specs::Meaning::Means))]
pub fn state_of(alloc: Global, key: Key, payload: &[u8]) -> Result<State, Unreadable>
    ensures meant { Gives result (Means key payload.now) }
    ensures ordinary { length payload.now < 2 ^ 30 → IfOk result IsOrdinaryState }
    ensures few { length payload.now < 2 ^ 30 → IfOk result (λ state. length (refs_of state) < 2 ^ 30) }
{
    if key.tag == 4 {
        return module_of(alloc, key.hash, payload);
    }
    match kind_of_tag(key.tag) {
        Some(kind) => plain_state(alloc, kind, key, payload),
        None => Err(Unreadable::WrongTag { tag: key.tag }),
    }
}

/// A state of any kind but the shader modules.
#[tactic(auto, unfolding(crate::specs::Meaning::plain_meaning, crate::specs::Meaning::object_in))]
fn plain_state(alloc: Global, kind: JsonKind, key: Key, payload: &[u8]) -> Result<State, Unreadable>
    ensures { Finds (λ state. state) result (plain_meaning (Some kind) key payload.now) }
{
    let value = value_in(alloc, json_part(payload))?;
    let object = find(alloc, member_of(kind), key.hash, &value)?;
    match state_from(alloc, kind, object, "") {
        Ok(state) => Ok(state),
        Err(FieldError::Bad { path, cause }) => Err(Unreadable::Field(path, cause)),
        Err(FieldError::Memory) => Err(Unreadable::Memory),
    }
}

/// A shader module.
fn module_of(alloc: Global, hash: u64, payload: &[u8]) -> Result<State, Unreadable>
    ensures { Gives result (MeansHead (head_of hash payload.now) payload.now) }
{
    let Some((json, behind)) = parts(payload) else {
        return Err(Unreadable::NoZeroByte);
    };
    let head = head_in(alloc, hash, json)?;
    let window = window_of(&head, behind)?;
    match decode(alloc, window, (head.code_size / 4) as usize) {
        Ok(code) => Ok(State::ShaderModule(ShaderModule {
            flags: head.flags,
            code,
        })),
        Err(error) => Err(unreadable_varints(error)),
    }
}

/// Why varints make a module unreadable.
fn unreadable_varints(error: VarintError) -> Unreadable
    ensures { result ≡ of_varint error }
{
    match error {
        VarintError::Short { at } => Unreadable::Varint(VarintError::Short { at }),
        VarintError::TooLarge { at } => Unreadable::Varint(VarintError::TooLarge { at }),
        VarintError::Extra { at } => Unreadable::Varint(VarintError::Extra { at }),
        VarintError::Memory => Unreadable::Memory,
    }
}

/// What the JSON of a shader module's payload says.
#[tactic(auto, unfolding(crate::specs::Meaning::object_in))]
fn head_in(alloc: Global, hash: u64, json: &[u8]) -> Result<ModuleHead, Unreadable>
    ensures { Finds plain.module_head result (head_in hash json.now) }
{
    let value = value_in(alloc, json)?;
    let object = find(alloc, MODULES, hash, &value)?;
    match ModuleHead::from_json(alloc, object, "") {
        Ok(head) => Ok(head),
        Err(FieldError::Bad { path, cause }) => Err(Unreadable::Field(path, cause)),
        Err(FieldError::Memory) => Err(Unreadable::Memory),
    }
}

/// The bytes of a module's varints, of those after the zero byte.
#[tactic(auto, unfolding(crate::specs::Meaning::window_of))]
fn window_of<'p>(head: &ModuleHead, behind: &'p [u8]) -> Result<&'p [u8], Unreadable>
    ensures { Finds (λ window. window.now) result (window_of head.now.code_size head.now.varint_offset head.now.varint_size behind.now) }
{
    if head.code_size % 4 != 0 || head.code_size > CODE_LIMIT {
        return Err(Unreadable::CodeSize {
            stated: head.code_size,
        });
    }
    let offset = head.varint_offset as usize;
    let size = head.varint_size as usize;
    if offset + size > behind.len() {
        return Err(Unreadable::Window {
            offset: head.varint_offset,
            size: head.varint_size,
            have: behind.len(),
        });
    }
    Ok(&behind[offset..offset + size])
}

/// The JSON value of a text.
fn value_in(alloc: Global, text: &[u8]) -> Result<Value, Unreadable>
    ensures { Finds view result (of_parse (parsed text.now)) }
{
    match parse(alloc, text) {
        Ok(value) => Ok(value),
        Err(ParseError::Float { at }) => Err(Unreadable::Float { at }),
        Err(ParseError::Json) => Err(Unreadable::BadJson),
        Err(ParseError::Memory) => Err(Unreadable::Memory),
    }
}

/// The object under the digits of a hash in the object under a member.
#[tactic(auto, unfolding(crate::specs::Meaning::found))]
fn find<'v>(
    alloc: Global,
    member: &str,
    hash: u64,
    value: &'v Value,
) -> Result<&'v Value, Unreadable>
    ensures { Finds (λ object. view object.now) result (or_none (found member.now hash (view value.now))) }
{
    let digits = hash_text(alloc, hash)?;
    let Some(objects) = value.get(member) else {
        return Err(Unreadable::NoSuchState);
    };
    match objects.get(digits.as_str()) {
        Some(object) if object.is_object() => Ok(object),
        _ => Err(Unreadable::NoSuchState),
    }
}
