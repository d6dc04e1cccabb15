ghost use Rattle.std.specs.Prelude.{◌≡◌, [], None, map};
ghost use Rattle.std.specs.Option.{option_map};
ghost use Rattle.serde_json.specs.View.{view, items_of};
ghost use Rattle.serde_json.specs.Data.{no_items};
ghost use Rattle.serde_json.specs.Find.{get};
ghost use Rattle.vk_form.specs.Shape.{number, unit, hash, text, bytes, list, struct};
ghost use Rattle.json_fold.specs.Fault.{Reads, at, member_path};
ghost use Rattle.json_fold.specs.Leaf as leaf;
ghost use Rattle.json_fold.specs.Reading.{reading, opened, missing, or_missing, if_there, each};

use crate::fault::{FieldCause, FieldError};
use crate::{leaf, path};
use base64::DecodeAllocError;
use base64::engine::general_purpose::STANDARD;
use foz_words::{Name, Row, Unit};
use serde_json::Value;
use std::alloc::Global;

/// Refuses what is no object, and one with a member `pNext`.
#[tactic(auto, unfolding(crate::specs::Reading::opened))]
pub fn open(alloc: Global, value: &Value, path: &str) -> Result<(), FieldError>
    ensures { Reads (λ x. x) result (opened (view value.now) path.now) }
{
    if !value.is_object() {
        let path = Name::from_string(String::from_str(alloc, path)?);
        return Err(FieldError::Bad {
            path,
            cause: FieldCause::NotObject,
        });
    }
    if value.get("pNext").is_some() {
        let path = path::join(alloc, path, "pNext")?;
        return Err(FieldError::Bad {
            path,
            cause: FieldCause::HasPNext,
        });
    }
    Ok(())
}

/// What a member's value was read as, or the fault at its path.
fn at_member<T: Drop>(
    alloc: Global,
    path: &str,
    member: &str,
    read: Result<T, FieldCause>,
) -> Result<T, FieldError>
    ensures { Reads (λ x. x) result (at (member_path path.now member.now) read) }
{
    match read {
        Ok(value) => Ok(value),
        Err(cause) => {
            let path = path::join(alloc, path, member)?;
            Err(FieldError::Bad { path, cause })
        }
    }
}

pub fn u32_of(alloc: Global, object: &Value, member: &str, path: &str) -> Result<u32, FieldError>
    ensures { Reads (λ x. x) result
        (or_missing (missing number) (reading number) (get member.now (view object.now)) (member_path path.now member.now)) }
{
    match object.get(member) {
        None => Ok(0),
        Some(value) => at_member(alloc, path, member, leaf::number(value)),
    }
}

pub fn unit_of(alloc: Global, object: &Value, member: &str, path: &str) -> Result<Unit, FieldError>
    ensures { Reads (λ x. x) result
        (or_missing (missing unit) (reading unit) (get member.now (view object.now)) (member_path path.now member.now)) }
{
    match object.get(member) {
        None => Ok(Unit::Zero),
        Some(value) => at_member(alloc, path, member, leaf::unit(value)),
    }
}

pub fn ref_of(alloc: Global, object: &Value, member: &str, path: &str) -> Result<u64, FieldError>
    ensures { Reads (λ x. x) result
        (or_missing (missing hash) (reading hash) (get member.now (view object.now)) (member_path path.now member.now)) }
{
    match object.get(member) {
        None => Ok(0),
        Some(value) => at_member(alloc, path, member, leaf::hash(value)),
    }
}

pub fn text_of(alloc: Global, object: &Value, member: &str, path: &str) -> Result<Name, FieldError>
    ensures { Reads (λ x. x) result
        (or_missing (missing text) (reading text) (get member.now (view object.now)) (member_path path.now member.now)) }
{
    match object.get(member) {
        None => Ok(Name::from_string(String::new(alloc))),
        Some(value) => match value.as_str() {
            Some(text) => Ok(Name::from_string(String::from_str(alloc, text)?)),
            None => at_member(alloc, path, member, Err(FieldCause::NotText)),
        },
    }
}

#[tactic(auto, unfolding(crate::specs::Leaf::bytes_of, base64::specs::GeneralPurpose::decoded_of))]
pub fn bytes_of(
    alloc: Global,
    object: &Value,
    member: &str,
    path: &str,
) -> Result<Row<u8>, FieldError>
    ensures { Reads (λ x. x) result
        (or_missing (missing bytes) (reading bytes) (get member.now (view object.now)) (member_path path.now member.now)) }
{
    let Some(value) = object.get(member) else {
        return Ok(Row::new(alloc));
    };
    let Some(text) = value.as_str() else {
        return at_member(alloc, path, member, Err(FieldCause::NotText));
    };
    match STANDARD.decode(alloc, text.as_bytes()) {
        Ok(decoded) => Ok(Row::from_vec(decoded)),
        Err(DecodeAllocError::OutOfMemory) => Err(FieldError::Memory),
        Err(DecodeAllocError::DecodeError(_)) => {
            at_member(alloc, path, member, Err(FieldCause::BadBase64))
        }
    }
}

/// The elements of a list; none where it is missing.
pub fn list_of<'v>(
    alloc: Global,
    object: &'v Value,
    member: &str,
    path: &str,
) -> Result<&'v [Value], FieldError>
    ensures { Reads (λ s. items_of (map view s.now)) result
        (or_missing no_items (λ d p. at p (leaf.items_of d)) (get member.now (view object.now)) (member_path path.now member.now)) }
{
    match object.get(member) {
        None => Ok(&[]),
        Some(value) => match value.as_array() {
            Some(items) => Ok(items.as_slice()),
            None => at_member(alloc, path, member, Err(FieldCause::NotList)),
        },
    }
}
