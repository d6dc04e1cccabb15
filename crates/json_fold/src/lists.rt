ghost use Rattle.std.specs.Prelude.{◌≡◌, map};
ghost use Rattle.serde_json.specs.View.{view, items_of};
ghost use Rattle.serde_json.specs.Find.{get};
ghost use Rattle.vk_form.specs.Shape.{number, unit, hash, four_units, list, struct};
ghost use Rattle.json_fold.specs.Fault.{Reads, member_path, item_path};
ghost use Rattle.json_fold.specs.Reading.{reading, missing, or_missing, each, four_of};

use crate::fault::{FieldCause, FieldError};
use crate::json::Json;
use crate::members::list_of;
use crate::{leaf, path};
use foz_words::{Name, Row, Unit};
use serde_json::Value;
use std::alloc::Global;

/// A list of numbers.
pub fn numbers_of(
    alloc: Global,
    object: &Value,
    member: &str,
    path: &str,
) -> Result<Row<u32>, FieldError>
    ensures { Reads (λ x. x) result
        (or_missing (missing (list number)) (reading (list number)) (get member.now (view object.now)) (member_path path.now member.now)) }
{
    let items = list_of(alloc, object, member, path)?;
    let at = path::join(alloc, path, member)?;
    numbers_in(alloc, items, at.as_str())
}

fn numbers_in(alloc: Global, items: &[Value], at: &str) -> Result<Row<u32>, FieldError>
    ensures { Reads (λ x. x) result (each (reading number) (items_of (map view items.now)) 0 at.now) }
{
    let mut row = Row::new(alloc);
    for (place, item) in items.iter().enumerate() {
        row.push(number_at(alloc, item, at, place)?)?;
    }
    Ok(row)
}

/// A list of references.
pub fn refs_of(
    alloc: Global,
    object: &Value,
    member: &str,
    path: &str,
) -> Result<Row<u64>, FieldError>
    ensures { Reads (λ x. x) result
        (or_missing (missing (list hash)) (reading (list hash)) (get member.now (view object.now)) (member_path path.now member.now)) }
{
    let items = list_of(alloc, object, member, path)?;
    let at = path::join(alloc, path, member)?;
    refs_in(alloc, items, at.as_str())
}

fn refs_in(alloc: Global, items: &[Value], at: &str) -> Result<Row<u64>, FieldError>
    ensures { Reads (λ x. x) result (each (reading hash) (items_of (map view items.now)) 0 at.now) }
{
    let mut row = Row::new(alloc);
    for (place, item) in items.iter().enumerate() {
        row.push(hash_at(alloc, item, at, place)?)?;
    }
    Ok(row)
}

/// A list of structures.
pub fn structures_of<Crate, S: Json<Crate>>(
    alloc: Global,
    object: &Value,
    member: &str,
    path: &str,
) -> Result<Row<S>, FieldError>
    ensures { Reads (map S.plain) result
        (or_missing (missing (list (struct S.fields))) (reading (list (struct S.fields))) (get member.now (view object.now)) (member_path path.now member.now)) }
{
    let items = list_of(alloc, object, member, path)?;
    let at = path::join(alloc, path, member)?;
    structures_in(alloc, items, at.as_str())
}

fn structures_in<Crate, S: Json<Crate>>(
    alloc: Global,
    items: &[Value],
    at: &str,
) -> Result<Row<S>, FieldError>
    ensures { Reads (map S.plain) result (each (reading (struct S.fields)) (items_of (map view items.now)) 0 at.now) }
{
    let mut row = Row::new(alloc);
    for (place, item) in items.iter().enumerate() {
        row.push(structure_at(alloc, item, at, place)?)?;
    }
    Ok(row)
}

fn number_at(alloc: Global, item: &Value, at: &str, place: usize) -> Result<u32, FieldError>
    ensures { Reads (λ x. x) result (reading number (view item.now) (item_path at.now place)) }
{
    match leaf::number(item) {
        Ok(number) => Ok(number),
        Err(cause) => {
            let path = path::item(alloc, at, place)?;
            Err(FieldError::Bad { path, cause })
        }
    }
}

fn structure_at<Crate, S: Json<Crate>>(
    alloc: Global,
    item: &Value,
    at: &str,
    place: usize,
) -> Result<S, FieldError>
    ensures { Reads S.plain result (reading (struct S.fields) (view item.now) (item_path at.now place)) }
{
    let path = path::item(alloc, at, place)?;
    S::from_json(alloc, item, path.as_str())
}

fn hash_at(alloc: Global, item: &Value, at: &str, place: usize) -> Result<u64, FieldError>
    ensures { Reads (λ x. x) result (reading hash (view item.now) (item_path at.now place)) }
{
    match leaf::hash(item) {
        Ok(hash) => Ok(hash),
        Err(cause) => {
            let path = path::item(alloc, at, place)?;
            Err(FieldError::Bad { path, cause })
        }
    }
}

fn unit_at(alloc: Global, item: &Value, at: &str, place: usize) -> Result<Unit, FieldError>
    ensures { Reads (λ x. x) result (reading unit (view item.now) (item_path at.now place)) }
{
    match leaf::unit(item) {
        Ok(unit) => Ok(unit),
        Err(cause) => {
            let path = path::item(alloc, at, place)?;
            Err(FieldError::Bad { path, cause })
        }
    }
}

/// Four units in one list; four zeros where it is missing.
pub fn four_units_of(
    alloc: Global,
    object: &Value,
    member: &str,
    path: &str,
) -> Result<(Unit, Unit, Unit, Unit), FieldError>
    ensures { Reads (λ u. (u.0, (u.1, (u.2, u.3)))) result
        (or_missing (missing four_units) (reading four_units) (get member.now (view object.now)) (member_path path.now member.now)) }
{
    if object.get(member).is_none() {
        return Ok((Unit::Zero, Unit::Zero, Unit::Zero, Unit::Zero));
    }
    let items = list_of(alloc, object, member, path)?;
    let at = path::join(alloc, path, member)?;
    four_units_in(alloc, items, at.as_str())
}

/// The units of a list, which has to have four.
#[tactic(auto, using(crate::proofs::Loop::four_of_other))]
fn four_units_in(
    alloc: Global,
    items: &[Value],
    at: &str,
) -> Result<(Unit, Unit, Unit, Unit), FieldError>
    ensures { Reads (λ u. (u.0, (u.1, (u.2, u.3)))) result (four_of (items_of (map view items.now)) at.now) }
{
    let [a, b, c, d] = items else {
        let path = Name::from_string(String::from_str(alloc, at)?);
        return Err(FieldError::Bad {
            path,
            cause: FieldCause::BadLength,
        });
    };
    let a = unit_at(alloc, a, at, 0)?;
    let b = unit_at(alloc, b, at, 1)?;
    let c = unit_at(alloc, c, at, 2)?;
    let d = unit_at(alloc, d, at, 3)?;
    Ok((a, b, c, d))
}
