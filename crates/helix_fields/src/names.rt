//! The names of fields.

ghost use Rattle.std.specs.Prelude.{◌≡◌, ◌<◌, ◌↔◌, ℕ, length, Some, IfOk, IsSomeAnd, IsTrue, option_copied};
ghost use Rattle.helix_json.specs.Values.{HasNoRepeatedKey};
ghost use Rattle.helix_json.specs.declared.value.Json.TheViews as view;
ghost use Rattle.helix_places.specs.Places.{Finds};
ghost use Rattle.helix_fields.specs.FieldRules.{BreaksFieldName, BreaksNames, IsFaultyName, name_at, name_of};

use crate::parts::{text_under, value_in, within};
use helix_base::{Memory, Text};
use helix_json::Json;
use helix_places::{Place, Step, as_list, is_name_text, place_of};
use std::alloc::Global;

/// The place of the first name that is no name or is that of an earlier field (S5).
pub fn name_fault(alloc: Global, v: &Json) -> Result<Option<Place>, Memory>
    ensures { IfOk result (λ found. HasNoRepeatedKey v.now → Finds v.now (BreaksFieldName v.now) found) }
{
    match value_in(v, "fields") {
        Some(fields) => within(alloc, "fields", in_fields(alloc, fields)?),
        None => Ok(None),
    }
}

fn in_fields(alloc: Global, fields: &Json) -> Result<Option<Place>, Memory>
    ensures { IfOk result (Finds fields.now (BreaksNames fields.now)) }
{
    match as_list(fields) {
        Some(items) => in_items(alloc, items),
        None => Ok(None),
    }
}

fn in_items(alloc: Global, fields: &[Json]) -> Result<Option<Place>, Memory>
    ensures { let v = view.List fields.now in IfOk result (Finds v (BreaksNames v)) }
{
    for (i, field) in fields.iter().enumerate() {
        if has_faulty_name(&fields[..i], field) {
            let mut place = place_of(alloc, "name")?;
            place.step_out(Step::Item(i))?;
            return Ok(Some(place));
        }
    }
    Ok(None)
}

/// The name of a field.
pub fn name_in(field: &Json) -> Option<&Text>
    ensures { option_copied result ≡ name_of field.now }
{
    text_under(field, "name")
}

/// Whether the name of a field is no name, or is that of an earlier field.
fn has_faulty_name(earlier: &[Json], field: &Json) -> bool
    ensures { IsTrue result ↔ IsSomeAnd (name_of field.now) (IsFaultyName earlier.now) }
{
    match name_in(field) {
        Some(name) => is_faulty_name(earlier, name.codes()),
        None => false,
    }
}

fn is_faulty_name(earlier: &[Json], name: &[u32]) -> bool
    ensures { IsTrue result ↔ IsFaultyName earlier.now name.now }
{
    !is_name_text(name) || has_name(earlier, name)
}

/// Whether one of the fields has a name.
fn has_name(fields: &[Json], name: &[u32]) -> bool
    ensures { IsTrue result ↔ ((i : ℕ) × (i < length fields.now) × (name_at fields.now i ≡ Some name.now)) }
{
    for field in fields {
        if is_named(field, name) {
            return true;
        }
    }
    false
}

/// Whether a field has a name.
fn is_named(field: &Json, name: &[u32]) -> bool
    ensures { IsTrue result ↔ (name_of field.now ≡ Some name.now) }
{
    match name_in(field) {
        Some(own) => own.codes() == name,
        None => false,
    }
}
