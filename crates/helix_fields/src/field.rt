//! The form of each field.

ghost use Rattle.std.specs.Prelude.{◌≡◌, IfOk};
ghost use Rattle.helix_json.specs.Values.{HasNoRepeatedKey};
ghost use Rattle.helix_json.specs.declared.value.Json.TheViews as view;
ghost use Rattle.helix_places.specs.Places.{Finds, InItem};
ghost use Rattle.helix_fields.specs.FieldRules.{BreaksField, BreaksFieldForm, BreaksUnique, BreaksUniqueField, is_named_and_typed, is_true};
ghost use Rattle.helix_fields.specs.Inner.Objects.{BreaksInField};

use crate::faulty::{Object, faulty_member};
use crate::parts::{has, refused_at, value_in, within};
use helix_base::Memory;
use helix_json::Json;
use helix_places::{Place, Step, as_list};
use std::alloc::Global;

/// A rule of each field by itself.
#[derive(Clone, Copy, Debug)]
pub enum FieldRule {
    /// It has the members that a field may have.
    Form,
    /// Its `unique` isn't true.
    Unique,
}

/// The place of the first field that isn't as a field has to be, or of its first member that isn't (S4).
pub fn field_fault(alloc: Global, v: &Json) -> Result<Option<Place>, Memory>
    ensures { IfOk result (λ found. HasNoRepeatedKey v.now → Finds v.now (BreaksField v.now) found) }
{
    match value_in(v, "fields") {
        Some(fields) => within(alloc, "fields", in_fields(alloc, FieldRule::Form, fields)?),
        None => Ok(None),
    }
}

/// The place of the first `unique` that is true (S6).
pub fn unique_fault(alloc: Global, v: &Json) -> Result<Option<Place>, Memory>
    ensures { IfOk result (λ found. HasNoRepeatedKey v.now → Finds v.now (BreaksUnique v.now) found) }
{
    match value_in(v, "fields") {
        Some(fields) => within(
            alloc,
            "fields",
            in_fields(alloc, FieldRule::Unique, fields)?,
        ),
        None => Ok(None),
    }
}

/// The first place in `fields` where a field breaks the rule.
fn in_fields(alloc: Global, rule: FieldRule, fields: &Json) -> Result<Option<Place>, Memory>
    ensures { IfOk result (λ found. HasNoRepeatedKey fields.now
        → Finds fields.now (InItem (BreaksInField rule) fields.now) found) }
{
    match as_list(fields) {
        Some(items) => in_items(alloc, rule, items),
        None => Ok(None),
    }
}

fn in_items(alloc: Global, rule: FieldRule, items: &[Json]) -> Result<Option<Place>, Memory>
    ensures { let v = view.List items.now in
        IfOk result (λ found. HasNoRepeatedKey v → Finds v (InItem (BreaksInField rule) v) found) }
{
    for (i, item) in items.iter().enumerate() {
        if let Some(mut place) = in_field(alloc, rule, item)? {
            place.step_out(Step::Item(i))?;
            return Ok(Some(place));
        }
    }
    Ok(None)
}

fn in_field(alloc: Global, rule: FieldRule, field: &Json) -> Result<Option<Place>, Memory>
    ensures { IfOk result (λ found. HasNoRepeatedKey field.now → Finds field.now (BreaksInField rule field.now) found) }
{
    match rule {
        FieldRule::Form => form_fault(alloc, field),
        FieldRule::Unique => own_unique_fault(alloc, field),
    }
}

fn form_fault(alloc: Global, field: &Json) -> Result<Option<Place>, Memory>
    ensures { IfOk result (λ found. HasNoRepeatedKey field.now → Finds field.now (BreaksFieldForm field.now) found) }
{
    if is_named_and_typed(field) {
        faulty_member(alloc, Object::Field, field)
    } else {
        Ok(Some(Place::top(alloc)))
    }
}

fn is_named_and_typed(field: &Json) -> bool
    ensures { result ≡ is_named_and_typed field.now }
{
    has(field, "name") && has(field, "type")
}

fn own_unique_fault(alloc: Global, field: &Json) -> Result<Option<Place>, Memory>
    ensures { IfOk result (λ found. HasNoRepeatedKey field.now → Finds field.now (BreaksUniqueField field.now) found) }
{
    match value_in(field, "unique") {
        Some(value) => refused_at(alloc, "unique", is_true(value)),
        None => Ok(None),
    }
}

fn is_true(json: &Json) -> bool
    ensures { result ≡ is_true json.now }
{
    match json {
        Json::Bool(b) => *b,
        _ => false,
    }
}
