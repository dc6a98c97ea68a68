//! The rules of a profile as a whole.

ghost use Rattle.std.specs.Prelude.{◌≡◌, IfOk};
ghost use Rattle.helix_json.specs.Values.{HasNoRepeatedKey};
ghost use Rattle.helix_places.specs.Members.{is_object};
ghost use Rattle.helix_places.specs.Places.{Finds};
ghost use Rattle.helix_fields.specs.Whole.{BreaksConstraintList, BreaksFieldList, BreaksProfileKey, IsNoObject, is_list_within};

use crate::faulty::{Object, faulty_member};
use crate::parts::{refused_at, value_in};
use helix_base::Memory;
use helix_json::Json;
use helix_places::{Place, as_list};
use std::alloc::Global;

/// The place of a value that is no object (S1).
pub fn object_fault(alloc: Global, v: &Json) -> Result<Option<Place>, Memory>
    ensures { IfOk result (λ found. HasNoRepeatedKey v.now → Finds v.now (IsNoObject v.now) found) }
{
    if is_object(v) {
        Ok(None)
    } else {
        Ok(Some(Place::top(alloc)))
    }
}

/// The place of the first member that a profile may not have (S2).
pub fn profile_key_fault(alloc: Global, v: &Json) -> Result<Option<Place>, Memory>
    ensures { IfOk result (λ found. HasNoRepeatedKey v.now → Finds v.now (BreaksProfileKey v.now) found) }
{
    faulty_member(alloc, Object::Profile, v)
}

/// The place of `fields` where it isn't a list of 1 to 64 items, or of the value where it is missing (S3).
pub fn field_list_fault(alloc: Global, v: &Json) -> Result<Option<Place>, Memory>
    ensures { IfOk result (λ found. HasNoRepeatedKey v.now → Finds v.now (BreaksFieldList v.now) found) }
{
    match value_in(v, "fields") {
        Some(fields) => refused_at(alloc, "fields", !is_list_within(1, 64, fields)),
        None => Ok(Some(Place::top(alloc))),
    }
}

/// The place of `constraints` where it is there and isn't a list of at most 1,000 items (S7).
pub fn constraint_list_fault(alloc: Global, v: &Json) -> Result<Option<Place>, Memory>
    ensures { IfOk result (λ found. HasNoRepeatedKey v.now → Finds v.now (BreaksConstraintList v.now) found) }
{
    match value_in(v, "constraints") {
        Some(constraints) => {
            refused_at(alloc, "constraints", !is_list_within(0, 1000, constraints))
        }
        None => Ok(None),
    }
}

fn is_object(json: &Json) -> bool
    ensures { result ≡ is_object json.now }
{
    match json {
        Json::Object(_) => true,
        _ => false,
    }
}

/// Whether a value is a list whose number of items is in a range.
fn is_list_within(least: usize, most: usize, json: &Json) -> bool
    ensures { result ≡ is_list_within least most json.now }
{
    match as_list(json) {
        Some(items) => least <= items.len() && items.len() <= most,
        None => false,
    }
}
