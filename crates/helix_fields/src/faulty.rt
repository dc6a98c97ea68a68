//! Members that an object may not have.

ghost use Rattle.std.specs.Prelude.{◌≡◌, IfOk};
ghost use Rattle.helix_json.specs.Values.{HasNoRepeatedKey};
ghost use Rattle.helix_json.specs.declared.value.Json.TheViews as view;
ghost use Rattle.helix_places.specs.Members.{is_string};
ghost use Rattle.helix_places.specs.Places.{Finds};
ghost use Rattle.helix_fields.specs.FaultyMember.{IsFaultyMember};
ghost use Rattle.helix_fields.specs.FieldRules.{is_field_member, is_truth};
ghost use Rattle.helix_fields.specs.Inner.Objects.{may_have};
ghost use Rattle.helix_fields.specs.Whole.{is_profile_member};

use crate::kinds::is_type;
use helix_base::Memory;
use helix_json::{Json, Member};
use helix_places::{Place, Step, as_object, as_text, is_word};
use std::alloc::Global;

/// An object whose members are known.
#[derive(Clone, Copy, Debug)]
pub enum Object {
    Profile,
    Field,
}

/// The place of the first member that the object may not have.
pub fn faulty_member(alloc: Global, object: Object, json: &Json) -> Result<Option<Place>, Memory>
    ensures { IfOk result (λ found. HasNoRepeatedKey json.now
        → Finds json.now (IsFaultyMember (may_have object) json.now) found) }
{
    match as_object(json) {
        Some(members) => in_members(alloc, object, members),
        None => Ok(None),
    }
}

fn in_members(alloc: Global, object: Object, members: &[Member]) -> Result<Option<Place>, Memory>
    ensures { let v = view.Object members.now in IfOk result (λ found. HasNoRepeatedKey v
        → Finds v (IsFaultyMember (may_have object) v) found) }
{
    for member in members {
        if !may_have(object, member.key.codes(), &member.value) {
            let mut place = Place::top(alloc);
            place.step_out(Step::Member(member.key.copy(alloc)?))?;
            return Ok(Some(place));
        }
    }
    Ok(None)
}

fn may_have(object: Object, key: &[u32], value: &Json) -> bool
    ensures { result ≡ may_have object key.now value.now }
{
    match object {
        Object::Profile => is_profile_member(key, value),
        Object::Field => is_field_member(key, value),
    }
}

#[tactic(auto, unfolding(crate::specs::Whole::is_profile_member))]
fn is_profile_member(key: &[u32], value: &Json) -> bool
    ensures { result ≡ is_profile_member key.now value.now }
{
    is_word(key, "fields")
        || is_word(key, "constraints")
        || ((is_word(key, "description") || is_word(key, "schemaVersion")) && is_string(value))
}

#[tactic(auto, unfolding(crate::specs::FieldRules::is_field_member))]
fn is_field_member(key: &[u32], value: &Json) -> bool
    ensures { result ≡ is_field_member key.now value.now }
{
    if is_word(key, "type") {
        return is_type(value);
    }
    ((is_word(key, "name") || is_word(key, "description")) && is_string(value))
        || ((is_word(key, "nullable") || is_word(key, "unique")) && is_truth(value))
}

fn is_string(json: &Json) -> bool
    ensures { result ≡ is_string json.now }
{
    as_text(json).is_some()
}

fn is_truth(json: &Json) -> bool
    ensures { result ≡ is_truth json.now }
{
    match json {
        Json::Bool(_) => true,
        _ => false,
    }
}
