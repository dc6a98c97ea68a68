//! Today's form of what the older form has.

ghost use Rattle.std.specs.Prelude.{◌≡◌, IfOk, map};
ghost use Rattle.helix_json.specs.declared.value.Json.TheViews as view;
ghost use Rattle.helix_legacy.specs.Inner.Converted.{branches, operands};
ghost use Rattle.helix_legacy.specs.Today.{constraint_today, constraints_today};

use crate::form::{Form, form_of};
use crate::table::{copy_object, test_today};
use helix_base::Memory;
use helix_json::{Items, Json, Member, Members};
use std::alloc::Global;

/// Today's form of a visited constraint.
#[cycle(convert)]
fn constraint_today(alloc: Global, json: &Json) -> Result<Json, Memory>
    ensures { IfOk result (λ today. today ≡ constraint_today json.now) }
{
    match json {
        Json::Object(members) => object_today(alloc, members.as_slice()),
        Json::Null => Ok(Json::Null),
        Json::Bool(is_true) => Ok(Json::Bool(*is_true)),
        Json::Number(text) => Ok(Json::Number(text.copy(alloc)?)),
        Json::Str(text) => Ok(Json::Str(text.copy(alloc)?)),
        Json::List(_) => json.copy(alloc),
    }
}

#[cycle(convert)]
fn object_today(alloc: Global, members: &[Member]) -> Result<Json, Memory>
    ensures { IfOk result (λ today. today ≡ constraint_today (view.Object members.now)) }
{
    match form_of(members) {
        Form::Test => test_today(alloc, members),
        Form::Operands => operands_today(alloc, members),
        Form::Branches => branches_today(alloc, members),
        Form::Other => copy_object(alloc, members),
    }
}

/// An object whose values are visited constraints.
#[cycle(convert)]
fn operands_today(alloc: Global, members: &[Member]) -> Result<Json, Memory>
    ensures { IfOk result (λ today. today ≡ view.Object (operands members.now)) }
{
    let mut all = Members::new(alloc);
    for old in members {
        let value = constraint_today(alloc, &old.value)?;
        let key = old.key.copy(alloc)?;
        all.push(Member { key, value })?;
    }
    Ok(Json::Object(all))
}

/// An object whose values are lists of visited constraints.
#[cycle(convert)]
fn branches_today(alloc: Global, members: &[Member]) -> Result<Json, Memory>
    ensures { IfOk result (λ today. today ≡ view.Object (branches members.now)) }
{
    let mut all = Members::new(alloc);
    for old in members {
        let value = constraints_today(alloc, &old.value)?;
        let key = old.key.copy(alloc)?;
        all.push(Member { key, value })?;
    }
    Ok(Json::Object(all))
}

/// Today's form of a list of visited constraints.
#[cycle(convert)]
pub fn constraints_today(alloc: Global, json: &Json) -> Result<Json, Memory>
    ensures { IfOk result (λ today. today ≡ constraints_today json.now) }
{
    match json {
        Json::List(items) => items_today(alloc, items.as_slice()),
        Json::Null => Ok(Json::Null),
        Json::Bool(is_true) => Ok(Json::Bool(*is_true)),
        Json::Number(text) => Ok(Json::Number(text.copy(alloc)?)),
        Json::Str(text) => Ok(Json::Str(text.copy(alloc)?)),
        Json::Object(_) => json.copy(alloc),
    }
}

#[cycle(convert)]
fn items_today(alloc: Global, items: &[Json]) -> Result<Json, Memory>
    ensures { IfOk result (λ today. today ≡ view.List (map constraint_today items.now)) }
{
    let mut all = Items::new(alloc);
    for item in items {
        all.push(constraint_today(alloc, item)?)?;
    }
    Ok(Json::List(all))
}
