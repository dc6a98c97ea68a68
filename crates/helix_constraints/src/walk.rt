//! The search over all constraints of a value.

ghost use Rattle.std.specs.Prelude.{◌≡◌, IfOk};
ghost use Rattle.helix_json.specs.Values.{HasNoRepeatedKey};
ghost use Rattle.helix_json.specs.declared.value.Json.TheViews as view;
ghost use Rattle.helix_places.specs.Places.{Finds, InItem, InPart};
ghost use Rattle.helix_constraints.specs.Visited.{InConstraint, InConstraints, Visited, Within};
ghost use Rattle.helix_constraints.specs.declared.role.Role.TheVariants as role;

use crate::role::{Role, role_of_members};
use crate::rule::ConstraintRule;
use helix_base::Memory;
use helix_fields::{value_in, within};
use helix_json::{Json, Member};
use helix_places::{Place, Step, as_list, as_object};
use std::alloc::Global;

/// The first place in the text where a constraint of the value breaks the rule.
pub fn first_in_constraints<R: ConstraintRule>(
    alloc: Global,
    rule: &R,
    v: &Json,
) -> Result<Option<Place>, Memory>
    ensures { IfOk result (λ found. HasNoRepeatedKey v.now
        → Finds v.now (InConstraints (R.breaks rule.now) v.now) found) }
{
    match value_in(v, "constraints") {
        Some(constraints) => within(alloc, "constraints", in_list(alloc, rule, constraints)?),
        None => Ok(None),
    }
}

/// The same in one constraint.
#[cycle(walk)]
fn in_constraint<R: ConstraintRule>(
    alloc: Global,
    rule: &R,
    json: &Json,
) -> Result<Option<Place>, Memory>
    ensures { IfOk result (λ found. HasNoRepeatedKey json.now
        → Finds json.now (InConstraint (R.breaks rule.now) json.now) found) }
{
    match rule.fault(alloc, json)? {
        Some(place) => Ok(Some(place)),
        None => in_parts(alloc, rule, json),
    }
}

/// The same in the constraints within one.
#[cycle(walk)]
fn in_parts<R: ConstraintRule>(
    alloc: Global,
    rule: &R,
    json: &Json,
) -> Result<Option<Place>, Memory>
    ensures { IfOk result (λ found. HasNoRepeatedKey json.now
        → Finds json.now (Within (R.breaks rule.now) role.One json.now) found) }
{
    match as_object(json) {
        Some(members) => in_object(alloc, rule, members),
        None => Ok(None),
    }
}

#[cycle(walk)]
fn in_object<R: ConstraintRule>(
    alloc: Global,
    rule: &R,
    members: &[Member],
) -> Result<Option<Place>, Memory>
    ensures { let v = view.Object members.now in IfOk result (λ found. HasNoRepeatedKey v
        → Finds v (Within (R.breaks rule.now) role.One v) found) }
{
    match role_of_members(members) {
        Some(role) => in_members(alloc, rule, role, members),
        None => Ok(None),
    }
}

#[cycle(walk)]
fn in_members<R: ConstraintRule>(
    alloc: Global,
    rule: &R,
    role: Role,
    members: &[Member],
) -> Result<Option<Place>, Memory>
    ensures { let v = view.Object members.now in IfOk result (λ found. HasNoRepeatedKey v
        → Finds v (InPart (Visited (R.breaks rule.now) role) v) found) }
{
    for member in members {
        if let Some(mut place) = in_value(alloc, rule, role, &member.value)? {
            place.step_out(Step::Member(member.key.copy(alloc)?))?;
            return Ok(Some(place));
        }
    }
    Ok(None)
}

/// The same in a constraint, or in a list of constraints.
#[cycle(walk)]
fn in_value<R: ConstraintRule>(
    alloc: Global,
    rule: &R,
    role: Role,
    json: &Json,
) -> Result<Option<Place>, Memory>
    ensures { IfOk result (λ found. HasNoRepeatedKey json.now
        → Finds json.now (Visited (R.breaks rule.now) role json.now) found) }
{
    match role {
        Role::One => in_constraint(alloc, rule, json),
        Role::Many => in_list(alloc, rule, json),
    }
}

/// The same in a list of constraints.
#[cycle(walk)]
fn in_list<R: ConstraintRule>(alloc: Global, rule: &R, json: &Json) -> Result<Option<Place>, Memory>
    ensures { IfOk result (λ found. HasNoRepeatedKey json.now
        → Finds json.now (Visited (R.breaks rule.now) role.Many json.now) found) }
{
    match as_list(json) {
        Some(items) => in_items(alloc, rule, items),
        None => Ok(None),
    }
}

#[cycle(walk)]
fn in_items<R: ConstraintRule>(
    alloc: Global,
    rule: &R,
    items: &[Json],
) -> Result<Option<Place>, Memory>
    ensures { let v = view.List items.now in IfOk result (λ found. HasNoRepeatedKey v
        → Finds v (InItem (Visited (R.breaks rule.now) role.One) v) found) }
{
    for (i, item) in items.iter().enumerate() {
        if let Some(mut place) = in_constraint(alloc, rule, item)? {
            place.step_out(Step::Item(i))?;
            return Ok(Some(place));
        }
    }
    Ok(None)
}
