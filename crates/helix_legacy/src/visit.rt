//! The first fault of a test among the visited constraints.

ghost use Rattle.std.specs.Prelude.{◌≡◌, IfOk};
ghost use Rattle.helix_json.specs.Values.{HasNoRepeatedKey};
ghost use Rattle.helix_json.specs.declared.value.Json.TheViews as view;
ghost use Rattle.helix_places.specs.Places.{Finds, InItem, InPart};
ghost use Rattle.helix_legacy.specs.Tests.{operand_fault, test_fault};
ghost use Rattle.helix_legacy.specs.Visited.{BreaksTests, one, many};

use crate::form::{Form, Line, form_of, has_table_word, line_of};
use helix_base::Memory;
use helix_json::{Json, Member};
use helix_places::{Place, Step, as_list, as_object, place_of, value_of};
use std::alloc::Global;

/// The place of the first fault in a visited constraint.
#[cycle(visit)]
fn in_constraint(alloc: Global, json: &Json) -> Result<Option<Place>, Memory>
    ensures { IfOk result (λ found. HasNoRepeatedKey json.now → Finds json.now (BreaksTests one json.now) found) }
{
    match as_object(json) {
        Some(members) => in_object(alloc, members),
        None => Ok(None),
    }
}

#[cycle(visit)]
fn in_object(alloc: Global, members: &[Member]) -> Result<Option<Place>, Memory>
    ensures { let v = view.Object members.now in
        IfOk result (λ found. HasNoRepeatedKey v → Finds v (BreaksTests one v) found) }
{
    match form_of(members) {
        Form::Test => test_fault(alloc, members),
        Form::Operands => in_operands(alloc, members),
        Form::Branches => in_branches(alloc, members),
        Form::Other => Ok(None),
    }
}

/// The same in the members of an object, whose values are visited constraints.
#[cycle(visit)]
fn in_operands(alloc: Global, members: &[Member]) -> Result<Option<Place>, Memory>
    ensures { let v = view.Object members.now in
        IfOk result (λ found. HasNoRepeatedKey v → Finds v (InPart (BreaksTests one) v) found) }
{
    for member in members {
        if let Some(mut place) = in_constraint(alloc, &member.value)? {
            place.step_out(Step::Member(member.key.copy(alloc)?))?;
            return Ok(Some(place));
        }
    }
    Ok(None)
}

/// The same in the members of an object, whose values are lists of visited constraints.
#[cycle(visit)]
fn in_branches(alloc: Global, members: &[Member]) -> Result<Option<Place>, Memory>
    ensures { let v = view.Object members.now in
        IfOk result (λ found. HasNoRepeatedKey v → Finds v (InPart (BreaksTests many) v) found) }
{
    for member in members {
        if let Some(mut place) = in_constraints(alloc, &member.value)? {
            place.step_out(Step::Member(member.key.copy(alloc)?))?;
            return Ok(Some(place));
        }
    }
    Ok(None)
}

/// The same in a list of visited constraints.
#[cycle(visit)]
pub fn in_constraints(alloc: Global, json: &Json) -> Result<Option<Place>, Memory>
    ensures { IfOk result (λ found. HasNoRepeatedKey json.now → Finds json.now (BreaksTests many json.now) found) }
{
    match as_list(json) {
        Some(items) => in_items(alloc, items),
        None => Ok(None),
    }
}

#[cycle(visit)]
fn in_items(alloc: Global, items: &[Json]) -> Result<Option<Place>, Memory>
    ensures { let v = view.List items.now in
        IfOk result (λ found. HasNoRepeatedKey v → Finds v (InItem (BreaksTests one) v) found) }
{
    for (i, item) in items.iter().enumerate() {
        if let Some(mut place) = in_constraint(alloc, item)? {
            place.step_out(Step::Item(i))?;
            return Ok(Some(place));
        }
    }
    Ok(None)
}

/// The place of the first fault of an object with `is`.
#[tactic(auto, unfolding(crate::specs::Tests::test_fault))]
fn test_fault(alloc: Global, members: &[Member]) -> Result<Option<Place>, Memory>
    ensures { IfOk result (λ found. found ≡ test_fault members.now) }
{
    if !has_table_word(members) {
        return Ok(Some(place_of(alloc, "is")?));
    }
    match line_of(members) {
        Some(line) => operand_fault(alloc, line, members),
        None => Ok(Some(Place::top(alloc))),
    }
}

#[tactic(auto, unfolding(crate::specs::Tests::operand_fault))]
fn operand_fault(alloc: Global, line: Line, members: &[Member]) -> Result<Option<Place>, Memory>
    ensures { IfOk result (λ found. found ≡ operand_fault line members.now) }
{
    match line {
        Line::Null | Line::Value => Ok(None),
        Line::Values => match value_of(members, "values") {
            Some(Json::List(_)) => Ok(None),
            _ => Ok(Some(place_of(alloc, "values")?)),
        },
        Line::File => match value_of(members, "file") {
            Some(Json::Str(_)) => Ok(None),
            _ => Ok(Some(place_of(alloc, "file")?)),
        },
    }
}
