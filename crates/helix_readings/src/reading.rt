//! The constraint that a value gives, by its form.

ghost use Rattle.std.specs.Prelude.{◌≡◌, ◌^◌, ◌<◌, Some, length, IfOk};
ghost use Rattle.helix_json.specs.declared.value.Json.TheViews as view;
ghost use Rattle.helix_keywords.specs.Forms.{form_of};
ghost use Rattle.helix_keywords.specs.declared.form.Form.TheVariants as forms;
ghost use Rattle.helix_operands.specs.Values.{Reads};
ghost use Rattle.helix_readings.specs.Given.{AreGiven, GivesConstraint, GivesElse, GivesList, GivesThen, GivesThenElse};
ghost use Rattle.helix_readings.specs.Inner.Operands.{MembersGive, OperandGives, OperandsGive};

use crate::leaf::{atomic, related};
use crate::made::{all_of, any_of, if_else_of, if_of, is_empty_list, negation_of};
use crate::path::{place_at_index, place_at_key};
use crate::sets::SetMembers;
use helix_base::Memory;
use helix_json::{Json, Member};
use helix_keywords::{Form, form_of};
use helix_places::{Place, as_list, as_object, is_word};
use helix_profile::{Constraint, Field, Parts};
use std::alloc::Global;

/// The constraint that a value at a place gives.
#[cycle(read)]
pub fn read_constraint(
    alloc: Global,
    fields: &[Field],
    sets: &[SetMembers],
    place: &Place,
    v: &Json,
) -> Result<Option<Constraint>, Memory>
    requires { length fields.now < 2 ^ 32 }
    ensures { IfOk result (Reads (GivesConstraint fields.now sets.now place.now v.now)) }
{
    match as_object(v) {
        Some(members) => read_object(alloc, fields, sets, place, members),
        None => Ok(None),
    }
}

#[cycle(read)]
fn read_object(
    alloc: Global,
    fields: &[Field],
    sets: &[SetMembers],
    place: &Place,
    members: &[Member],
) -> Result<Option<Constraint>, Memory>
    requires { length fields.now < 2 ^ 32 }
    ensures { IfOk result (Reads (MembersGive fields.now sets.now place.now members.now (form_of members.now))) }
{
    match form_of(members) {
        Some(Form::Atom(keyword)) => atomic(alloc, fields, sets, place, members, keyword),
        Some(Form::Related(keyword)) => Ok(related(fields, members, keyword)),
        Some(Form::Not) => {
            let found = read_operand(alloc, fields, sets, place, members, "not")?;
            negation_of(alloc, found)
        }
        Some(Form::AllOf) => {
            let found = read_operands(alloc, fields, sets, place, members, "allOf")?;
            Ok(all_of(found))
        }
        Some(Form::AnyOf) => {
            let found = read_operands(alloc, fields, sets, place, members, "anyOf")?;
            Ok(any_of(found))
        }
        Some(Form::If) => read_if(alloc, fields, sets, place, members),
        Some(Form::IfElse) => read_if_else(alloc, fields, sets, place, members),
        None => Ok(None),
    }
}

#[cycle(read)]
fn read_if(
    alloc: Global,
    fields: &[Field],
    sets: &[SetMembers],
    place: &Place,
    members: &[Member],
) -> Result<Option<Constraint>, Memory>
    requires { length fields.now < 2 ^ 32 }
    ensures { IfOk result (Reads (MembersGive fields.now sets.now place.now members.now (Some forms.If))) }
{
    match read_operand(alloc, fields, sets, place, members, "if")? {
        Some(condition) => read_then(alloc, fields, sets, place, members, condition),
        None => Ok(None),
    }
}

#[cycle(read)]
fn read_then(
    alloc: Global,
    fields: &[Field],
    sets: &[SetMembers],
    place: &Place,
    members: &[Member],
    condition: Constraint,
) -> Result<Option<Constraint>, Memory>
    requires { length fields.now < 2 ^ 32 }
    ensures { IfOk result
        (Reads (GivesThen (OperandGives fields.now sets.now place.now members.now) condition)) }
{
    match read_operand(alloc, fields, sets, place, members, "then")? {
        Some(consequent) => Ok(Some(if_of(alloc, condition, consequent)?)),
        None => Ok(None),
    }
}

#[cycle(read)]
fn read_if_else(
    alloc: Global,
    fields: &[Field],
    sets: &[SetMembers],
    place: &Place,
    members: &[Member],
) -> Result<Option<Constraint>, Memory>
    requires { length fields.now < 2 ^ 32 }
    ensures { IfOk result (Reads (MembersGive fields.now sets.now place.now members.now (Some forms.IfElse))) }
{
    match read_operand(alloc, fields, sets, place, members, "if")? {
        Some(condition) => read_then_else(alloc, fields, sets, place, members, condition),
        None => Ok(None),
    }
}

#[cycle(read)]
fn read_then_else(
    alloc: Global,
    fields: &[Field],
    sets: &[SetMembers],
    place: &Place,
    members: &[Member],
    condition: Constraint,
) -> Result<Option<Constraint>, Memory>
    requires { length fields.now < 2 ^ 32 }
    ensures { IfOk result
        (Reads (GivesThenElse (OperandGives fields.now sets.now place.now members.now) condition)) }
{
    match read_operand(alloc, fields, sets, place, members, "then")? {
        Some(consequent) => {
            read_else(alloc, fields, sets, place, members, condition, consequent)
        }
        None => Ok(None),
    }
}

#[cycle(read)]
fn read_else(
    alloc: Global,
    fields: &[Field],
    sets: &[SetMembers],
    place: &Place,
    members: &[Member],
    condition: Constraint,
    consequent: Constraint,
) -> Result<Option<Constraint>, Memory>
    requires { length fields.now < 2 ^ 32 }
    ensures { IfOk result
        (Reads (GivesElse (OperandGives fields.now sets.now place.now members.now) condition consequent)) }
{
    match read_operand(alloc, fields, sets, place, members, "else")? {
        Some(otherwise) => Ok(Some(if_else_of(alloc, condition, consequent, otherwise)?)),
        None => Ok(None),
    }
}

/// The constraint that the value under a key gives.
#[cycle(read)]
fn read_operand(
    alloc: Global,
    fields: &[Field],
    sets: &[SetMembers],
    place: &Place,
    members: &[Member],
    key: &str,
) -> Result<Option<Constraint>, Memory>
    requires { length fields.now < 2 ^ 32 }
    ensures { IfOk result (Reads (OperandGives fields.now sets.now place.now members.now key.now)) }
{
    for member in members {
        if is_word(member.key.codes(), key) {
            let inner = place_at_key(alloc, place, key)?;
            return read_constraint(alloc, fields, sets, &inner, &member.value);
        }
    }
    Ok(None)
}

/// The constraints that the list under a key gives.
#[cycle(read)]
fn read_operands(
    alloc: Global,
    fields: &[Field],
    sets: &[SetMembers],
    place: &Place,
    members: &[Member],
    key: &str,
) -> Result<Option<Parts>, Memory>
    requires { length fields.now < 2 ^ 32 }
    ensures { IfOk result (Reads (OperandsGive fields.now sets.now place.now members.now key.now)) }
{
    for member in members {
        if is_word(member.key.codes(), key) {
            let inner = place_at_key(alloc, place, key)?;
            return read_list(alloc, fields, sets, &inner, &member.value);
        }
    }
    Ok(None)
}

#[cycle(read)]
fn read_list(
    alloc: Global,
    fields: &[Field],
    sets: &[SetMembers],
    place: &Place,
    v: &Json,
) -> Result<Option<Parts>, Memory>
    requires { length fields.now < 2 ^ 32 }
    ensures { IfOk result (Reads (GivesList fields.now sets.now place.now v.now)) }
{
    match as_list(v) {
        Some(items) => {
            if is_empty_list(items) {
                return Ok(None);
            }
            read_parts(alloc, fields, sets, place, items)
        }
        None => Ok(None),
    }
}

#[cycle(read)]
fn read_parts(
    alloc: Global,
    fields: &[Field],
    sets: &[SetMembers],
    place: &Place,
    items: &[Json],
) -> Result<Option<Parts>, Memory>
    requires { length fields.now < 2 ^ 32 }
    ensures { IfOk result (Reads (AreGiven fields.now sets.now place.now 0 items.now)) }
{
    let mut parts = Parts::new(alloc);
    for (i, item) in items.iter().enumerate() {
        let inner = place_at_index(alloc, place, i)?;
        match read_constraint(alloc, fields, sets, &inner, item)? {
            Some(part) => parts.push(part)?,
            None => return Ok(None),
        }
    }
    Ok(Some(parts))
}
