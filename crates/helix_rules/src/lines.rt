//! The relations of a profile in the order of the text, as lines.

ghost use Rattle.std.specs.Prelude.{◌≡◌, ◌++◌, IfOk, OnOk, flat_map};
ghost use Rattle.helix_json.specs.declared.value.Json.TheViews as view;
ghost use Rattle.helix_rules.specs.Inner.Parts.{branches, operands};
ghost use Rattle.helix_rules.specs.Lines.{inside_of, lines_in, lines_of, list_lines, own_lines, related_of};

use crate::line::{line_with, related_of};
use helix_base::Memory;
use helix_fields::value_in;
use helix_json::{Json, Member};
use helix_keywords::{Form, form_of};
use helix_places::{as_list, as_object};
use helix_profile::{Field, Relation};
use std::alloc::Global;

/// Which values of an object are constraints, or lists of them.
#[derive(Clone, Copy, Debug)]
enum Inside {
    Nothing,
    Operands,
    Branches,
}

/// The lines of a profile.
pub fn lines_of(alloc: Global, fields: &[Field], v: &Json) -> Result<Vec<Relation>, Memory>
    ensures { IfOk result (λ lines. lines.items ≡ lines_of fields.now v.now) }
{
    match value_in(v, "constraints") {
        Some(constraints) => lines_of_list(alloc, fields, constraints),
        None => Ok(Vec::new(alloc)),
    }
}

fn lines_of_list(alloc: Global, fields: &[Field], json: &Json) -> Result<Vec<Relation>, Memory>
    ensures { IfOk result (λ lines. lines.items ≡ list_lines fields.now json.now) }
{
    let mut lines = Vec::new(alloc);
    push_list(&mut lines, fields, json)?;
    Ok(lines)
}

/// Appends the lines of a constraint and of those within it.
#[cycle(collect)]
fn push_constraint(lines: &mut Vec<Relation>, fields: &[Field], json: &Json) -> Result<(), Memory>
    ensures { OnOk result (lines.new.items ≡ lines.old.items ++ lines_in fields.now json.now) }
{
    match as_object(json) {
        Some(members) => push_object(lines, fields, members),
        None => Ok(()),
    }
}

#[cycle(collect)]
fn push_object(
    lines: &mut Vec<Relation>,
    fields: &[Field],
    members: &[Member],
) -> Result<(), Memory>
    ensures { OnOk result
        (lines.new.items ≡ lines.old.items ++ lines_in fields.now (view.Object members.now)) }
{
    let form = form_of(members);
    match inside_of(form) {
        Inside::Nothing => push_own(lines, fields, form, members),
        Inside::Operands => push_operands(lines, fields, members),
        Inside::Branches => push_branches(lines, fields, members),
    }
}

fn inside_of(form: Option<Form>) -> Inside
    ensures { result ≡ inside_of form }
{
    match form {
        Some(Form::Not) => Inside::Operands,
        Some(Form::If) => Inside::Operands,
        Some(Form::IfElse) => Inside::Operands,
        Some(Form::AnyOf) => Inside::Branches,
        Some(Form::AllOf) => Inside::Branches,
        _ => Inside::Nothing,
    }
}

/// Appends the line of a constraint itself, if it is a relation.
fn push_own(
    lines: &mut Vec<Relation>,
    fields: &[Field],
    form: Option<Form>,
    members: &[Member],
) -> Result<(), Memory>
    ensures { OnOk result
        (lines.new.items ≡ lines.old.items ++ own_lines fields.now (related_of form) members.now) }
{
    if let Some(keyword) = related_of(form) {
        if let Some(line) = line_with(fields, keyword, members) {
            lines.push(line)?;
        }
    }
    Ok(())
}

/// Appends the lines of values that are constraints.
#[cycle(collect)]
fn push_operands(
    lines: &mut Vec<Relation>,
    fields: &[Field],
    members: &[Member],
) -> Result<(), Memory>
    ensures { OnOk result (lines.new.items ≡ lines.old.items ++ operands fields.now members.now) }
{
    for member in members {
        push_constraint(lines, fields, &member.value)?;
    }
    Ok(())
}

/// Appends the lines of values that are lists of constraints.
#[cycle(collect)]
fn push_branches(
    lines: &mut Vec<Relation>,
    fields: &[Field],
    members: &[Member],
) -> Result<(), Memory>
    ensures { OnOk result (lines.new.items ≡ lines.old.items ++ branches fields.now members.now) }
{
    for member in members {
        push_list(lines, fields, &member.value)?;
    }
    Ok(())
}

/// Appends the lines of a list of constraints.
#[cycle(collect)]
fn push_list(lines: &mut Vec<Relation>, fields: &[Field], json: &Json) -> Result<(), Memory>
    ensures { OnOk result (lines.new.items ≡ lines.old.items ++ list_lines fields.now json.now) }
{
    match as_list(json) {
        Some(items) => push_items(lines, fields, items),
        None => Ok(()),
    }
}

#[cycle(collect)]
fn push_items(lines: &mut Vec<Relation>, fields: &[Field], items: &[Json]) -> Result<(), Memory>
    ensures { OnOk result
        (lines.new.items ≡ lines.old.items ++ flat_map (lines_in fields.now) items.now) }
{
    for item in items {
        push_constraint(lines, fields, item)?;
    }
    Ok(())
}
