//! Relations as lines between two fields.

ghost use Rattle.std.specs.Prelude.{◌≡◌, ◌↔◌, ◌<◌, IfSome, IfOk, IsSomeAnd, IsTrue, length, option_copied};
ghost use Rattle.helix_json.specs.Values.{HasNoRepeatedKey};
ghost use Rattle.helix_keywords.specs.Forms.{form_of};
ghost use Rattle.helix_places.specs.Members.{members_of};
ghost use Rattle.helix_places.specs.Places.{Finds};
ghost use Rattle.helix_references.specs.Naming.{index_by, index_in};
ghost use Rattle.helix_rules.specs.Lines.{IsAlong, Joins, line_between, line_of, line_with, related_of};

use helix_base::Memory;
use helix_fields::refused_at;
use helix_json::{Json, Member};
use helix_keywords::{FieldKeyword, Form, form_of};
use helix_places::{Place, as_object, value_of};
use helix_profile::{Compare, Field, Relation};
use helix_references::{field_named, field_of};
use helix_values::Offset;
use std::alloc::Global;

/// Maximum number of fields of a profile.
pub const MAX_FIELDS: u32 = 64;

/// The place of the keyword of a constraint that is a relation along a line.
pub fn line_fault(
    alloc: Global,
    fields: &[Field],
    line: Relation,
    v: &Json,
) -> Result<Option<Place>, Memory>
    ensures { IfOk result (λ found. HasNoRepeatedKey v.now → Finds v.now (Joins fields.now line v.now) found) }
{
    let members = members_in(v);
    match related_of(form_of(members)) {
        Some(keyword) => {
            refused_at(alloc, keyword.word(), joins(fields, keyword, line, members))
        }
        None => Ok(None),
    }
}

/// Whether members relate two fields along a line.
fn joins(fields: &[Field], keyword: FieldKeyword, line: Relation, members: &[Member]) -> bool
    ensures { IsTrue result ↔ IsSomeAnd (line_with fields.now keyword members.now) (IsAlong line) }
{
    match line_with(fields, keyword, members) {
        Some(own) => own.left == line.left && own.right == line.right,
        None => false,
    }
}

/// The keyword of a constraint that has the form of a relation.
pub fn related_of(form: Option<Form>) -> Option<FieldKeyword>
    ensures { result ≡ related_of form }
{
    match form {
        Some(Form::Related(keyword)) => Some(keyword),
        _ => None,
    }
}

/// The line between the fields that the members of a relation name.
pub fn line_with(fields: &[Field], keyword: FieldKeyword, members: &[Member]) -> Option<Relation>
    ensures { result ≡ line_with fields.now keyword members.now }
{
    line_of(
        field_of(fields, members),
        index_by(fields, value_of(members, keyword.word())),
    )
}

/// The index of the field whose name a value is.
fn index_by(fields: &[Field], value: Option<&Json>) -> Option<usize>
    ensures { result ≡ index_by fields.now (option_copied value.entry) }
{
    match value {
        Some(value) => index_in(fields, value),
        None => None,
    }
}

fn index_in(fields: &[Field], value: &Json) -> Option<usize>
    ensures { result ≡ index_in fields.now value.now }
{
    match value {
        Json::Str(name) => field_named(fields, name.codes()),
        _ => None,
    }
}

fn line_of(left: Option<usize>, right: Option<usize>) -> Option<Relation>
    ensures { result ≡ line_of left right }
{
    match (left, right) {
        (Some(left), Some(right)) => line_between(left, right),
        _ => None,
    }
}

/// Two different fields of a profile have a line.
fn line_between(left: usize, right: usize) -> Option<Relation>
    ensures { result ≡ line_between left right }
{
    if left < 64 && right < 64 && left != right {
        Some(Relation {
            left: left as u32,
            compare: Compare::Equal,
            right: right as u32,
            offset: Offset::Plain(0),
        })
    } else {
        None
    }
}

fn members_in(v: &Json) -> &[Member]
    ensures { result.now ≡ members_of v.now }
{
    match as_object(v) {
        Some(members) => members,
        None => &[],
    }
}
