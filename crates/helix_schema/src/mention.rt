//! A set file that a profile mentions.

ghost use Rattle.std.specs.Prelude.{◌≡◌, ◌++◌, [], ◌∷◌, IfOk, codes, option_copied};
ghost use Rattle.helix_keywords.specs.Forms.{form_of as form_by_keys};
ghost use Rattle.helix_places.specs.Members.{members_of, value_of as member_value};
ghost use Rattle.helix_places.specs.declared.place.Step.TheVariants as step;
ghost use Rattle.helix_references.specs.Naming.{kind_by};
ghost use Rattle.helix_traversal.specs.Traversal.{at_key};
ghost use Rattle.helix_schema.specs.Mentions.{mention_by, mention_in};

use helix_base::{Memory, Text};
use helix_json::{Json, Member};
use helix_keywords::{Form, Keyword, form_of};
use helix_places::{Place, Step, as_object, place_of, value_of};
use helix_profile::Field;
use helix_references::field_of;
use helix_values::Kind;
use std::alloc::Global;

/// An operand of `inSet` that names a set file.
#[derive(Debug, Drop)]
pub struct Mention {
    /// The name of the file.
    pub name: Text,
    /// The kind of the field that the constraint names: each member of the file is one of its values.
    pub kind: Kind,
    /// The place of the operand.
    pub place: Place,
}

/// The mention of a constraint at the end of a path itself, if it is one of `inSet` with the name of a file.
pub fn mention_at(
    alloc: Global,
    fields: &[Field],
    path: &[Step],
    v: &Json,
) -> Result<Option<Mention>, Memory>
    ensures { IfOk result (λ found. found ≡ mention_in fields.now path.now (members_of v.now)) }
{
    let members = members_in(v);
    match form_of(members) {
        Some(Form::Atom(Keyword::InSet)) => named_file(
            alloc,
            path,
            kind_of(fields, members),
            value_of(members, "inSet"),
        ),
        _ => Ok(None),
    }
}

fn named_file(
    alloc: Global,
    path: &[Step],
    kind: Option<Kind>,
    operand: Option<&Json>,
) -> Result<Option<Mention>, Memory>
    ensures { IfOk result (λ found.
        found ≡ mention_by (at_key path.now (codes "inSet")) kind (option_copied operand.entry)) }
{
    match (kind, operand) {
        (Some(kind), Some(Json::Str(name))) => Ok(Some(Mention {
            name: name.copy(alloc)?,
            kind,
            place: operand_place(alloc, path)?,
        })),
        _ => Ok(None),
    }
}

/// The kind of the field that the members of a constraint name.
fn kind_of(fields: &[Field], members: &[Member]) -> Option<Kind>
    ensures { result ≡ kind_by fields.now (member_value (codes "field") members.now) }
{
    match field_of(fields, members) {
        Some(field) => Some(fields[field].kind),
        None => None,
    }
}

/// The place of the operand of `inSet`, at the end of a path.
fn operand_place(alloc: Global, path: &[Step]) -> Result<Place, Memory>
    ensures { IfOk result (λ place. place ≡ at_key path.now (codes "inSet")) }
{
    let mut place = place_of(alloc, "inSet")?;
    for i in 0..path.len() {
        place.step_out(copy_of(alloc, &path[path.len() - 1 - i])?)?;
    }
    Ok(place)
}

fn copy_of(alloc: Global, step: &Step) -> Result<Step, Memory>
    ensures { IfOk result (λ copy. copy ≡ step.now) }
{
    match step {
        Step::Member(key) => Ok(Step::Member(key.copy(alloc)?)),
        Step::Item(index) => Ok(Step::Item(*index)),
    }
}

fn members_in(v: &Json) -> &[Member]
    ensures { result.now ≡ members_of v.now }
{
    match as_object(v) {
        Some(members) => members,
        None => &[],
    }
}
