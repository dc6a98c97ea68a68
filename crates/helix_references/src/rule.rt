//! The rules on the fields of a constraint.

ghost use Rattle.std.specs.Prelude.{◌≡◌, ◌↔◌, IfOk, IsTrue};
ghost use Rattle.helix_json.specs.Values.{HasNoRepeatedKey};
ghost use Rattle.helix_json.specs.declared.value.Json.TheViews as view;
ghost use Rattle.helix_keywords.specs.Forms.{form_of};
ghost use Rattle.helix_places.specs.Places.{Finds};
ghost use Rattle.helix_references.specs.Rules.{Breaks, IsFaulty};

use crate::fields::{are_one, are_unlike, is_misused, is_relation_key, names_field};
use crate::naming::{index_by, index_in, kind_at};
use crate::offset::is_faulty_at;
use helix_base::Memory;
use helix_json::{Json, Member};
use helix_keywords::{Form, form_of};
use helix_places::{Place, Step, as_object, value_of};
use helix_profile::Field;
use std::alloc::Global;

/// A rule on the fields of a constraint, in the order in which the rules are tried.
#[derive(Clone, Copy, Debug, PartialEq, Eq)]
pub enum ReferenceRule {
    /// S9: a name is that of no declared field.
    Reference,
    /// S10: the keyword isn't for the field's type.
    Class,
    /// S18: the two fields of a relation are of different classes.
    OneClass,
    /// S19: a field is related to itself.
    TwoFields,
    /// S20: the offset of a relation, or its unit, isn't one for the fields.
    Offset,
}

/// The first place in a constraint where it breaks a rule itself, constraints within it left aside.
pub fn reference_fault(
    alloc: Global,
    rule: ReferenceRule,
    fields: &[Field],
    constraint: &Json,
) -> Result<Option<Place>, Memory>
    ensures { IfOk result (λ found. HasNoRepeatedKey constraint.now
        → Finds constraint.now (Breaks rule fields.now constraint.now) found) }
{
    match as_object(constraint) {
        Some(members) => members_fault(alloc, rule, fields, members),
        None => Ok(None),
    }
}

fn members_fault(
    alloc: Global,
    rule: ReferenceRule,
    fields: &[Field],
    members: &[Member],
) -> Result<Option<Place>, Memory>
    ensures { let v = view.Object members.now in
        IfOk result (λ found. HasNoRepeatedKey v → Finds v (Breaks rule fields.now v) found) }
{
    let form = form_of(members);
    for member in members {
        if is_faulty(
            rule,
            fields,
            members,
            form,
            member.key.codes(),
            &member.value,
        ) {
            let mut place = Place::top(alloc);
            place.step_out(Step::Member(member.key.copy(alloc)?))?;
            return Ok(Some(place));
        }
    }
    Ok(None)
}

/// Whether the rule is broken at the member with this key and value.
#[tactic(auto, unfolding(crate::specs::Rules::IsFaulty))]
fn is_faulty(
    rule: ReferenceRule,
    fields: &[Field],
    members: &[Member],
    form: Option<Form>,
    key: &[u32],
    value: &Json,
) -> bool
    ensures { IsTrue result ↔ IsFaulty rule fields.now members.now form key.now value.now }
{
    match rule {
        ReferenceRule::Reference => names_field(form, key) && index_in(fields, value).is_none(),
        ReferenceRule::Class => {
            is_misused(
                form,
                kind_at(fields, index_by(fields, value_of(members, "field"))),
                key,
            )
        }
        ReferenceRule::OneClass => {
            is_relation_key(form, key)
                && are_unlike(
                    kind_at(fields, index_by(fields, value_of(members, "field"))),
                    kind_at(fields, index_in(fields, value)),
                )
        }
        ReferenceRule::TwoFields => {
            is_relation_key(form, key)
                && are_one(
                    index_by(fields, value_of(members, "field")),
                    index_in(fields, value),
                )
        }
        ReferenceRule::Offset => match form {
            Some(Form::Related(keyword)) => {
                is_faulty_at(
                    kind_at(fields, index_by(fields, value_of(members, "field"))),
                    kind_at(fields, index_by(fields, value_of(members, keyword.word()))),
                    members,
                    key,
                    value,
                )
            }
            _ => false,
        },
    }
}
