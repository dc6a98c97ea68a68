//! The relation that a constraint gives.

ghost use Rattle.std.specs.Prelude.{◌≡◌, ◌^◌, ◌*◌, ◌<◌, ◌≤◌, ◌⊎◌, Some, None, length, nat_abs, option_copied, IfNone, IfSome, IsSome};
ghost use Rattle.helix_json.specs.declared.value.Json.TheViews as view;
ghost use Rattle.helix_keywords.specs.Forms.{HasForm};
ghost use Rattle.helix_keywords.specs.declared.form.Form.TheVariants as form;
ghost use Rattle.helix_profile.specs.declared.relation.Relation.{Relation as Given};
ghost use Rattle.helix_references.specs.Inner.Refusals.{IsNoOffset, IsNoPlain, IsNoShift, IsRefused};
ghost use Rattle.helix_references.specs.Relations.{GivesOffset, GivesPlain, GivesRelation, GivesShift, compare_of, shift_by};
ghost use Rattle.helix_references.specs.Rules.{IsUnbroken};
ghost use Rattle.helix_references.specs.Units.{greatest, size};
ghost use Rattle.helix_values.specs.Class.{class_of_kind};

use crate::naming::index_by;
use crate::offset::{is_too_far, units_in};
use crate::unit::{MomentUnit, unit_in};
use crate::whole::{Whole, whole_in};
use helix_json::{Json, Member};
use helix_keywords::FieldKeyword;
use helix_places::value_of;
use helix_profile::{Compare, Field, Relation};
use helix_values::{Kind, Offset};

/// The relation that an object with these members gives, which has the form of a relation with the keyword.
pub fn read_relation(
    fields: &[Field],
    members: &[Member],
    keyword: FieldKeyword,
) -> Option<Relation>
    requires { length fields.now < 2 ^ 32 }
    ensures gives { IfSome result (GivesRelation fields.now members.now keyword) }
    ensures none { IfNone result ((relation : Given) → ¬ (GivesRelation fields.now members.now keyword relation)) }
    ensures complete { HasForm members.now (form.Related keyword) → IsUnbroken fields.now (view.Object members.now)
        → IsSome result }
{
    relation_in(fields, members, keyword)
}

fn relation_in(fields: &[Field], members: &[Member], keyword: FieldKeyword) -> Option<Relation>
    requires { length fields.now < 2 ^ 32 }
    ensures gives { IfSome result (GivesRelation fields.now members.now keyword) }
    ensures refused { IfNone result (IsRefused fields.now members.now keyword) }
{
    let Some(left) = index_by(fields, value_of(members, "field")) else {
        return None;
    };
    let Some(right) = index_by(fields, value_of(members, keyword.word())) else {
        return None;
    };
    let offset = offset_in(
        fields[left].kind,
        fields[right].kind,
        value_of(members, "offset"),
        value_of(members, "offsetUnit"),
    );
    match offset {
        Some(offset) => Some(Relation {
            left: left as u32,
            compare: compare_of(keyword),
            right: right as u32,
            offset,
        }),
        None => None,
    }
}

/// How a field keyword compares.
fn compare_of(keyword: FieldKeyword) -> Compare
    ensures { result ≡ compare_of keyword }
{
    match keyword {
        FieldKeyword::EqualToField => Compare::Equal,
        FieldKeyword::GreaterThanField => Compare::Above,
        FieldKeyword::GreaterThanOrEqualToField => Compare::AtLeast,
        FieldKeyword::LessThanField => Compare::Below,
        FieldKeyword::LessThanOrEqualToField => Compare::AtMost,
        FieldKeyword::AfterField => Compare::Above,
        FieldKeyword::AfterOrAtField => Compare::AtLeast,
        FieldKeyword::BeforeField => Compare::Below,
        FieldKeyword::BeforeOrAtField => Compare::AtMost,
    }
}

/// The offset between fields of these kinds, by the values of `offset` and `offsetUnit`.
fn offset_in(left: Kind, right: Kind, offset: Option<&Json>, unit: Option<&Json>) -> Option<Offset>
    ensures some { IfSome result
        (GivesOffset (class_of_kind left) (Some right) (option_copied offset.entry) (option_copied unit.entry)) }
    ensures none { IfNone result
        (IsNoOffset (class_of_kind left) (Some right) (option_copied offset.entry) (option_copied unit.entry)) }
{
    match (offset, unit) {
        (None, None) => Some(Offset::Plain(0)),
        (Some(value), None) => number_offset(left, right, value),
        (Some(value), Some(unit)) => moment_offset(left, right, value, unit),
        (None, Some(_)) => None,
    }
}

fn number_offset(left: Kind, right: Kind, value: &Json) -> Option<Offset>
    ensures some { IfSome result (GivesOffset (class_of_kind left) (Some right) (Some value.now) None) }
    ensures none { IfNone result (IsNoOffset (class_of_kind left) (Some right) (Some value.now) None) }
{
    match left {
        Kind::Integer => plain_offset(value),
        Kind::Decimal => plain_offset(value),
        Kind::Boolean => None,
        Kind::Text(_) => None,
        Kind::Code(_) => None,
        Kind::Date => None,
        Kind::DateTime => None,
    }
}

fn plain_offset(value: &Json) -> Option<Offset>
    ensures some { IfSome result (GivesPlain value.now) }
    ensures none { IfNone result (IsNoPlain value.now) }
{
    match units_in(value) {
        Some(units) => Some(Offset::Plain(units)),
        None => None,
    }
}

fn moment_offset(left: Kind, right: Kind, value: &Json, unit: &Json) -> Option<Offset>
    ensures some { IfSome result (GivesOffset (class_of_kind left) (Some right) (Some value.now) (Some unit.now)) }
    ensures none { IfNone result (IsNoOffset (class_of_kind left) (Some right) (Some value.now) (Some unit.now)) }
{
    match left {
        Kind::Date => shift_in(right, value, unit),
        Kind::DateTime => shift_in(right, value, unit),
        Kind::Boolean => None,
        Kind::Integer => None,
        Kind::Decimal => None,
        Kind::Text(_) => None,
        Kind::Code(_) => None,
    }
}

fn shift_in(right: Kind, value: &Json, unit: &Json) -> Option<Offset>
    ensures some { IfSome result (GivesShift (Some right) value.now unit.now) }
    ensures none { IfNone result (IsNoShift (Some right) value.now unit.now) }
{
    let Some(unit) = unit_in(Some(right), unit) else {
        return None;
    };
    match whole_in(value) {
        Whole::Not => None,
        Whole::Beyond => None,
        Whole::Within(n) => {
            if is_too_far(unit, n) {
                return None;
            }
            Some(shift_by(unit, n))
        }
    }
}

/// The offset by a number of units.
fn shift_by(unit: MomentUnit, n: i128) -> Offset
    requires { nat_abs n * size unit ≤ greatest unit }
    ensures { result ≡ shift_by unit n }
{
    match unit {
        MomentUnit::Months => Offset::Months(n as i64),
        MomentUnit::Years => Offset::Years(n as i64),
        MomentUnit::WorkingDays => Offset::WorkingDays(n as i64),
        MomentUnit::Millis => Offset::Plain(n),
        MomentUnit::Seconds => Offset::Plain(n * 1_000),
        MomentUnit::Minutes => Offset::Plain(n * 60_000),
        MomentUnit::Hours => Offset::Plain(n * 3_600_000),
        MomentUnit::Days => Offset::Plain(n * 86_400_000),
    }
}
