//! The offset of a relation.

ghost use Rattle.std.specs.Prelude.{◌≡◌, ◌↔◌, ◌*◌, ◌^◌, ◌<◌, ◌≤◌, ◌⊎◌, ℤ, IsTrue, IfSome, IfNone, nat_abs, option_copied, bytes_eq, codes, true};
ghost use Rattle.helix_json.specs.declared.value.Json.{Number};
ghost use Rattle.helix_json.specs.Numbers.{IsUnits};
ghost use Rattle.helix_references.specs.Offsets.{GivesUnits, IsFaultyAt, IsFaultyMomentUnit, IsFaultyOffset, IsFaultyShift, IsFaultyUnit};
ghost use Rattle.helix_references.specs.Units.{greatest, size};
ghost use Rattle.helix_values.specs.Class.{class_of_kind};

use crate::unit::{MomentUnit, unit_in};
use crate::whole::{Whole, whole_in};
use helix_base::Text;
use helix_json::{Json, Member, is_number, number_units};
use helix_places::{is_word, value_of};
use helix_values::Kind;

/// Whether the member with this key and value is refused, of a relation between fields of these kinds.
pub fn is_faulty_at(
    left: Option<Kind>,
    right: Option<Kind>,
    members: &[Member],
    key: &[u32],
    value: &Json,
) -> bool
    ensures { IsTrue result ↔ IsFaultyAt left right members.now key.now value.now }
{
    let Some(left) = left else {
        return false;
    };
    if is_word(key, "offset") {
        return is_faulty_offset(left, right, value_of(members, "offsetUnit"), value);
    }
    if is_word(key, "offsetUnit") {
        return is_faulty_unit(left, right, value_of(members, "offset"), value);
    }
    false
}

fn is_faulty_offset(left: Kind, right: Option<Kind>, unit: Option<&Json>, value: &Json) -> bool
    ensures { IsTrue result ↔ IsFaultyOffset (class_of_kind left) right (option_copied unit.entry) value.now }
{
    match left {
        Kind::Boolean => true,
        Kind::Text(_) => true,
        Kind::Code(_) => true,
        Kind::Integer => units_in(value).is_none(),
        Kind::Decimal => units_in(value).is_none(),
        Kind::Date => is_faulty_shift(right, unit, value),
        Kind::DateTime => is_faulty_shift(right, unit, value),
    }
}

fn is_faulty_unit(left: Kind, right: Option<Kind>, offset: Option<&Json>, value: &Json) -> bool
    ensures { IsTrue result ↔ IsFaultyUnit (class_of_kind left) right (option_copied offset.entry) value.now }
{
    match left {
        Kind::Boolean => true,
        Kind::Text(_) => true,
        Kind::Code(_) => true,
        Kind::Integer => true,
        Kind::Decimal => true,
        Kind::Date => is_faulty_moment_unit(right, offset, value),
        Kind::DateTime => is_faulty_moment_unit(right, offset, value),
    }
}

fn is_faulty_moment_unit(right: Option<Kind>, offset: Option<&Json>, value: &Json) -> bool
    ensures { IsTrue result ↔ IsFaultyMomentUnit right (option_copied offset.entry) value.now }
{
    match offset {
        None => true,
        Some(_) => unit_in(right, value).is_none(),
    }
}

fn is_faulty_shift(right: Option<Kind>, unit: Option<&Json>, value: &Json) -> bool
    ensures { IsTrue result ↔ IsFaultyShift right (option_copied unit.entry) value.now }
{
    let Some(unit) = unit else {
        return true;
    };
    match whole_in(value) {
        Whole::Not => true,
        Whole::Within(n) => match unit_in(right, unit) {
            Some(unit) => is_too_far(unit, n),
            None => false,
        },
        Whole::Beyond => unit_in(right, unit).is_some(),
    }
}

/// Whether an offset is beyond the greatest one by its unit.
pub fn is_too_far(unit: MomentUnit, n: i128) -> bool
    requires { nat_abs n ≤ 10 ^ 20 }
    ensures { IsTrue result ↔ (greatest unit < nat_abs n * size unit) }
{
    unit.greatest() < n.unsigned_abs() * unit.size()
}

/// The offset between two numbers, in units of 10^-15.
pub fn units_in(value: &Json) -> Option<i128>
    ensures some { IfSome result (GivesUnits value.now) }
    ensures none { IfNone result ((units : ℤ) → ¬ (GivesUnits value.now units)) }
{
    match value {
        Json::Number(text) => units_of(text),
        _ => None,
    }
}

fn units_of(text: &Text) -> Option<i128>
    ensures some { IfSome result (λ units. IsUnits text.now units × (nat_abs units ≤ 10 ^ 35)) }
    ensures none { IfNone result ((units : ℤ) → nat_abs units ≤ 10 ^ 35 → ¬ (IsUnits text.now units)) }
{
    if is_number(text) {
        number_units(text)
    } else {
        None
    }
}
