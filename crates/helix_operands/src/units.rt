//! The units of a number.

ghost use Rattle.std.specs.Prelude.{◌≤◌, ◌^◌, ℤ, nat_abs, IfNone, IfSome};
ghost use Rattle.helix_operands.specs.Values.{HasUnits};

use helix_json::{Json, is_number, number_units};

/// The units of 10^-15 of a JSON number, where they are a whole number from -10^35 to 10^35.
pub fn units_in(json: &Json) -> Option<i128>
    ensures some { IfSome result (HasUnits json.now) }
    ensures none { IfNone result ((units : ℤ) → nat_abs units ≤ 10 ^ 35 → ¬ HasUnits json.now units) }
{
    match json {
        Json::Number(text) => {
            if is_number(text) {
                number_units(text)
            } else {
                None
            }
        }
        Json::Null => None,
        Json::Bool(_) => None,
        Json::Str(_) => None,
        Json::List(_) => None,
        Json::Object(_) => None,
    }
}
