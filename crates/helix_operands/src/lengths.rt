//! Lengths.

ghost use Rattle.std.specs.Prelude.{◌≡◌, ◌≢◌, ◌≤◌, ◌*◌, ◌^◌, ℕ, pos, IfNone, IfSome};
ghost use Rattle.helix_operands.specs.Values.{GivesLength, Reads};

use crate::units::units_in;
use helix_json::Json;
use helix_ladders::ONE;

/// Maximum length of a text.
const MAX_LENGTH: u64 = 1000;

/// The length that a JSON value gives.
pub fn length_in(json: &Json) -> Option<u32>
    ensures { Reads (GivesLength json.now) result }
{
    match units_in(json) {
        Some(units) => length_of(units),
        None => None,
    }
}

/// The length with these units.
fn length_of(units: i128) -> Option<u32>
    ensures some { IfSome result (λ n. (n ≤ 1000) × (units ≡ pos (n * 10 ^ 15))) }
    ensures none { IfNone result ((n : ℕ) → n ≤ 1000 → units ≢ pos (n * 10 ^ 15)) }
{
    let Ok(size) = u64::try_from(units) else {
        return None;
    };
    if size % ONE != 0 || size / ONE > MAX_LENGTH {
        return None;
    }
    Some((size / ONE) as u32)
}
