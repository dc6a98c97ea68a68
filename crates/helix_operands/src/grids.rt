//! Levels of the ladders of grids.

ghost use Rattle.std.specs.Prelude.{◌≡◌, ◌≢◌, ◌<◌, ◌^◌, ℕ, pos, IfNone, IfSome};
ghost use Rattle.helix_operands.specs.Values.{GivesLevel, Reads, level_named};
ghost use Rattle.helix_values.specs.Class.{class_of_kind, moments, numbers};

use crate::units::units_in;
use helix_json::Json;
use helix_ladders::power_of_ten;
use helix_places::is_word;
use helix_values::Kind;

/// Number of levels of the ladder of numbers.
const LEVELS: u32 = 16;

/// The level of a kind's ladder that a JSON value gives.
pub fn level_in(kind: Kind, json: &Json) -> Option<u32>
    ensures { Reads (GivesLevel (class_of_kind kind) json.now) result }
{
    match kind {
        Kind::Integer => number_level(json),
        Kind::Decimal => number_level(json),
        Kind::Date => moment_level(json),
        Kind::DateTime => moment_level(json),
        Kind::Boolean => None,
        Kind::Text(_) => None,
        Kind::Code(_) => None,
    }
}

fn number_level(json: &Json) -> Option<u32>
    ensures { Reads (GivesLevel numbers json.now) result }
{
    match units_in(json) {
        Some(units) => level_of(units),
        None => None,
    }
}

/// The level of the grid whose step is this many units.
fn level_of(units: i128) -> Option<u32>
    ensures some { IfSome result (λ level. (level < 16) × (units ≡ pos (10 ^ level))) }
    ensures none { IfNone result ((level : ℕ) → level < 16 → units ≢ pos (10 ^ level)) }
{
    for level in 0..LEVELS {
        if units == i128::from(power_of_ten(level)) {
            return Some(level);
        }
    }
    None
}

fn moment_level(json: &Json) -> Option<u32>
    ensures { Reads (GivesLevel moments json.now) result }
{
    match json {
        Json::Str(word) => level_named(word.codes()),
        Json::Null => None,
        Json::Bool(_) => None,
        Json::Number(_) => None,
        Json::List(_) => None,
        Json::Object(_) => None,
    }
}

/// The level of a grid of moments by its name.
#[tactic(auto, unfolding(crate::specs::Values::level_named))]
fn level_named(word: &[u32]) -> Option<u32>
    ensures { result ≡ level_named word.now }
{
    if is_word(word, "millis") {
        Some(0)
    } else if is_word(word, "seconds") {
        Some(1)
    } else if is_word(word, "minutes") {
        Some(2)
    } else if is_word(word, "hours") {
        Some(3)
    } else if is_word(word, "days") {
        Some(4)
    } else if is_word(word, "months") {
        Some(5)
    } else if is_word(word, "years") {
        Some(6)
    } else {
        None
    }
}
