//! JSON types of operands.

ghost use Rattle.std.specs.Prelude.{◌≡◌};
ghost use Rattle.helix_operands.specs.Rules.{has_grid_type, has_operand_type};
ghost use Rattle.helix_operands.specs.Values.{has_type};
ghost use Rattle.helix_places.specs.Members.{is_list, is_string};
ghost use Rattle.helix_values.specs.Class.{booleans, class_of_kind, moments, numbers, strings};

use helix_json::Json;
use helix_keywords::Keyword;
use helix_places::as_list;
use helix_values::Kind;

fn is_truth(json: &Json) -> bool
    ensures { result ≡ has_type booleans json.now }
{
    match json {
        Json::Bool(_) => true,
        Json::Null => false,
        Json::Number(_) => false,
        Json::Str(_) => false,
        Json::List(_) => false,
        Json::Object(_) => false,
    }
}

/// Whether a JSON value is a number.
pub fn is_number(json: &Json) -> bool
    ensures { result ≡ has_type numbers json.now }
{
    match json {
        Json::Number(_) => true,
        Json::Null => false,
        Json::Bool(_) => false,
        Json::Str(_) => false,
        Json::List(_) => false,
        Json::Object(_) => false,
    }
}

/// Whether a JSON value is a string.
pub fn is_string(json: &Json) -> bool
    ensures same { result ≡ is_string json.now }
    ensures strings { result ≡ has_type strings json.now }
    ensures moments { result ≡ has_type moments json.now }
{
    match json {
        Json::Str(_) => true,
        Json::Null => false,
        Json::Bool(_) => false,
        Json::Number(_) => false,
        Json::List(_) => false,
        Json::Object(_) => false,
    }
}

/// Whether a JSON value has the type in which values of a kind are written.
pub fn has_type(kind: Kind, json: &Json) -> bool
    ensures { result ≡ has_type (class_of_kind kind) json.now }
{
    match kind {
        Kind::Boolean => is_truth(json),
        Kind::Integer => is_number(json),
        Kind::Decimal => is_number(json),
        Kind::Text(_) => is_string(json),
        Kind::Date => is_string(json),
        Kind::DateTime => is_string(json),
        Kind::Code(_) => is_string(json),
    }
}

/// Whether a JSON value has the type in which a grid of a kind's ladder is named.
pub fn has_grid_type(kind: Kind, json: &Json) -> bool
    ensures { result ≡ has_grid_type (class_of_kind kind) json.now }
{
    match kind {
        Kind::Boolean => false,
        Kind::Integer => is_number(json),
        Kind::Decimal => is_number(json),
        Kind::Text(_) => false,
        Kind::Date => is_string(json),
        Kind::DateTime => is_string(json),
        Kind::Code(_) => false,
    }
}

/// Whether an operand has the JSON type that its keyword asks for.
pub fn has_operand_type(kind: Kind, keyword: Keyword, operand: &Json) -> bool
    ensures { result ≡ has_operand_type (class_of_kind kind) keyword operand.now }
{
    match keyword {
        Keyword::EqualTo => has_type(kind, operand),
        Keyword::InSet => as_list(operand).is_some() || is_string(operand),
        Keyword::IsNull => is_truth(operand),
        Keyword::MatchingRegex | Keyword::ContainingRegex => is_string(operand),
        Keyword::OfLength | Keyword::LongerThan | Keyword::ShorterThan => is_number(operand),
        Keyword::GreaterThan | Keyword::GreaterThanOrEqualTo => is_number(operand),
        Keyword::LessThan | Keyword::LessThanOrEqualTo => is_number(operand),
        Keyword::After | Keyword::AfterOrAt | Keyword::Before | Keyword::BeforeOrAt => is_string(
            operand,
        ),
        Keyword::GranularTo => !keyword.is_for_kind(kind) || has_grid_type(kind, operand),
    }
}
