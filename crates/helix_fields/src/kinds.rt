//! The types of fields.

ghost use Rattle.std.specs.Prelude.{◌≡◌};
ghost use Rattle.helix_fields.specs.Types.{code_named, is_code_word, is_plain_word, is_text_word, is_type, is_type_word, kind_named, text_named};

use helix_base::Alphabet;
use helix_json::Json;
use helix_places::is_word;
use helix_values::{Code, Kind};

/// The kind of values of a type: `boolean`, `integer`, `decimal`, `string`, whose texts are of the alphabet, `date`,
/// `datetime`, `isin`, `sedol` or `cusip`.
#[tactic(auto, unfolding(crate::specs::Types::kind_named))]
pub fn kind_named(alphabet: Alphabet, word: &[u32]) -> Option<Kind>
    ensures { result ≡ kind_named alphabet word.now }
{
    if is_word(word, "boolean") {
        Some(Kind::Boolean)
    } else if is_word(word, "integer") {
        Some(Kind::Integer)
    } else if is_word(word, "decimal") {
        Some(Kind::Decimal)
    } else {
        text_named(alphabet, word)
    }
}

#[tactic(auto, unfolding(crate::specs::Types::text_named))]
fn text_named(alphabet: Alphabet, word: &[u32]) -> Option<Kind>
    ensures { result ≡ text_named alphabet word.now }
{
    if is_word(word, "string") {
        Some(Kind::Text(alphabet))
    } else if is_word(word, "date") {
        Some(Kind::Date)
    } else if is_word(word, "datetime") {
        Some(Kind::DateTime)
    } else {
        code_named(word)
    }
}

#[tactic(auto, unfolding(crate::specs::Types::code_named))]
fn code_named(word: &[u32]) -> Option<Kind>
    ensures { result ≡ code_named word.now }
{
    if is_word(word, "isin") {
        Some(Kind::Code(Code::Isin))
    } else if is_word(word, "sedol") {
        Some(Kind::Code(Code::Sedol))
    } else if is_word(word, "cusip") {
        Some(Kind::Code(Code::Cusip))
    } else {
        None
    }
}

/// Whether a value is a string that is a type.
pub fn is_type(json: &Json) -> bool
    ensures { result ≡ is_type json.now }
{
    match json {
        Json::Str(word) => is_type_word(word.codes()),
        _ => false,
    }
}

#[tactic(auto, unfolding(crate::specs::Types::is_type_word))]
fn is_type_word(word: &[u32]) -> bool
    ensures { result ≡ is_type_word word.now }
{
    is_plain_word(word) || is_text_word(word) || is_code_word(word)
}

#[tactic(auto, unfolding(crate::specs::Types::is_plain_word))]
fn is_plain_word(word: &[u32]) -> bool
    ensures { result ≡ is_plain_word word.now }
{
    is_word(word, "boolean") || is_word(word, "integer") || is_word(word, "decimal")
}

#[tactic(auto, unfolding(crate::specs::Types::is_text_word))]
fn is_text_word(word: &[u32]) -> bool
    ensures { result ≡ is_text_word word.now }
{
    is_word(word, "string") || is_word(word, "date") || is_word(word, "datetime")
}

#[tactic(auto, unfolding(crate::specs::Types::is_code_word))]
fn is_code_word(word: &[u32]) -> bool
    ensures { result ≡ is_code_word word.now }
{
    is_word(word, "isin") || is_word(word, "sedol") || is_word(word, "cusip")
}
