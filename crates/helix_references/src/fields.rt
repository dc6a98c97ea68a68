//! What the form of a constraint asks of the fields that it names.

ghost use Rattle.std.specs.Prelude.{◌≡◌, ◌↔◌, IsTrue};
ghost use Rattle.helix_references.specs.Rules.{AreOne, AreUnlike, is_misused, is_relation_key, names_field};
ghost use Rattle.helix_values.specs.Class.{class_of_kind};

use helix_keywords::Form;
use helix_places::is_word;
use helix_values::Kind;

/// Whether the value under a key is to name a field.
pub fn names_field(form: Option<Form>, key: &[u32]) -> bool
    ensures { result ≡ names_field form key.now }
{
    match form {
        Some(Form::Atom(_)) => is_word(key, "field"),
        Some(Form::Related(keyword)) => is_word(key, "field") || is_word(key, keyword.word()),
        _ => false,
    }
}

/// Whether a key is the keyword of a relation.
pub fn is_relation_key(form: Option<Form>, key: &[u32]) -> bool
    ensures { result ≡ is_relation_key form key.now }
{
    match form {
        Some(Form::Related(keyword)) => is_word(key, keyword.word()),
        _ => false,
    }
}

/// Whether a key is the keyword, which isn't for fields of the kind.
pub fn is_misused(form: Option<Form>, kind: Option<Kind>, key: &[u32]) -> bool
    ensures { result ≡ is_misused form kind key.now }
{
    match (form, kind) {
        (Some(Form::Atom(keyword)), Some(kind)) => {
            is_word(key, keyword.word()) && !keyword.is_for_kind(kind)
        }
        (Some(Form::Related(keyword)), Some(kind)) => {
            is_word(key, keyword.word()) && !keyword.is_for_kind(kind)
        }
        _ => false,
    }
}

/// Whether two kinds are of different classes.
pub fn are_unlike(kind: Option<Kind>, other: Option<Kind>) -> bool
    ensures { IsTrue result ↔ AreUnlike kind other }
{
    match (kind, other) {
        (Some(kind), Some(other)) => !is_same_class(kind, other),
        _ => false,
    }
}

fn is_same_class(kind: Kind, other: Kind) -> bool
    ensures { IsTrue result ↔ (class_of_kind kind ≡ class_of_kind other) }
{
    match (kind, other) {
        (Kind::Boolean, Kind::Boolean) => true,
        (Kind::Integer | Kind::Decimal, Kind::Integer | Kind::Decimal) => true,
        (Kind::Text(_) | Kind::Code(_), Kind::Text(_) | Kind::Code(_)) => true,
        (Kind::Date | Kind::DateTime, Kind::Date | Kind::DateTime) => true,
        _ => false,
    }
}

/// Whether two declared fields are one.
pub fn are_one(index: Option<usize>, other: Option<usize>) -> bool
    ensures { IsTrue result ↔ AreOne index other }
{
    match (index, other) {
        (Some(index), Some(other)) => index == other,
        _ => false,
    }
}
