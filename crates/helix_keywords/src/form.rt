//! The form of a constraint.

ghost use Rattle.std.specs.Prelude.{◌≡◌, ◌||◌, [], ◌∷◌, true, false, codes, IfNone, IfSome};
ghost use Rattle.helix_keywords.specs.declared.form.Form.{Form as Shape};
ghost use Rattle.helix_keywords.specs.Forms.{form_of, has_form};
ghost use Rattle.helix_keywords.specs.Inner.Telling.{form_told, part_form, shorter};
ghost use Rattle.helix_places.specs.Members.{are_keys};

use crate::keyword::{FieldKeyword, Keyword, field_keyword_named, keyword_named};
use helix_json::Member;
use helix_places::{are_three_keys, are_two_keys, has_key, is_key, is_word};

/// How an object that stands for a constraint is written, by its keys.
#[derive(Clone, Copy, Debug, PartialEq, Eq)]
pub enum Form {
    /// `field` and an atomic keyword.
    Atom(Keyword),
    /// `field` and a field keyword, with none, one or both of `offset` and `offsetUnit`.
    Related(FieldKeyword),
    /// `not`.
    Not,
    /// `anyOf`.
    AnyOf,
    /// `allOf`.
    AllOf,
    /// `if` and `then`.
    If,
    /// `if`, `then` and `else`.
    IfElse,
}

/// The form of an object with these members, no two of which have the same key.
pub fn form_of(members: &[Member]) -> Option<Form>
    ensures { result ≡ form_of members.now }
{
    let Some(form) = told_form(members) else {
        return None;
    };
    if has_form(members, form) {
        return Some(form);
    }
    if has_form(members, Form::IfElse) {
        return Some(Form::IfElse);
    }
    None
}

/// The form that the first key tells that tells one: the members have no form other than it and that with an `else`.
fn told_form(members: &[Member]) -> Option<Form>
    ensures some { IfSome result (λ told. (form : Shape) → has_form form members.now ≡ true → shorter form ≡ told) }
    ensures none { IfNone result ((form : Shape) → has_form form members.now ≡ false) }
{
    for member in members {
        if let Some(form) = form_told(member.key.codes()) {
            return Some(form);
        }
    }
    None
}

/// The form that a key tells.
#[tactic(auto, unfolding(crate::specs::Inner::Telling::form_told))]
fn form_told(word: &[u32]) -> Option<Form>
    ensures { result ≡ form_told word.now }
{
    if let Some(keyword) = keyword_named(word) {
        return Some(Form::Atom(keyword));
    }
    if let Some(keyword) = field_keyword_named(word) {
        return Some(Form::Related(keyword));
    }
    part_form(word)
}

#[tactic(auto, unfolding(crate::specs::Inner::Telling::part_form))]
fn part_form(word: &[u32]) -> Option<Form>
    ensures { result ≡ part_form word.now }
{
    if is_word(word, "not") {
        Some(Form::Not)
    } else if is_word(word, "anyOf") {
        Some(Form::AnyOf)
    } else if is_word(word, "allOf") {
        Some(Form::AllOf)
    } else if is_word(word, "if") {
        Some(Form::If)
    } else {
        None
    }
}

/// Whether members have a form.
#[tactic(auto, using(crate::proofs::Or::none), unfolding(crate::specs::Forms::has_form, crate::specs::Forms::key_sets))]
fn has_form(members: &[Member], form: Form) -> bool
    ensures { result ≡ has_form form members.now }
{
    match form {
        Form::Atom(keyword) => are_two_keys(members, "field", keyword.word()),
        Form::Related(keyword) => are_related_keys(members, keyword.word()),
        Form::Not => is_key(members, "not"),
        Form::AnyOf => is_key(members, "anyOf"),
        Form::AllOf => is_key(members, "allOf"),
        Form::If => are_two_keys(members, "if", "then"),
        Form::IfElse => are_three_keys(members, "if", "then", "else"),
    }
}

fn are_related_keys(members: &[Member], word: &str) -> bool
    ensures { result ≡ (are_keys (codes "field" ∷ word.now ∷ []) members.now
        || (are_keys (codes "field" ∷ word.now ∷ codes "offset" ∷ []) members.now
        || (are_keys (codes "field" ∷ word.now ∷ codes "offsetUnit" ∷ []) members.now
        || are_keys (codes "field" ∷ word.now ∷ codes "offset" ∷ codes "offsetUnit" ∷ []) members.now))) }
{
    are_two_keys(members, "field", word)
        || are_three_keys(members, "field", word, "offset")
        || are_three_keys(members, "field", word, "offsetUnit")
        || are_all_keys(members, word)
}

fn are_all_keys(members: &[Member], word: &str) -> bool
    ensures { result ≡ are_keys (codes "field" ∷ word.now ∷ codes "offset" ∷ codes "offsetUnit" ∷ []) members.now }
{
    members.len() == 4
        && has_key(members, "field")
        && has_key(members, word)
        && has_key(members, "offset")
        && has_key(members, "offsetUnit")
}
