//! The members of an object by their keys.

ghost use Rattle.std.specs.Prelude.{◌≡◌, [], ◌∷◌, ◌++◌, false, IfNone, IfOk, IfSome, OnOk, bytes_eq, is_some, option_copied};
ghost use Rattle.helix_json.specs.declared.value.Json.{Str};
ghost use Rattle.helix_json.specs.declared.value.Json.TheViews as view;
ghost use Rattle.helix_places.specs.Members.{are_keys, has_key, is_list, is_string, items_of, members_of, some_is, value_of};

use helix_base::{Memory, Text};
use helix_json::{Json, Member};
use std::alloc::Global;

/// The members of an object, and None of any other value.
pub fn as_object(json: &Json) -> Option<&[Member]>
    ensures some { IfSome result (λ members. json.now ≡ view.Object members.now) }
    ensures none { IfNone result (members_of json.now ≡ []) }
{
    match json {
        Json::Null => None,
        Json::Bool(_) => None,
        Json::Number(_) => None,
        Json::Str(_) => None,
        Json::List(_) => None,
        Json::Object(members) => Some(members.as_slice()),
    }
}

/// The items of a list, and None of any other value.
pub fn as_list(json: &Json) -> Option<&[Json]>
    ensures some { IfSome result (λ items. json.now ≡ view.List items.now) }
    ensures none { is_some result ≡ is_list json.now }
    ensures empty { IfNone result (items_of json.now ≡ []) }
{
    match json {
        Json::Null => None,
        Json::Bool(_) => None,
        Json::Number(_) => None,
        Json::Str(_) => None,
        Json::List(items) => Some(items.as_slice()),
        Json::Object(_) => None,
    }
}

/// The text of a word of ASCII characters.
pub fn word_text(alloc: Global, word: &str) -> Result<Text, Memory>
    ensures { IfOk result (λ text. text ≡ word.now) }
{
    let mut text = Text::new(alloc);
    push_bytes(&mut text, word.as_bytes())?;
    Ok(text)
}

/// Appends ASCII characters.
pub fn push_bytes(text: &mut Text, bytes: &[u8]) -> Result<(), Memory>
    ensures { OnOk result (text.new ≡ text.old ++ bytes.now) }
{
    for byte in bytes {
        text.push(u32::from(*byte))?;
    }
    Ok(())
}

/// Whether a text is a word of ASCII characters.
#[tactic(auto, using(crate::proofs::Words::eq_step, crate::proofs::Words::other_lengths))]
pub fn is_word(text: &[u32], word: &str) -> bool
    ensures { result ≡ bytes_eq text.now word.now }
{
    let bytes = word.as_bytes();
    if text.len() != bytes.len() {
        return false;
    }
    for (i, code) in text.iter().enumerate() {
        if *code != u32::from(bytes[i]) {
            return false;
        }
    }
    true
}

/// The value of the member with a key, which no two members have.
#[tactic(auto, using(crate::proofs::Words::value_step))]
pub fn value_of<'a>(members: &'a [Member], key: &str) -> Option<&'a Json>
    ensures { option_copied result ≡ value_of key.now members.now }
{
    for member in members {
        if is_word(member.key.codes(), key) {
            return Some(&member.value);
        }
    }
    None
}

/// Whether there is a member with a key.
pub fn has_key(members: &[Member], key: &str) -> bool
    ensures { result ≡ has_key key.now members.now }
{
    value_of(members, key).is_some()
}

/// Whether there is a list under a key.
pub fn has_list(members: &[Member], key: &str) -> bool
    ensures { result ≡ some_is is_list (value_of key.now members.now) }
{
    match value_of(members, key) {
        Some(value) => as_list(value).is_some(),
        None => false,
    }
}

/// Whether this is the one key.
pub fn is_key(members: &[Member], key: &str) -> bool
    ensures { result ≡ are_keys (key.now ∷ []) members.now }
{
    members.len() == 1 && has_key(members, key)
}

/// Whether these are the keys.
pub fn are_two_keys(members: &[Member], first: &str, second: &str) -> bool
    ensures { result ≡ are_keys (first.now ∷ second.now ∷ []) members.now }
{
    members.len() == 2 && has_key(members, first) && has_key(members, second)
}

/// Whether these are the keys.
pub fn are_three_keys(members: &[Member], first: &str, second: &str, third: &str) -> bool
    ensures { result ≡ are_keys (first.now ∷ second.now ∷ third.now ∷ []) members.now }
{
    members.len() == 3
        && has_key(members, first)
        && has_key(members, second)
        && has_key(members, third)
}

/// The text of a string, and None of any other value.
pub fn as_text(json: &Json) -> Option<&Text>
    ensures some { IfSome result (λ text. json.now ≡ Str text.now) }
    ensures none { is_some result ≡ is_string json.now }
{
    match json {
        Json::Null => None,
        Json::Bool(_) => None,
        Json::Number(_) => None,
        Json::Str(text) => Some(text),
        Json::List(_) => None,
        Json::Object(_) => None,
    }
}
