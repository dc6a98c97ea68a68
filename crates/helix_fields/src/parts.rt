//! Members of a value, and places in them.

ghost use Rattle.std.specs.Prelude.{◌≡◌, [], ◌∷◌, Some, None, if◌then◌else◌, IfOk, option_copied, option_map};
ghost use Rattle.helix_fields.specs.Under.{items_under, text_of_some, text_under};
ghost use Rattle.helix_places.specs.Members.{has_key, items_of, members_of, value_of};

use helix_base::{Memory, Text};
use helix_json::Json;
use helix_places::{Place, Step, as_list, as_object, place_of, value_of, word_text};
use std::alloc::Global;

/// The value under a key, where the value is an object that has the key.
pub fn value_in<'a>(v: &'a Json, key: &str) -> Option<&'a Json>
    ensures { option_copied result ≡ value_of key.now (members_of v.now) }
{
    match as_object(v) {
        Some(members) => value_of(members, key),
        None => None,
    }
}

/// Whether a value is an object that has a key.
pub fn has(v: &Json, key: &str) -> bool
    ensures { result ≡ has_key key.now (members_of v.now) }
{
    value_in(v, key).is_some()
}

/// The items of a list, and none of any other value.
fn items_in(v: &Json) -> &[Json]
    ensures { result.now ≡ items_of v.now }
{
    match as_list(v) {
        Some(items) => items,
        None => &[],
    }
}

/// The items of the list under a key, and none where there is no such list.
pub fn items_under<'a>(v: &'a Json, key: &str) -> &'a [Json]
    ensures { result.now ≡ items_under key.now v.now }
{
    match value_in(v, key) {
        Some(value) => items_in(value),
        None => &[],
    }
}

fn text_in(json: &Json) -> Option<&Text>
    ensures { option_copied result ≡ text_of_some (Some json.now) }
{
    match json {
        Json::Str(text) => Some(text),
        _ => None,
    }
}

/// The text of the string under a key.
pub fn text_under<'a>(v: &'a Json, key: &str) -> Option<&'a Text>
    ensures { option_copied result ≡ text_under key.now v.now }
{
    match value_in(v, key) {
        Some(value) => text_in(value),
        None => None,
    }
}

/// A place in the value under a key, as one in the object.
pub fn within(alloc: Global, key: &str, found: Option<Place>) -> Result<Option<Place>, Memory>
    ensures { IfOk result (λ outer. outer ≡ option_map (λ place. Step.Member key.now ∷ place) found) }
{
    match found {
        Some(mut place) => {
            place.step_out(Step::Member(word_text(alloc, key)?))?;
            Ok(Some(place))
        }
        None => Ok(None),
    }
}

/// The place of the member with a key, where it is refused.
pub fn refused_at(alloc: Global, key: &str, is_refused: bool) -> Result<Option<Place>, Memory>
    ensures { IfOk result (λ found. found ≡ (if is_refused then Some (Step.Member key.now ∷ []) else None)) }
{
    if is_refused {
        Ok(Some(place_of(alloc, key)?))
    } else {
        Ok(None)
    }
}
