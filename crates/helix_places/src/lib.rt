//! Places in a JSON value: the way to a part, its pointer, which of two comes first in the text; members by their keys.
//!
//! ```
//! let mut place = place_of(alloc, "name")?;       // name
//! place.step_out(Step::Item(2))?;                 // 2, then name
//! place.step_out(Step::Member(fields))?;          // fields, then 2, then name
//! pointer_of(alloc, &place)?                      // "#/fields/2/name"
//! ```
//!
//! A [`Place`] is the steps from a value to one of its parts, from the outside in; a search that goes into the parts
//! makes it from the inside out. A rule of refusal is a property of places: `Finds` in `specs/Places.antt` says that a
//! search answered the first place in the text that has the property, or none where none has. [`value_of`] and its
//! sisters look at members by keys, of which no two are the same in a value that helix_json read.
//!
//! A member is found by a pass over the members before it, so few keys are looked for in small objects.
//!
//! The order of places is in `specs/Places.antt`, pointers in `specs/Pointers.antt`, members in `specs/Members.antt`,
//! names in `specs/Names.antt`. Lemmas on searches, for the crates above, are in `specs/PartLaws.antt`,
//! `specs/PlaceLaws.antt`, `specs/KeyLaws.antt` and `specs/ViewLaws.antt`.
#![tactic(auto)]

mod keys;
mod name;
mod place;
mod pointer;

pub use keys::{
    are_three_keys, are_two_keys, as_list, as_object, as_text, has_key, has_list, is_key, is_word,
    push_bytes, value_of, word_text,
};
pub use name::is_name_text;
pub use place::{Place, Step, place_of};
pub use pointer::pointer_of;

#[cfg(test)]
mod tests;
