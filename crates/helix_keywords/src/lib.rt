//! The keywords of constraints, and the form of a constraint by its keys.
//!
//! ```
//! match form_of(members) {
//!     Some(Form::Atom(keyword)) => keyword.is_for_kind(kind),        // keyword.word() is "equalTo"
//!     Some(Form::Related(keyword)) => keyword.is_for_kind(kind),
//!     Some(Form::Not | Form::AnyOf | Form::AllOf | Form::If | Form::IfElse) => ..,
//!     None => ..,                                                    // its keys are those of no form
//! }
//! ```
//!
//! [`form_of`] finds the form whose keys the members of an object have, in any order; they have at most one
//! ([`laws::one_form`]). [`Keyword::word`] and [`Keyword::is_for_kind`] are the table of atomic keywords,
//! [`FieldKeyword::word`] and [`FieldKeyword::is_for_kind`] that of the keywords of relations. No word comes twice in
//! them ([`laws::words_differ`]).
//!
//! No clause says what a call costs: `form_of` compares keys with the words up to the first that tells a form, and then
//! looks for the keys of that form.
//!
//! The tables are in `specs/Keywords.antt`, the forms in `specs/Forms.antt`. Lemmas on forms, for the crates above, are
//! in `specs/FormLaws.antt`, on sets of keys in `specs/KeySetLaws.antt`.
#![tactic(auto)]

mod form;
mod keyword;
pub mod laws;

pub use form::{Form, form_of};
pub use keyword::{FieldKeyword, Keyword};

#[cfg(test)]
mod tests;
