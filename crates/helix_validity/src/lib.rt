//! A profile that breaks no rule is valid, and its constraints are given.
//!
//! ```text
//! first_breach(alloc, alphabet, &[Rule::S1], &v)?      // None
//! first_breach(alloc, alphabet, &PROFILE_RULES, &v)?   // None: no rule is broken, by `laws::no_breach`
//! let fields = read_fields(alloc, alphabet, &v)?;      // valid, by `laws::fields_are_valid`
//! match read_constraints(alloc, fields.as_slice(), &sets, &v)? {
//!     Some(constraints) => Profile::new(fields, constraints), // allowed, by `laws::profile_is_valid`
//!     None => ..                                       // never, by `laws::constraints_are_given`
//! }
//! ```
//!
//! The crate has laws alone, for whoever reads a profile: of a JSON value in which no object repeats a key, and which
//! breaks none of the rules S1 to S21, the fields are valid, all constraints are given, and both together are what a
//! [`Profile`](helix_profile::Profile) asks for. Set files are read by others: the laws ask that each one that is
//! mentioned has members, at least one, all of them values of its field. At most one list of constraints is given, by
//! `one_list` of helix_readings, so the profile is the only one.
//!
//! `specs/Unbroken.antt` says what it is to break no rule, `specs/Mentions.antt` where set files are mentioned.
#![tactic(auto)]

pub mod laws;
#[cfg(test)]
mod tests;
