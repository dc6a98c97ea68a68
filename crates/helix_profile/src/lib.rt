//! Profiles: fields, the constraints on them, and which rows satisfy them.
//!
//! ```
//! let mut profile = Profile::new(fields, constraints); // needs a valid profile, by `IsValidProfile`
//! if is_good(&profile, row) { .. }
//! let old = profile.replace_constraint(1, Constraint::Not(..)); // counted from 1, takes no memory
//! profile.add(more)?;
//! let smaller = profile.keep(&[1, 3])?;
//! ```
//!
//! A [`Profile`] is valid by its type, and stays so. [`satisfies`] and [`is_good`] answer what the definitions say, for
//! each constraint and row, also of no valid profile; they are plain, and made for small inputs. What each form of
//! constraint means, with either sign, is the contract of [`laws::each_form`]. The negation isn't the complement: a
//! plain test of null holds with both signs. Of any set of rows ([`RowSet`]), as the good rows of a profile, there is
//! one answer list, one rest above a row, and prefixes of the rest go on ([`laws`]).
//!
//! No clause says how long an answer takes.
//!
//! The definitions are in `specs/`: `Holds.antt` says what a test says of a value, `Satisfaction.antt` what a
//! constraint says of a row, `Good.antt` which rows are good, `Answer.antt` what their list is, `Validity.antt` what a
//! profile may rely on, `Change.antt` what a changed profile is.
#![tactic(auto)]

mod cells;
mod compare;
mod constraint;
mod field;
mod good;
mod grid;
mod holds;
pub mod laws;
mod profile;
mod related;
mod relation;
mod rows;
mod satisfaction;
mod test;

pub use constraint::{Constraint, Constraints, Parts};
pub use field::{Field, Fields};
pub use good::{is_good, is_good_for};
pub use holds::holds as test_holds;
pub use profile::{NoSuchConstraint, Profile};
pub use relation::{Compare, Relation};
pub use rows::RowSet;
pub use satisfaction::{all_satisfied, satisfies};
pub use test::{Atom, Test};
