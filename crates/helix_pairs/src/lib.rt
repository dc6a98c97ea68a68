//! The rule for one pair of related fields: which values of one of them, the child, a value of the other,
//! the parent, allows.
//!
//! ```text
//! let shift = OffsetShift::of(range, Offset::Plain(2));
//! let bound = Bound::new(signed(Compare::Above, true), End::Left, shift);  // child > parent + 2
//! let least = bound.lower(5);                                             // Some(8)
//! let first = bound.inverse(8);                                           // Some(range.low)
//! ```
//!
//! A [`Bound`] is a relation with its sign over any [`Shift`](helix_ladders::Shift), of which one end is the
//! child; [`OffsetShift`] is the shift by an offset of either kind. It sets a lower bound on the child, an
//! upper bound, or excludes values, and holds exactly where the child meets both bounds and isn't excluded
//! ([`laws::relations_are_bounds`]). Values are numbers or moments, as whole numbers of one range.
//!
//! - [`Bound::lower`] is the least child that meets the lower bound of a parent, [`Bound::passes_upper`] tests
//!   the upper one, and [`Bound::inverse`] is the least parent whose upper bound a child meets. `None` says
//!   that the range has none; else all values from the answer on are so, and none before it.
//! - [`Bound::past`] goes past all neighbours that are excluded together.
//! - No bound falls as the parent's value grows ([`laws::bounds_rise`]).
//! - The functions of [`pair`] say the same of all relations of a pair at once.
//!
//! Nothing here takes memory; each answer costs a call of the shift or two. The definitions are in `specs/`:
//! `Related` says what a relation says, `Bounds` which bounds it sets, `Exclusion` what is excluded.
//! `RuleLaws` has the steps by which a search for a child and its parent goes on, for the crates above.
#![tactic(auto)]

mod bound;
mod comparison;
mod cuts;
pub mod laws;
mod left;
mod offset_shift;
pub mod pair;
mod range;
mod related;
mod right;

pub use bound::Bound;
pub use comparison::{Comparison, End, signed};
pub use offset_shift::OffsetShift;
pub use range::ValueRange;
pub use related::bound_of;

#[cfg(test)]
mod tests;
