//! The least value of a ladder that passes a list of tests.
//!
//! ```text
//! let tests = [GridTest::On(14), GridTest::Off(15), GridTest::Least(0)];
//! let grid = Grid::of(alloc, Decades, 0, &tests)?;    // tenths that are no whole numbers
//! let first = grid.at_or_after(0);                    // Some(100_000_000_000_000)
//! let next = first.and_then(|tenth| grid.after(tenth));
//! ```
//!
//! A [`Grid`] has the values of one level of a [`Scale`](helix_ladders::Scale) that pass each
//! [`GridTest`] that it met. Contracts see its scale, its level and its tests; `specs/Tests.antt` says
//! which values pass.
//!
//! - [`Grid::at_or_after`] is the least of them from a bound on, [`Grid::after`] the least above one
//!   of them: `None` exactly where there is none. Both take no memory.
//! - [`Grid::of`] meets all tests at once, and sorts their numbers once. [`Grid::open`] and
//!   [`Grid::meet`] meet them one by one, and sort the numbers that are excluded again each time.
//!
//! A question costs a division or none, and a binary search where numbers are excluded or listed. A
//! run of excluded neighbours costs no more than one of them.
#![tactic(auto)]

mod first;
mod grid;
mod keep;
mod members;
mod narrow;
mod numbers;
mod search;
mod sieve;
mod test;
mod whole;
mod window;

pub use grid::Grid;
pub use numbers::Numbers;
pub use test::GridTest;

#[cfg(test)]
mod tests;
