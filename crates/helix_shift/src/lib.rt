//! Shifts of moments by months, years or working days, and their inverses.
//!
//! ```text
//! let month = DayShift::new(Offset::Months(1));
//! let later = month.apply(63_842_256_000_000);    // 63_844_761_600_000: 2024-01-31, 2024-02-29
//! let first = month.least_from(later);            // Some(63_842_083_200_000): 2024-01-29
//! ```
//!
//! A [`DayShift`] is seen as its [`Offset`](helix_ladders::Offset), which has to be one that
//! `specs/DayOffset.antt` allows, and is a [`Shift`](helix_ladders::Shift) of the moments of the years
//! 1 to 9999:
//!
//! - `apply` is the shifted moment as `helix_ladders` defines it: the first millisecond of a day, the
//!   millisecond after the last moment past the year 9999, and -1 before the year 1.
//! - A later moment has no earlier result.
//! - `least_from` is the least moment whose result isn't before a target: `None` exactly where there is
//!   none.
//!
//! Nothing here takes memory. `apply` goes over no days: a month is found by its number and a working
//! day by the five of each week. `least_from` looks at the day that the target is shifted back to and
//! its neighbours, four days at most.
#![tactic(auto)]

mod day_shift;
mod days;
mod first_day;
mod working_days;

pub use day_shift::DayShift;

#[cfg(test)]
mod tests;
