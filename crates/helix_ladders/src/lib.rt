//! Ladders of grids over whole numbers: the calendar, the levels of numbers and of moments, and the
//! offsets between two values. A number is in whole units of 10^-15, a moment in milliseconds from
//! 0001-01-01T00:00:00.000; contracts see both as whole numbers (ℤ).
//!
//! ```text
//! let tenth = Decades.ceil(14, 1);                    // Some(100_000_000_000_000): 0.1
//! let month = Calendar.floor(5, 63_843_000_000_000);  // Some(63_842_342_400_000): 2024-02-01
//! let later = shifted(Offset::Months(1), 0);          // 31 days, in milliseconds
//! ```
//!
//! - [`Scale`] is a range with levels, each a part of the finer ones: [`Decades`] those of numbers,
//!   [`Calendar`] those of moments. [`Scale::ceil`] is the least value on a level from a bound on and
//!   [`Scale::floor`] the greatest up to it, each exactly, `None` where there is none. Each value on a
//!   level is a multiple of [`Scale::step`], and on a regular level each multiple is a value on it.
//! - [`Shift`] keeps the order of values; [`Shift::least_from`] inverts it. [`shifted`] is where a
//!   value lies by the definition, in loops over days.
//! - [`date_of`] and [`day_number`] are inverse to each other on the years 1 to 9999.
//!
//! Asking any of them takes no memory. A number within 64 bits costs one division, as does one that
//! the power of two in the step leaves within them. The definitions are in `specs/`: `Calendar`
//! first, then `Grids` and `Scale` for the levels, `Ladders` for the two ladders, and `Shift`.
#![tactic(auto)]

mod calendar;
mod calendar_ladder;
mod decades;
mod grids;
pub mod laws;
mod multiples;
mod offset;
mod rising;
mod scale;
mod shift;

pub use calendar::{
    DAYS, Date, LAST_MOMENT, MILLIS_OF_DAY, date_of, day_number, days_of_month, midnight,
};
pub use calendar_ladder::Calendar;
pub use decades::{Decades, GREATEST, ONE, power_of_ten, split_units};
pub use grids::{is_on_moment_grid, is_on_number_grid};
pub use multiples::is_multiple_of;
pub use offset::Offset;
pub use rising::{Plain, Shift};
pub use scale::Scale;
pub use shift::shifted;

#[cfg(test)]
mod tests;
