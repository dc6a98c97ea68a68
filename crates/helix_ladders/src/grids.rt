//! The ladders of grids, plainly.

ghost use Rattle.std.specs.Prelude.{ℕ, ◌≡◌, ◌≢◌, ◌↔◌, ◌^◌, ◌<◌, IsTrue, IfSome, IfNone};
ghost use Rattle.helix_ladders.specs.Calendar.{days_of_calendar, midnight};
ghost use Rattle.helix_ladders.specs.Grids.{IsMultipleOf, IsOnNumberGrid, IsOnMomentGrid, IsMonthStart, IsYearStart};

use crate::calendar::{LAST_MOMENT, MILLIS_OF_DAY, date_of};
use crate::decades::power_of_ten;
use crate::multiples::is_multiple_of;

/// Whether a number is on the grid of a level of its ladder.
pub fn is_on_number_grid(level: u32, units: i128) -> bool
    requires { level < 16 }
    ensures { IsTrue result ↔ IsOnNumberGrid level units }
{
    is_multiple_of(power_of_ten(level), units)
}

/// Whether a moment is on the grid of a level of its ladder.
pub fn is_on_moment_grid(level: u32, at: i128) -> bool
    ensures { IsTrue result ↔ IsOnMomentGrid level at }
{
    match level {
        0 => true,
        1 => is_multiple_of(1_000, at),
        2 => is_multiple_of(60_000, at),
        3 => is_multiple_of(3_600_000, at),
        4 => is_multiple_of(86_400_000, at),
        5 => is_month_start(at),
        _ => is_year_start(at),
    }
}

fn is_month_start(at: i128) -> bool
    ensures { IsTrue result ↔ IsMonthStart at }
{
    match day_at(at) {
        Some(day) => date_of(day).day == 1,
        None => false,
    }
}

fn is_year_start(at: i128) -> bool
    ensures { IsTrue result ↔ IsYearStart at }
{
    match day_at(at) {
        Some(day) => {
            let date = date_of(day);
            date.month == 1 && date.day == 1
        }
        None => false,
    }
}

/// The day that a midnight of the calendar begins.
fn day_at(at: i128) -> Option<u32>
    ensures begins { IfSome result (λ day. at ≡ midnight day) }
    ensures in_calendar { IfSome result (λ day. day < days_of_calendar) }
    ensures none { IfNone result ((day : ℕ) → day < days_of_calendar → at ≢ midnight day) }
{
    if at < 0 || at > i128::from(LAST_MOMENT) || at % i128::from(MILLIS_OF_DAY) != 0 {
        return None;
    }
    Some((at / i128::from(MILLIS_OF_DAY)) as u32)
}
