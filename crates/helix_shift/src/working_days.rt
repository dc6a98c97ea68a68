//! Shifts by working days, by arithmetic: a week has five.

ghost use Rattle.std.specs.Prelude.{◌≡◌, ◌<◌, ◌≤◌, ◌^◌, pos, neg_ℤ, unsigned_abs};
ghost use Rattle.helix_ladders.specs.Calendar.{days_of_calendar};
ghost use Rattle.helix_ladders.specs.Shift.{working_days_before as working_days_ahead_of, shifted_working_days as working_day_shift};
ghost use Rattle.helix_shift.specs.Inner.Days.{IsWorkingDayAt};

use helix_ladders::{DAYS, midnight};

/// The moment that a day before 0001-01-01 is given.
pub const BEFORE_ALL: i64 = -1;

/// How many of the days before this one are working days.
fn working_days_before(day: u32) -> u32
    ensures value { result ≡ working_days_ahead_of day }
    ensures most { result ≤ day }
{
    5 * (day / 7) + (day % 7).min(5)
}

/// The working day before which so many lie.
fn working_day(count: u32) -> u32
    requires { count < 2 ^ 24 }
    ensures { IsWorkingDayAt count result }
{
    7 * (count / 5) + count % 5
}

/// The moment that a day is shifted to.
pub fn shift_working_days(days: i64, day: u32) -> i64
    requires day { day < days_of_calendar }
    requires within { unsigned_abs days ≤ 3652059 }
    ensures { result ≡ working_day_shift days day }
{
    let count = days.unsigned_abs() as u32;
    if days == 0 {
        midnight(day)
    } else if days > 0 {
        working_days_later(count, day)
    } else {
        working_days_earlier(count, day)
    }
}

fn working_days_later(count: u32, day: u32) -> i64
    requires day { day < days_of_calendar }
    requires from_1 { 1 ≤ count }
    requires within { count ≤ 3652059 }
    ensures { result ≡ working_day_shift (pos count) day }
{
    let later = working_day(working_days_before(day + 1) + (count - 1));
    midnight(later.min(DAYS))
}

fn working_days_earlier(count: u32, day: u32) -> i64
    requires day { day < days_of_calendar }
    requires from_1 { 1 ≤ count }
    ensures { result ≡ working_day_shift (neg_ℤ (pos count)) day }
{
    let before = working_days_before(day);
    if before < count {
        BEFORE_ALL
    } else {
        midnight(working_day(before - count))
    }
}
