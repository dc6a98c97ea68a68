//! The proleptic Gregorian calendar, by the civil dates of `jiff`.

ghost use Rattle.std.specs.Prelude.{◌≡◌, ◌<◌, ◌≤◌, pos, ◌-ℤ◌};
ghost use Rattle.jiff_core.specs.Date.{epoch_day};
ghost use Rattle.helix_ladders.specs.Calendar.{IsDate, days_of_month as month_length, day_number as number_of_day, days_of_calendar, midnight as first_of_day, year_of, month_of, day_of_month};

use jiff_core::civil;

/// The days of the years 1 to 9999.
pub const DAYS: u32 = 3_652_059;

/// The milliseconds of a day.
pub const MILLIS_OF_DAY: i64 = 86_400_000;

/// The last millisecond of the year 9999.
pub const LAST_MOMENT: i64 = 315_537_897_599_999;

/// The number of 1970-01-01, from which the days of `jiff` are counted.
const DAY_OF_1970: i64 = 719_162;

/// A date of the years 1 to 9999.
#[derive(Clone, Copy, Debug, PartialEq, Eq)]
pub struct Date {
    /// From 1 to 9999.
    pub year: u32,
    /// From 1 to 12.
    pub month: u32,
    /// From 1 on.
    pub day: u32,
}

/// The number of a date's day, from 0 at 0001-01-01.
pub fn day_number(year: u32, month: u32, day: u32) -> u32
    requires { IsDate year month day }
    ensures { result ≡ number_of_day year month day }
{
    let date = civil::Date::constrain(year as i16, month as u8, day as u8);
    (i64::from(date.to_unix_epoch_day()) + DAY_OF_1970) as u32
}

/// The date of a day.
pub fn date_of(day: u32) -> Date
    requires { day < days_of_calendar }
    ensures date { IsDate result.year result.month result.day }
    ensures number { number_of_day result.year result.month result.day ≡ day }
    ensures year { year_of day ≡ result.year }
    ensures month { month_of day ≡ result.month }
    ensures day { day_of_month day ≡ result.day }
{
    match civil::Date::from_unix_epoch_day(i64::from(day) - DAY_OF_1970) {
        Ok(date) => parts_of(date, day),
        Err(_) => unreachable!(),
    }
}

/// The date as plain numbers.
fn parts_of(date: civil::Date, day: u32) -> Date
    requires in_calendar { day < days_of_calendar }
    requires number { epoch_day date ≡ pos day -ℤ pos 719162 }
    ensures date { IsDate result.year result.month result.day }
    ensures number { number_of_day result.year result.month result.day ≡ day }
    ensures year { year_of day ≡ result.year }
    ensures month { month_of day ≡ result.month }
    ensures day { day_of_month day ≡ result.day }
{
    Date {
        year: date.year as u32,
        month: u32::from(date.month),
        day: u32::from(date.day),
    }
}

/// The length of a month, counted from 1.
pub fn days_of_month(year: u32, month: u32) -> u32
    requires from_1 { 1 ≤ month }
    requires to_12 { month ≤ 12 }
    ensures value { result ≡ month_length year month }
    ensures least { 28 ≤ result }
    ensures most { result ≤ 31 }
{
    // The calendar repeats after 400 years.
    u32::from(civil::days_in_month((year % 400) as i16, month as u8))
}

/// The first millisecond of a day.
pub fn midnight(day: u32) -> i64
    ensures { result ≡ first_of_day day }
{
    MILLIS_OF_DAY * i64::from(day)
}
