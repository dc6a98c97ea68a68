//! Where a shifted value lies, plainly: loops over days.

ghost use Rattle.std.specs.Prelude.{◌≡◌, ◌+◌, ◌*◌, ◌^◌, ◌<◌, ◌≤◌, pos, neg_ℤ, ◌*ℤ◌, ◌≤ℤ◌};
ghost use Rattle.helix_ladders.specs.Calendar.{last_below, days_of_calendar, day_of as day_of_moment, midnight as first_of_day};
ghost use Rattle.helix_ladders.specs.Shift.{IsShiftable, shifted as shifted_value, shifted_months as month_shift, midnight_in_month as first_in_month, day_in_month as same_day_in_month, shifted_working_days as working_day_shift, is_working_day as working_day, working_days_before, is_working_day_after, is_working_day_ahead};

use crate::calendar::{DAYS, MILLIS_OF_DAY, date_of, day_number, days_of_month, midnight};
use crate::offset::Offset;

/// The moment that a day before 0001-01-01 is given.
const BEFORE_ALL: i64 = -1;

/// The moment that a day after 9999-12-31 is given.
const AFTER_ALL: i64 = 315_537_897_600_000;

/// A value shifted by an offset: a sum, or the first millisecond of a day.
pub fn shifted(offset: Offset, value: i128) -> i128
    requires { IsShiftable offset value }
    ensures { result ≡ shifted_value offset value }
{
    match offset {
        Offset::Plain(n) => value + n,
        Offset::Months(n) => i128::from(shifted_months(i128::from(n), day_of(value))),
        Offset::Years(n) => i128::from(shifted_months(months_of_years(n), day_of(value))),
        Offset::WorkingDays(n) => i128::from(shifted_working_days(n, day_of(value))),
    }
}

fn day_of(value: i128) -> u32
    ensures value { result ≡ day_of_moment value }
    ensures in_calendar { result < days_of_calendar }
{
    if value < 0 {
        return 0;
    }
    (value / i128::from(MILLIS_OF_DAY)).min(i128::from(DAYS - 1)) as u32
}

fn shifted_months(months: i128, day: u32) -> i64
    requires day { day < days_of_calendar }
    requires low { neg_ℤ (pos (2 ^ 70)) ≤ℤ months }
    requires high { months ≤ℤ pos (2 ^ 70) }
    ensures { result ≡ month_shift months day }
{
    let date = date_of(day);
    let index = 12 * (date.year - 1) + (date.month - 1);
    midnight_in_month(i128::from(index) + months, date.day)
}

fn months_of_years(years: i64) -> i128
    ensures value { result ≡ pos 12 *ℤ years }
    ensures low { neg_ℤ (pos (2 ^ 70)) ≤ℤ result }
    ensures high { result ≤ℤ pos (2 ^ 70) }
{
    12 * i128::from(years)
}

/// The first millisecond of the day with this number in a month, which is counted from 0.
fn midnight_in_month(index: i128, day: u32) -> i64
    requires { 1 ≤ day }
    ensures { result ≡ first_in_month index day }
{
    if index < 0 {
        return BEFORE_ALL;
    }
    if index >= 12 * 9999 {
        return AFTER_ALL;
    }
    midnight(day_in_month(index as u32, day))
}

fn day_in_month(index: u32, day: u32) -> u32
    requires month { index < 12 * 9999 }
    requires from_1 { 1 ≤ day }
    ensures { result ≡ same_day_in_month index day }
{
    let year = index / 12 + 1;
    let month = index % 12 + 1;
    day_number(year, month, day.min(days_of_month(year, month)))
}

fn shifted_working_days(days: i64, day: u32) -> i64
    requires { day < days_of_calendar }
    ensures { result ≡ working_day_shift days day }
{
    if days == 0 {
        return midnight(day);
    }
    let count = days.unsigned_abs();
    if days > 0 {
        match working_day_later(count, day) {
            Some(later) => midnight(later),
            None => AFTER_ALL,
        }
    } else {
        match working_day_earlier(count, day) {
            Some(earlier) => midnight(earlier),
            None => BEFORE_ALL,
        }
    }
}

fn working_day_later(count: u64, day: u32) -> Option<u32>
    requires day { day < days_of_calendar }
    requires count { 0 < count }
    ensures { result ≡ last_below (is_working_day_after count day) days_of_calendar }
{
    let mut passed = 0;
    for later in day + 1..DAYS {
        if !is_working_day(later) {
            continue;
        }
        passed += 1;
        if passed == count {
            return Some(later);
        }
    }
    None
}

fn working_day_earlier(count: u64, day: u32) -> Option<u32>
    requires day { day < days_of_calendar }
    requires count { 0 < count }
    ensures { result ≡ last_below (is_working_day_ahead count day) days_of_calendar }
{
    let mut passed = 0;
    let mut earlier = day;
    while earlier > 0 {
        earlier -= 1;
        if !is_working_day(earlier) {
            continue;
        }
        passed += 1;
        if passed == count {
            return Some(earlier);
        }
    }
    None
}

fn is_working_day(day: u32) -> bool
    ensures { result ≡ working_day day }
{
    day % 7 < 5
}
