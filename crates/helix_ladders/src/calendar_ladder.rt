//! The ladder of moments.

ghost use Rattle.std.specs.Prelude.{ℕ, ℤ, ◌≡◌, ◌<◌, ◌≤◌, pos, ◌≤ℤ◌, IfSome, IfNone};
ghost use Rattle.helix_ladders.specs.Calendar.{last_moment, days_of_calendar, midnight as first_of_day};
ghost use Rattle.helix_ladders.specs.Grids.{IsMonthStart, IsYearStart};
ghost use Rattle.helix_ladders.specs.Ladders.{moments_ladder};
ghost use Rattle.helix_ladders.specs.Scale.{IsLeast, IsGreatest, IsAtOrAfter, IsAtOrBefore};

use crate::calendar::{
    DAYS, LAST_MOMENT, MILLIS_OF_DAY, date_of, day_number, days_of_month, midnight,
};
use crate::grids::is_on_moment_grid;
use crate::multiples::{multiple_from, multiple_to};
use crate::scale::Scale;

/// A millisecond, a second, a minute, an hour and a day, in milliseconds.
const UNITS: [u64; 5] = [1, 1_000, 60_000, 3_600_000, 86_400_000];

/// The level of days.
const DAY_LEVEL: u32 = 4;

/// The last moment, as a value of the ladder.
const LAST: i128 = LAST_MOMENT as i128;

/// The milliseconds of the years 1 to 9999, with seven grids: multiples of a millisecond, a second,
/// a minute, an hour and a day, the midnights that begin a month, and those that begin a year.
#[derive(Clone, Copy, Debug)]
pub struct Calendar;

impl Scale for Calendar {
    ghost use Rattle.helix_ladders.specs.Ladders.{moments_ladder};
    ghost use Rattle.helix_ladders.specs.LadderLaws.{moments_are_a_ladder};

    ghost ladder = { λ s. moments_ladder };

    #[inline(always)]
    fn low(&self) -> i128 {
        0
    }

    #[inline(always)]
    fn high(&self) -> i128 {
        LAST
    }

    #[inline(always)]
    fn levels(&self) -> u32 {
        7
    }

    #[inline(always)]
    fn on(&self, level: u32, value: i128) -> bool {
        is_on_moment_grid(level, value)
    }

    #[inline(always)]
    fn step(&self, level: u32) -> u64 {
        UNITS[level.min(DAY_LEVEL) as usize]
    }

    #[inline(always)]
    fn is_regular(&self, level: u32) -> bool {
        level <= DAY_LEVEL
    }

    #[inline(always)]
    fn ceil(&self, level: u32, bound: i128) -> Option<i128> {
        if bound > LAST {
            return None;
        }
        let from = bound.max(0);
        if level <= DAY_LEVEL {
            unit_from(level, from)
        } else if level == 5 {
            month_from(from)
        } else {
            year_from(from)
        }
    }

    #[inline(always)]
    fn floor(&self, level: u32, bound: i128) -> Option<i128> {
        if bound < 0 {
            return None;
        }
        // The first moment is on every grid.
        let to = bound.min(LAST);
        if level <= DAY_LEVEL {
            Some(unit_to(level, to))
        } else if level == 5 {
            Some(month_to(to))
        } else {
            Some(year_to(to))
        }
    }

    ghost laws = { λ s. moments_are_a_ladder };
}

/// The first multiple of a unit of time from a moment on.
#[inline(always)]
fn unit_from(level: u32, from: i128) -> Option<i128>
    requires unit { level ≤ 4 }
    requires begun { pos 0 ≤ℤ from }
    requires ends { from ≤ℤ pos last_moment }
    ensures some { IfSome result (IsLeast (IsAtOrAfter moments_ladder level from)) }
    ensures none { IfNone result ((v : ℤ) → ¬ IsAtOrAfter moments_ladder level from v) }
{
    let next = multiple_from(UNITS[level as usize], from);
    if next > LAST { None } else { Some(next) }
}

/// The last multiple of a unit of time up to a moment.
#[inline(always)]
fn unit_to(level: u32, to: i128) -> i128
    requires unit { level ≤ 4 }
    requires begun { pos 0 ≤ℤ to }
    requires ends { to ≤ℤ pos last_moment }
    ensures { IsGreatest (IsAtOrBefore moments_ladder level to) result }
{
    multiple_to(UNITS[level as usize], to)
}

/// The first month start from a moment on.
fn month_from(from: i128) -> Option<i128>
    requires begun { pos 0 ≤ℤ from }
    requires ends { from ≤ℤ pos last_moment }
    ensures some { IfSome result (IsLeast (IsAtOrAfter moments_ladder 5 from)) }
    ensures none { IfNone result ((v : ℤ) → ¬ IsAtOrAfter moments_ladder 5 from v) }
{
    match month_day_from(day_from(from)) {
        Some(day) => Some(i128::from(midnight(day))),
        None => None,
    }
}

/// The last month start up to a moment.
fn month_to(to: i128) -> i128
    requires begun { pos 0 ≤ℤ to }
    requires ends { to ≤ℤ pos last_moment }
    ensures { IsGreatest (IsAtOrBefore moments_ladder 5 to) result }
{
    i128::from(midnight(month_day_to(day_to(to))))
}

/// The first year start from a moment on.
fn year_from(from: i128) -> Option<i128>
    requires begun { pos 0 ≤ℤ from }
    requires ends { from ≤ℤ pos last_moment }
    ensures some { IfSome result (IsLeast (IsAtOrAfter moments_ladder 6 from)) }
    ensures none { IfNone result ((v : ℤ) → ¬ IsAtOrAfter moments_ladder 6 from v) }
{
    match year_day_from(day_from(from)) {
        Some(day) => Some(i128::from(midnight(day))),
        None => None,
    }
}

/// The last year start up to a moment.
fn year_to(to: i128) -> i128
    requires begun { pos 0 ≤ℤ to }
    requires ends { to ≤ℤ pos last_moment }
    ensures { IsGreatest (IsAtOrBefore moments_ladder 6 to) result }
{
    i128::from(midnight(year_day_to(day_to(to))))
}

/// The first day that doesn't begin before a moment.
fn day_from(from: i128) -> u32
    requires begun { pos 0 ≤ℤ from }
    requires ends { from ≤ℤ pos last_moment }
    ensures reached { from ≤ℤ first_of_day result }
    ensures least { (day : ℕ) → from ≤ℤ first_of_day day → result ≤ day }
    ensures in_calendar { result ≤ days_of_calendar }
{
    ((from as u64 + (MILLIS_OF_DAY as u64 - 1)) / MILLIS_OF_DAY as u64) as u32
}

/// The day of a moment.
fn day_to(to: i128) -> u32
    requires begun { pos 0 ≤ℤ to }
    requires ends { to ≤ℤ pos last_moment }
    ensures within { first_of_day result ≤ℤ to }
    ensures greatest { (day : ℕ) → first_of_day day ≤ℤ to → day ≤ result }
    ensures in_calendar { result < days_of_calendar }
{
    (to as u64 / MILLIS_OF_DAY as u64) as u32
}

/// The first day from a day on that is the first of a month.
fn month_day_from(day: u32) -> Option<u32>
    requires { day ≤ days_of_calendar }
    ensures some { IfSome result (λ first.
        IsLeast (λ v. IsMonthStart v × (first_of_day day ≤ℤ v)) (first_of_day first)) }
    ensures in_calendar { IfSome result (λ first. first < days_of_calendar) }
    ensures none { IfNone result ((v : ℤ) → first_of_day day ≤ℤ v → ¬ IsMonthStart v) }
{
    if day >= DAYS {
        return None;
    }
    let date = date_of(day);
    if date.day == 1 {
        return Some(day);
    }
    let next = day + (days_of_month(date.year, date.month) + 1 - date.day);
    if next < DAYS { Some(next) } else { None }
}

/// The last day up to a day that is the first of a month.
fn month_day_to(day: u32) -> u32
    requires { day < days_of_calendar }
    ensures { IsGreatest (λ v. IsMonthStart v × (v ≤ℤ first_of_day day)) (first_of_day result) }
{
    day + 1 - date_of(day).day
}

/// The first day from a day on that is the first of a year.
fn year_day_from(day: u32) -> Option<u32>
    requires { day ≤ days_of_calendar }
    ensures some { IfSome result (λ first.
        IsLeast (λ v. IsYearStart v × (first_of_day day ≤ℤ v)) (first_of_day first)) }
    ensures in_calendar { IfSome result (λ first. first < days_of_calendar) }
    ensures none { IfNone result ((v : ℤ) → first_of_day day ≤ℤ v → ¬ IsYearStart v) }
{
    if day >= DAYS {
        return None;
    }
    let date = date_of(day);
    if date.month == 1 && date.day == 1 {
        return Some(day);
    }
    if date.year == 9999 {
        None
    } else {
        Some(day_number(date.year + 1, 1, 1))
    }
}

/// The last day up to a day that is the first of a year.
fn year_day_to(day: u32) -> u32
    requires { day < days_of_calendar }
    ensures { IsGreatest (λ v. IsYearStart v × (v ≤ℤ first_of_day day)) (first_of_day result) }
{
    day_number(date_of(day).year, 1, 1)
}
