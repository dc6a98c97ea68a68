//! The first day that is shifted far enough: a guess, and a step or two.

ghost use Rattle.std.specs.Prelude.{◌<◌, pos, ◌<ℤ◌, ◌≤ℤ◌, IfSome, IfNone};
ghost use Rattle.helix_ladders.specs.Calendar.{days_of_calendar};
ghost use Rattle.helix_ladders.specs.Shift.{after_all};
ghost use Rattle.helix_shift.specs.DayOffset.{IsDayOffset};
ghost use Rattle.helix_shift.specs.Inner.Days.{shifted_day, IsFirstDay, IsOutOfReach};

use crate::days::{day_of, opposite, shift_day};
use helix_ladders::{DAYS, LAST_MOMENT, MILLIS_OF_DAY, Offset, midnight};

/// The last moment, as a value of the calendar.
pub const LAST: i128 = LAST_MOMENT as i128;

/// The first day that is shifted to the target or beyond.
pub fn first_day(offset: Offset, target: i128) -> Option<u32>
    requires { IsDayOffset offset }
    ensures some { IfSome result (IsFirstDay offset target) }
    ensures none { IfNone result (IsOutOfReach offset target) }
{
    if target < 0 {
        return Some(0);
    }
    if target > LAST + 1 {
        return None;
    }
    let day = shifted_back(offset, target);
    if shift_day(offset, day) < target {
        first_after(offset, target, day)
    } else {
        Some(first_up_to(offset, target, day))
    }
}

/// The day that the target's day is shifted back to. The first day, where there is one, is at most
/// one day away for months and years, and at most three for working days.
fn shifted_back(offset: Offset, target: i128) -> u32
    requires offset { IsDayOffset offset }
    requires from_first { pos 0 ≤ℤ target }
    requires to_end { target ≤ℤ after_all }
    ensures { result < days_of_calendar }
{
    let reached = day_of((target + i128::from(MILLIS_OF_DAY - 1)).min(LAST));
    day_of(shift_day(opposite(offset), reached).clamp(0, LAST))
}

/// The first day, sought downwards from one that is shifted far enough.
fn first_up_to(offset: Offset, target: i128, day: u32) -> u32
    requires offset { IsDayOffset offset }
    requires day { day < days_of_calendar }
    requires reached { target ≤ℤ shifted_day offset day }
    ensures { IsFirstDay offset target result }
{
    let mut first = day;
    while first > 0 && shift_day(offset, first - 1) >= target {
        first -= 1;
    }
    first
}

/// The first day, sought upwards from one that isn't shifted far enough.
fn first_after(offset: Offset, target: i128, day: u32) -> Option<u32>
    requires offset { IsDayOffset offset }
    requires day { day < days_of_calendar }
    requires short { shifted_day offset day <ℤ target }
    ensures some { IfSome result (IsFirstDay offset target) }
    ensures none { IfNone result (IsOutOfReach offset target) }
{
    for first in day + 1..DAYS {
        if shift_day(offset, first) >= target {
            return Some(first);
        }
    }
    None
}
