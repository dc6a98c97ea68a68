//! Days of moments, and what they are shifted to.

ghost use Rattle.std.specs.Prelude.{◌≡◌, ◌<◌, pos, ◌≤ℤ◌};
ghost use Rattle.helix_ladders.specs.Calendar.{days_of_calendar, last_moment, day_of as day_of_moment};
ghost use Rattle.helix_shift.specs.DayOffset.{IsDayOffset};
ghost use Rattle.helix_shift.specs.Inner.Days.{shifted_day};

use crate::working_days::shift_working_days;
use helix_ladders::{MILLIS_OF_DAY, Offset, midnight, shifted};

/// The day of a moment.
pub fn day_of(moment: i128) -> u32
    requires from_first { pos 0 ≤ℤ moment }
    requires to_last { moment ≤ℤ pos last_moment }
    ensures value { result ≡ day_of_moment moment }
    ensures in_calendar { result < days_of_calendar }
{
    (moment as u64 / MILLIS_OF_DAY as u64) as u32
}

/// The moment that a day is shifted to.
pub fn shift_day(offset: Offset, day: u32) -> i128
    requires offset { IsDayOffset offset }
    requires day { day < days_of_calendar }
    ensures { result ≡ shifted_day offset day }
{
    match offset {
        Offset::WorkingDays(days) => i128::from(shift_working_days(days, day)),
        _ => shifted(offset, i128::from(midnight(day))),
    }
}

/// As far the other way.
pub fn opposite(offset: Offset) -> Offset
    requires { IsDayOffset offset }
    ensures { IsDayOffset result }
{
    match offset {
        Offset::Months(count) => Offset::Months(-count),
        Offset::Years(count) => Offset::Years(-count),
        Offset::WorkingDays(count) => Offset::WorkingDays(-count),
        Offset::Plain(_) => unreachable!(),
    }
}
