//! The shift of moments by an offset.

ghost use Rattle.std.specs.Prelude.{◌≡◌};
ghost use Rattle.helix_shift.specs.DayOffset.{IsDayOffset};

use crate::days::{day_of, shift_day};
use crate::first_day::{LAST, first_day};
use helix_ladders::{Offset, Shift, midnight};
use std::marker::Model;

/// The shift of moments by months, years or working days. Contracts see its offset.
#[derive(Clone, Copy, Debug)]
pub struct DayShift {
    offset: Offset,
}

impl Model for DayShift {
    ghost use Rattle.helix_ladders.specs.declared.offset.Offset.{Offset};
    ghost use Rattle.helix_shift.specs.DayOffset.{IsDayOffset};

    ghost Value = { Offset };

    ghost view = { λ s. s.offset };

    ghost invariant = { λ s. IsDayOffset s.offset };

    ghost inverse = { λ offset. record { offset = offset } };
}

impl DayShift {
    /// The shift by an offset.
    pub fn new(offset: Offset) -> DayShift
        requires { IsDayOffset offset }
        ensures { result ≡ offset }
    {
        DayShift { offset }
    }
}

impl Shift for DayShift {
    ghost use Rattle.std.specs.Prelude.{pos};
    ghost use Rattle.helix_ladders.specs.Calendar.{last_moment};
    ghost use Rattle.helix_ladders.specs.Shift.{shifted};
    ghost use Rattle.helix_shift.specs.ShiftLaws.{shifted_rises};

    ghost low = { λ s. pos 0 };

    ghost high = { λ s. pos last_moment };

    ghost applied = { λ s v. shifted s v };

    #[inline(always)]
    fn low(&self) -> i128 {
        0
    }

    #[inline(always)]
    fn high(&self) -> i128 {
        LAST
    }

    fn apply(&self, value: i128) -> i128 {
        shift_day(self.offset, day_of(value))
    }

    fn least_from(&self, target: i128) -> Option<i128> {
        match first_day(self.offset, target) {
            Some(day) => Some(i128::from(midnight(day))),
            None => None,
        }
    }

    ghost rises = { λ s v w from_low below to_high. shifted_rises s v w below };
}
