//! The shift of a range by an offset.

ghost use Rattle.std.specs.Prelude.{ℤ, ◌≡◌};
ghost use Rattle.helix_ladders.specs.Shift.{shifted};
ghost use Rattle.helix_pairs.specs.ShiftOf.{IsShiftOf};
ghost use Rattle.helix_pairs.specs.OffsetShift.{low_of, high_of, applied_by};

use crate::range::ValueRange;
use helix_ladders::{Offset, Plain, Shift};
use helix_shift::DayShift;

/// The shift by an offset of either kind.
#[derive(Clone, Copy, Debug)]
pub enum OffsetShift {
    /// By units of a number, or by milliseconds.
    Sum(Plain),
    /// By months, years or working days.
    Days(DayShift),
}

impl OffsetShift {
    /// The shift of a range by an offset.
    pub fn of(range: ValueRange, offset: Offset) -> OffsetShift
        requires { IsShiftOf range.low range.high offset }
        ensures low { low_of result ≡ range.low }
        ensures high { high_of result ≡ range.high }
        ensures applied { (v : ℤ) → applied_by result v ≡ shifted offset v }
    {
        match offset {
            Offset::Plain(units) => OffsetShift::Sum(Plain::new(range.low, range.high, units)),
            _ => OffsetShift::Days(DayShift::new(offset)),
        }
    }
}

impl Shift for OffsetShift {
    ghost use Rattle.helix_pairs.specs.OffsetShift.{low_of, high_of, applied_by};
    ghost use Rattle.helix_pairs.specs.OffsetShiftLaws.{applied_rises};

    ghost low = { low_of };

    ghost high = { high_of };

    ghost applied = { applied_by };

    fn low(&self) -> i128 {
        match self {
            OffsetShift::Sum(sum) => sum.low(),
            OffsetShift::Days(days) => days.low(),
        }
    }

    fn high(&self) -> i128 {
        match self {
            OffsetShift::Sum(sum) => sum.high(),
            OffsetShift::Days(days) => days.high(),
        }
    }

    fn apply(&self, value: i128) -> i128 {
        match self {
            OffsetShift::Sum(sum) => sum.apply(value),
            OffsetShift::Days(days) => days.apply(value),
        }
    }

    fn least_from(&self, target: i128) -> Option<i128> {
        match self {
            OffsetShift::Sum(sum) => sum.least_from(target),
            OffsetShift::Days(days) => days.least_from(target),
        }
    }

    ghost rises = { λ s v w from_low below to_high. applied_rises s v w below };
}
