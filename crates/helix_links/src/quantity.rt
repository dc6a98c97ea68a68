//! Numbers and moments as whole numbers of a range.

ghost use Rattle.std.specs.Prelude.{◌≡◌, ◌≤ℤ◌};
ghost use Rattle.helix_links.specs.Quantities.{class_of_quantity, least_of, greatest_of, whole_of, cell_in, IsFrom};
ghost use Rattle.helix_search.specs.Bounds.{AreThoseAdmitted};
ghost use Rattle.helix_values.specs.View.{cell_of};

use helix_ladders::{GREATEST, LAST_MOMENT};
use helix_pairs::ValueRange;
use helix_values::{CellRef, Mark};

/// What is compared with an offset.
#[derive(Clone, Copy, Debug, PartialEq, Eq)]
pub enum Quantity {
    /// In units of 10^-15.
    Numbers,
    /// In milliseconds.
    Moments,
}

impl Quantity {
    /// The range of the widest kind.
    pub fn range(self) -> ValueRange
        ensures low { result.low ≡ least_of self }
        ensures high { result.high ≡ greatest_of self }
    {
        match self {
            Quantity::Numbers => ValueRange {
                low: -GREATEST,
                high: GREATEST,
            },
            Quantity::Moments => ValueRange {
                low: 0,
                high: i128::from(LAST_MOMENT),
            },
        }
    }

    /// The cell of a whole number.
    fn cell<'a>(self, whole: i128) -> CellRef<'a>
        requires from_low { least_of self ≤ℤ whole }
        requires to_high { whole ≤ℤ greatest_of self }
        ensures { cell_of result ≡ cell_in self whole }
    {
        match self {
            Quantity::Numbers => CellRef::Number(whole),
            Quantity::Moments => CellRef::Moment(whole as i64),
        }
    }

    /// The mark that admits the values from a whole number on; `None` where the range has none.
    pub fn mark_from<'a>(self, least: Option<i128>) -> Option<Mark<'a>>
        ensures { AreThoseAdmitted (class_of_quantity self) (λ v. IsFrom least (whole_of v)) result }
    {
        let Some(from) = least else {
            return None;
        };
        let range = self.range();
        if from <= range.low {
            return Some(Mark::Start);
        }
        if from > range.high {
            return None;
        }
        Some(Mark::At(self.cell(from)))
    }
}

/// The whole number of a number or moment.
pub fn whole(cell: CellRef<'_>) -> i128
    ensures { result ≡ whole_of (cell_of cell.entry) }
{
    match cell {
        CellRef::Number(units) => units,
        CellRef::Moment(at) => i128::from(at),
        _ => 0,
    }
}
