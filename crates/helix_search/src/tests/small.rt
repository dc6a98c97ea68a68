//! Fields of small numbers, and gaps between them.

ghost use Rattle.std.specs.Prelude.{◌≡◌, ◌↔◌, ℤ, pos, ◌+ℤ◌, ◌≤ℤ◌, IfSome, IfNone};
ghost use Rattle.helix_search.specs.Inner.Small.{HasNumber, MeetsLower, MeetsUpper, IsAllowed, IsByte};
ghost use Rattle.helix_values.specs.Class.{numbers};
ghost use Rattle.helix_values.specs.Counts.{IsMarkOf};
ghost use Rattle.helix_values.specs.Universe.{IsDecimal};
ghost use Rattle.helix_values.specs.Marks.{IsAdmitted};
ghost use Rattle.helix_values.specs.declared.cell.Cell.TheVariants as cells;

use crate::{Choices, Exclusion, Link};
use helix_base::{Ledger, Steps};
use helix_values::{CellRef, Mark, Slot};

/// The whole numbers from `low` to `high`.
#[derive(Debug, Drop)]
pub struct Span {
    pub low: u8,
    pub high: u8,
}

/// What the child's value is, compared with the parent's: more than so much above it, or below it, and another one.
#[derive(Clone, Copy, Debug)]
pub struct Gap {
    pub above: Option<u8>,
    pub below: Option<u8>,
    pub other: bool,
}

/// A child that is more than so much above its parent.
pub fn above(by: u8) -> Gap {
    Gap {
        above: Some(by),
        below: None,
        other: false,
    }
}

/// A child that is more than so much below it.
pub fn below(by: u8) -> Gap {
    Gap {
        above: None,
        below: Some(by),
        other: false,
    }
}

/// A child that is another number.
pub const OTHER: Gap = Gap {
    above: None,
    below: None,
    other: true,
};

/// The gap that says the same with parent and child exchanged.
pub fn reverse(gap: Gap) -> Gap {
    Gap {
        above: gap.below,
        below: gap.above,
        other: gap.other,
    }
}

/// The least of the numbers from 0 to 255 that a mark admits.
fn least_from(mark: Mark<'_>) -> Option<i128>
    requires { IsMarkOf numbers mark }
    ensures some { IfSome result (λ from. (u : ℤ) → IsByte u
        → IsAdmitted mark.entry (cells.Number u) ↔ (from ≤ℤ u)) }
    ensures none { IfNone result ((u : ℤ) → IsByte u → ¬ IsAdmitted mark.entry (cells.Number u)) }
{
    match mark {
        Mark::Start => Some(0),
        Mark::At(CellRef::Number(units)) => Some(units),
        Mark::After(CellRef::Number(units)) if units < 255 => Some(units + 1),
        _ => None,
    }
}

/// A number that is so much greater.
fn raised(units: i128, by: u8) -> i128
    requires { IsDecimal units }
    ensures { result ≡ units +ℤ pos by }
{
    units + i128::from(by)
}

impl Choices for Span {
    ghost use Rattle.helix_search.specs.Inner.SmallLaws.{number_is_value};

    ghost class = { λ s. numbers };

    ghost Has = { λ s v. HasNumber s.low s.high v };

    fn at_or_after<L: Ledger>(
        &self,
        mark: Mark<'_>,
        out: &mut Slot,
        _steps: &mut Steps<L>,
    ) -> bool {
        let Some(from) = least_from(mark) else {
            return false;
        };
        let units = from.max(i128::from(self.low));
        if units > i128::from(self.high) {
            return false;
        }
        out.set(CellRef::Number(units));
        true
    }

    ghost within = { λ s v has. number_is_value s.low s.high v has };
}

impl Link for Gap {
    ghost use Rattle.helix_search.specs.Inner.SmallLaws.{lower_rises, upper_rises, upper_holds_below};

    ghost class = { λ s. numbers };

    ghost Lower = { λ s. MeetsLower s.above };

    ghost Upper = { λ s. MeetsUpper s.below };

    ghost Allowed = { λ s. IsAllowed s.other };

    fn lower<'a>(&self, parent: CellRef<'a>) -> Option<Mark<'a>> {
        match (self.above, parent) {
            (Some(by), CellRef::Number(units)) => {
                Some(Mark::After(CellRef::Number(raised(units, by))))
            }
            _ => Some(Mark::Start),
        }
    }

    fn passes_upper(&self, parent: CellRef<'_>, child: CellRef<'_>) -> bool {
        match (self.below, parent, child) {
            (Some(by), CellRef::Number(p), CellRef::Number(v)) => raised(v, by) < p,
            _ => true,
        }
    }

    fn inverse<'a>(&self, child: CellRef<'a>) -> Option<Mark<'a>> {
        match (self.below, child) {
            (Some(by), CellRef::Number(units)) => {
                Some(Mark::After(CellRef::Number(raised(units, by))))
            }
            _ => Some(Mark::Start),
        }
    }

    fn excludes<'a>(&self, parent: CellRef<'_>, child: CellRef<'a>) -> Exclusion<'a> {
        match (self.other, parent, child) {
            (true, CellRef::Number(p), CellRef::Number(v)) if p == v => {
                Exclusion::Until(Mark::After(child))
            }
            _ => Exclusion::No,
        }
    }

    ghost lower_rises = { λ s. lower_rises s.above };

    ghost upper_rises = { λ s. upper_rises s.below };

    ghost upper_holds_below = { λ s. upper_holds_below s.below };
}
