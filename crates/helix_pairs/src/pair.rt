//! What all relations of a parent and a child say together.

ghost use Rattle.std.specs.Prelude.{◌≡◌, ◌↔◌, ◌≤ℤ◌, IsTrue};
ghost use Rattle.std.specs.List.{All};
ghost use Rattle.helix_pairs.specs.Exclusion.{IsExclusion};
ghost use Rattle.helix_pairs.specs.Bounds.{MeetsLower, MeetsUpper, IsExcluded, AreThoseFrom};

use crate::bound::Bound;
use crate::range::ValueRange;
use helix_ladders::Shift;

/// The least child that meets all lower bounds.
pub fn lower<S: Shift>(bounds: &[Bound<S>], range: ValueRange, parent: i128) -> Option<i128>
    requires range { All (λ b. (S.low b.shift ≡ range.low) × (S.high b.shift ≡ range.high)) bounds.now }
    requires from_low { range.low ≤ℤ parent }
    requires to_high { parent ≤ℤ range.high }
    ensures { AreThoseFrom range.low range.high
        (λ v. All (λ b. MeetsLower b.comparison b.child (S.applied b.shift) parent v) bounds.now) result }
{
    let mut least = range.low;
    for bound in bounds {
        match bound.lower(parent) {
            Some(from) => least = least.max(from),
            None => return None,
        }
    }
    Some(least)
}

/// Whether a child meets all upper bounds.
pub fn passes_upper<S: Shift>(
    bounds: &[Bound<S>],
    range: ValueRange,
    parent: i128,
    child: i128,
) -> bool
    requires range { All (λ b. (S.low b.shift ≡ range.low) × (S.high b.shift ≡ range.high)) bounds.now }
    requires parent_from_low { range.low ≤ℤ parent }
    requires parent_to_high { parent ≤ℤ range.high }
    requires child_from_low { range.low ≤ℤ child }
    requires child_to_high { child ≤ℤ range.high }
    ensures { IsTrue result
        ↔ All (λ b. MeetsUpper b.comparison b.child (S.applied b.shift) parent child) bounds.now }
{
    for bound in bounds {
        if !bound.passes_upper(parent, child) {
            return false;
        }
    }
    true
}

/// The least parent for which a child meets all upper bounds.
pub fn inverse<S: Shift>(bounds: &[Bound<S>], range: ValueRange, child: i128) -> Option<i128>
    requires range { All (λ b. (S.low b.shift ≡ range.low) × (S.high b.shift ≡ range.high)) bounds.now }
    requires from_low { range.low ≤ℤ child }
    requires to_high { child ≤ℤ range.high }
    ensures { AreThoseFrom range.low range.high
        (λ p. All (λ b. MeetsUpper b.comparison b.child (S.applied b.shift) p child) bounds.now) result }
{
    let mut least = range.low;
    for bound in bounds {
        match bound.inverse(child) {
            Some(from) => least = least.max(from),
            None => return None,
        }
    }
    Some(least)
}

/// The values from a child on that negated equalities exclude.
#[derive(Clone, Copy, Debug, PartialEq, Eq)]
pub enum Exclusion {
    /// None excludes the child.
    No,
    /// The child and all values before this one are excluded.
    Before(i128),
    /// The child and all greater values are excluded.
    Rest,
}

/// What one of the relations that excludes a child excludes from it on.
pub fn excludes<S: Shift>(
    bounds: &[Bound<S>],
    range: ValueRange,
    parent: i128,
    child: i128,
) -> Exclusion
    requires range { All (λ b. (S.low b.shift ≡ range.low) × (S.high b.shift ≡ range.high)) bounds.now }
    requires parent_from_low { range.low ≤ℤ parent }
    requires parent_to_high { parent ≤ℤ range.high }
    requires child_from_low { range.low ≤ℤ child }
    requires child_to_high { child ≤ℤ range.high }
    ensures { IsExclusion
        (λ v. All (λ b. ¬ IsExcluded b.comparison b.child (S.applied b.shift) parent v) bounds.now)
        range.high child result }
{
    for bound in bounds {
        if !bound.excludes(parent, child) {
            continue;
        }
        match bound.past(parent, child) {
            Some(next) => return Exclusion::Before(next),
            None => return Exclusion::Rest,
        }
    }
    Exclusion::No
}
