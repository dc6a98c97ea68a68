//! Laws of bounds, each the contract of a function that does nothing.

ghost use Rattle.std.specs.Prelude.{ℤ, ◌≡◌, ◌↔◌, ◌≤ℤ◌};
ghost use Rattle.std.specs.List.{All};
ghost use Rattle.helix_pairs.specs.Related.{AreRelated};
ghost use Rattle.helix_pairs.specs.Bounds.{MeetsLower, MeetsUpper, IsExcluded};
ghost use Rattle.helix_pairs.specs.declared.comparison.Comparison.{Comparison};
ghost use Rattle.helix_pairs.specs.declared.comparison.End.{End};

use crate::bound::Bound;
use crate::range::ValueRange;
use helix_ladders::Shift;

/// A relation holds exactly where the child meets both bounds and isn't excluded.
pub fn relations_are_bounds()
    ensures { (comparison : Comparison) (side : End) (shifted : ℤ → ℤ) (parent child : ℤ)
        → AreRelated comparison side shifted parent child
        ↔ (MeetsLower comparison side shifted parent child × MeetsUpper comparison side shifted parent child
        × (¬ IsExcluded comparison side shifted parent child)) }
{}

/// No bound falls as the parent's value grows, and what is below a child that meets an upper bound
/// meets it too.
pub fn bounds_rise<S: Shift>(shift: &S)
    ensures lower { (comparison : Comparison) (side : End) (p q v : ℤ)
        → S.low shift.now ≤ℤ p → p ≤ℤ q → q ≤ℤ S.high shift.now
        → MeetsLower comparison side (S.applied shift.now) q v
        → MeetsLower comparison side (S.applied shift.now) p v }
    ensures upper { (comparison : Comparison) (side : End) (p q v : ℤ)
        → S.low shift.now ≤ℤ p → p ≤ℤ q → q ≤ℤ S.high shift.now
        → MeetsUpper comparison side (S.applied shift.now) p v
        → MeetsUpper comparison side (S.applied shift.now) q v }
    ensures below { (comparison : Comparison) (side : End) (p v w : ℤ)
        → S.low shift.now ≤ℤ v → v ≤ℤ w → w ≤ℤ S.high shift.now
        → MeetsUpper comparison side (S.applied shift.now) p w
        → MeetsUpper comparison side (S.applied shift.now) p v }
{}

/// All relations of a pair hold exactly where the child meets all bounds and none excludes it.
pub fn pairs_are_bounds<S: Shift>(bounds: &[Bound<S>])
    ensures { (p v : ℤ) → All (λ b. AreRelated b.comparison b.child (S.applied b.shift) p v) bounds.now
        ↔ (All (λ b. MeetsLower b.comparison b.child (S.applied b.shift) p v) bounds.now
        × All (λ b. MeetsUpper b.comparison b.child (S.applied b.shift) p v) bounds.now
        × All (λ b. ¬ IsExcluded b.comparison b.child (S.applied b.shift) p v) bounds.now) }
{}

/// No bound of a pair falls as the parent's value grows, and what is below a child that meets the upper
/// bounds meets them too.
pub fn pair_bounds_rise<S: Shift>(bounds: &[Bound<S>], range: ValueRange)
    requires { All (λ b. (S.low b.shift ≡ range.low) × (S.high b.shift ≡ range.high)) bounds.now }
    ensures lower { (p q v : ℤ) → range.low ≤ℤ p → p ≤ℤ q → q ≤ℤ range.high
        → All (λ b. MeetsLower b.comparison b.child (S.applied b.shift) q v) bounds.now
        → All (λ b. MeetsLower b.comparison b.child (S.applied b.shift) p v) bounds.now }
    ensures upper { (p q v : ℤ) → range.low ≤ℤ p → p ≤ℤ q → q ≤ℤ range.high
        → All (λ b. MeetsUpper b.comparison b.child (S.applied b.shift) p v) bounds.now
        → All (λ b. MeetsUpper b.comparison b.child (S.applied b.shift) q v) bounds.now }
    ensures below { (p v w : ℤ) → range.low ≤ℤ v → v ≤ℤ w → w ≤ℤ range.high
        → All (λ b. MeetsUpper b.comparison b.child (S.applied b.shift) p w) bounds.now
        → All (λ b. MeetsUpper b.comparison b.child (S.applied b.shift) p v) bounds.now }
{}
