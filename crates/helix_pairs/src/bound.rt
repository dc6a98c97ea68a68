//! What a relation says of a child's value, given its parent's.

ghost use Rattle.std.specs.Prelude.{◌≡◌, ◌↔◌, ◌^◌, pos, ◌<ℤ◌, ◌≤ℤ◌, IsTrue};
ghost use Rattle.helix_pairs.specs.Bounds.{MeetsLower, MeetsUpper, IsExcluded, AreThoseFrom};

use crate::comparison::{Comparison, End};
use crate::{left, right};
use helix_ladders::Shift;

/// A relation between a parent and a child, over the shift of its right end.
#[derive(Debug, Drop)]
pub struct Bound<S: Shift> {
    pub comparison: Comparison,
    /// The end that is the child.
    pub child: End,
    pub shift: S,
    ghost high_to: { S.high shift <ℤ pos (2 ^ 126) },
}

impl<S: Shift> Bound<S> {
    /// A relation over a shift.
    pub fn new(comparison: Comparison, child: End, shift: S) -> Bound<S>
        requires { S.high shift <ℤ pos (2 ^ 126) }
        ensures comparison { result.comparison ≡ comparison }
        ensures child { result.child ≡ child }
        ensures shift { result.shift ≡ shift }
    {
        Bound {
            comparison,
            child,
            shift,
        }
    }

    /// From where on children meet the lower bound, which may lie outside of the range; `None` where
    /// none does.
    pub fn lower(&self, parent: i128) -> Option<i128>
        requires from_low { S.low self.now.shift ≤ℤ parent }
        requires to_high { parent ≤ℤ S.high self.now.shift }
        ensures { AreThoseFrom (S.low self.now.shift) (S.high self.now.shift)
            (MeetsLower self.now.comparison self.now.child (S.applied self.now.shift) parent) result }
    {
        match self.child {
            End::Left => left::lower(&self.shift, self.comparison, parent),
            End::Right => right::lower(&self.shift, self.comparison, parent),
        }
    }

    /// Whether a child meets the upper bound.
    pub fn passes_upper(&self, parent: i128, child: i128) -> bool
        requires parent_from_low { S.low self.now.shift ≤ℤ parent }
        requires parent_to_high { parent ≤ℤ S.high self.now.shift }
        requires child_from_low { S.low self.now.shift ≤ℤ child }
        requires child_to_high { child ≤ℤ S.high self.now.shift }
        ensures { IsTrue result
            ↔ MeetsUpper self.now.comparison self.now.child (S.applied self.now.shift) parent child }
    {
        match self.child {
            End::Left => left::passes_upper(&self.shift, self.comparison, parent, child),
            End::Right => right::passes_upper(&self.shift, self.comparison, parent, child),
        }
    }

    /// From where on parents set an upper bound that a child meets, as in [`Bound::lower`].
    pub fn inverse(&self, child: i128) -> Option<i128>
        requires from_low { S.low self.now.shift ≤ℤ child }
        requires to_high { child ≤ℤ S.high self.now.shift }
        ensures { AreThoseFrom (S.low self.now.shift) (S.high self.now.shift)
            (λ p. MeetsUpper self.now.comparison self.now.child (S.applied self.now.shift) p child) result }
    {
        match self.child {
            End::Left => left::inverse(&self.shift, self.comparison, child),
            End::Right => right::inverse(&self.shift, self.comparison, child),
        }
    }

    /// Whether a child is one of those that a negated equality excludes.
    pub fn excludes(&self, parent: i128, child: i128) -> bool
        requires parent_from_low { S.low self.now.shift ≤ℤ parent }
        requires parent_to_high { parent ≤ℤ S.high self.now.shift }
        requires child_from_low { S.low self.now.shift ≤ℤ child }
        requires child_to_high { child ≤ℤ S.high self.now.shift }
        ensures { IsTrue result
            ↔ IsExcluded self.now.comparison self.now.child (S.applied self.now.shift) parent child }
    {
        match self.child {
            End::Left => left::excludes(&self.shift, self.comparison, parent, child),
            End::Right => right::excludes(&self.shift, self.comparison, parent, child),
        }
    }

    /// The first child after an excluded one that isn't excluded: all days whose month ends at one
    /// day are excluded together.
    pub fn past(&self, parent: i128, child: i128) -> Option<i128>
        requires parent_to_high { parent ≤ℤ S.high self.now.shift }
        requires child_from_low { S.low self.now.shift ≤ℤ child }
        requires excluded { IsExcluded self.now.comparison self.now.child (S.applied self.now.shift) parent child }
        ensures { AreThoseFrom child (S.high self.now.shift)
            (λ v. ¬ IsExcluded self.now.comparison self.now.child (S.applied self.now.shift) parent v) result }
    {
        match self.child {
            End::Left => left::past(&self.shift, self.comparison, parent, child),
            End::Right => right::past(&self.shift, self.comparison, parent, child),
        }
    }
}
