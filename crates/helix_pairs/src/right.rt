//! The bounds of a child that is the right end: its shifted value compares with the parent.

ghost use Rattle.std.specs.Prelude.{◌↔◌, ◌^◌, pos, ◌<ℤ◌, ◌≤ℤ◌, IsTrue};
ghost use Rattle.helix_pairs.specs.Bounds.{MeetsLower, MeetsUpper, IsExcluded, AreThoseFrom};
ghost use Rattle.helix_pairs.specs.declared.comparison.End.TheVariants.{Right};

use crate::comparison::Comparison;
use crate::cuts::{exceeding, reaching, value_above};
use helix_ladders::Shift;

pub fn lower<S: Shift>(shift: &S, comparison: Comparison, parent: i128) -> Option<i128>
    requires { parent <ℤ pos (2 ^ 126) }
    ensures { AreThoseFrom (S.low shift.now) (S.high shift.now)
        (MeetsLower comparison Right (S.applied shift.now) parent) result }
{
    match comparison {
        Comparison::Equal | Comparison::AtMost => reaching(shift, parent),
        Comparison::Below => exceeding(shift, parent),
        _ => Some(shift.low()),
    }
}

pub fn passes_upper<S: Shift>(shift: &S, comparison: Comparison, parent: i128, child: i128) -> bool
    requires from_low { S.low shift.now ≤ℤ child }
    requires to_high { child ≤ℤ S.high shift.now }
    ensures { IsTrue result ↔ MeetsUpper comparison Right (S.applied shift.now) parent child }
{
    match comparison {
        Comparison::Equal | Comparison::AtLeast => shift.apply(child) <= parent,
        Comparison::Above => shift.apply(child) < parent,
        _ => true,
    }
}

pub fn inverse<S: Shift>(shift: &S, comparison: Comparison, child: i128) -> Option<i128>
    requires from_low { S.low shift.now ≤ℤ child }
    requires to_high { child ≤ℤ S.high shift.now }
    ensures { AreThoseFrom (S.low shift.now) (S.high shift.now)
        (λ p. MeetsUpper comparison Right (S.applied shift.now) p child) result }
{
    match comparison {
        Comparison::Equal | Comparison::AtLeast => Some(shift.apply(child)),
        Comparison::Above => value_above(shift, shift.apply(child)),
        _ => Some(shift.low()),
    }
}

pub fn excludes<S: Shift>(shift: &S, comparison: Comparison, parent: i128, child: i128) -> bool
    requires from_low { S.low shift.now ≤ℤ child }
    requires to_high { child ≤ℤ S.high shift.now }
    ensures { IsTrue result ↔ IsExcluded comparison Right (S.applied shift.now) parent child }
{
    match comparison {
        Comparison::Different => parent == shift.apply(child),
        _ => false,
    }
}

/// The first child after those that are excluded from one on, as the days whose month ends at one day.
pub fn past<S: Shift>(shift: &S, comparison: Comparison, parent: i128, child: i128) -> Option<i128>
    requires from_low { S.low shift.now ≤ℤ child }
    requires parent { parent <ℤ pos (2 ^ 126) }
    requires excluded { IsExcluded comparison Right (S.applied shift.now) parent child }
    ensures { AreThoseFrom child (S.high shift.now)
        (λ v. ¬ IsExcluded comparison Right (S.applied shift.now) parent v) result }
{
    exceeding(shift, parent)
}
