//! The bounds of a child that is the left end: it compares with the shifted value of the parent.

ghost use Rattle.std.specs.Prelude.{◌↔◌, ◌^◌, pos, ◌<ℤ◌, ◌≤ℤ◌, IsTrue};
ghost use Rattle.helix_pairs.specs.Bounds.{MeetsLower, MeetsUpper, IsExcluded, AreThoseFrom};
ghost use Rattle.helix_pairs.specs.declared.comparison.End.TheVariants.{Left};

use crate::comparison::Comparison;
use crate::cuts::{exceeding, reaching, value_above};
use helix_ladders::Shift;

pub fn lower<S: Shift>(shift: &S, comparison: Comparison, parent: i128) -> Option<i128>
    requires from_low { S.low shift.now ≤ℤ parent }
    requires to_high { parent ≤ℤ S.high shift.now }
    ensures { AreThoseFrom (S.low shift.now) (S.high shift.now)
        (MeetsLower comparison Left (S.applied shift.now) parent) result }
{
    match comparison {
        Comparison::Equal | Comparison::AtLeast => Some(shift.apply(parent)),
        Comparison::Above => value_above(shift, shift.apply(parent)),
        _ => Some(shift.low()),
    }
}

pub fn passes_upper<S: Shift>(shift: &S, comparison: Comparison, parent: i128, child: i128) -> bool
    requires from_low { S.low shift.now ≤ℤ parent }
    requires to_high { parent ≤ℤ S.high shift.now }
    ensures { IsTrue result ↔ MeetsUpper comparison Left (S.applied shift.now) parent child }
{
    match comparison {
        Comparison::Equal | Comparison::AtMost => child <= shift.apply(parent),
        Comparison::Below => child < shift.apply(parent),
        _ => true,
    }
}

pub fn inverse<S: Shift>(shift: &S, comparison: Comparison, child: i128) -> Option<i128>
    requires { child <ℤ pos (2 ^ 126) }
    ensures { AreThoseFrom (S.low shift.now) (S.high shift.now)
        (λ p. MeetsUpper comparison Left (S.applied shift.now) p child) result }
{
    match comparison {
        Comparison::Equal | Comparison::AtMost => reaching(shift, child),
        Comparison::Below => exceeding(shift, child),
        _ => Some(shift.low()),
    }
}

pub fn excludes<S: Shift>(shift: &S, comparison: Comparison, parent: i128, child: i128) -> bool
    requires from_low { S.low shift.now ≤ℤ parent }
    requires to_high { parent ≤ℤ S.high shift.now }
    ensures { IsTrue result ↔ IsExcluded comparison Left (S.applied shift.now) parent child }
{
    match comparison {
        Comparison::Different => child == shift.apply(parent),
        _ => false,
    }
}

/// The first child after those that are excluded from one on.
pub fn past<S: Shift>(shift: &S, comparison: Comparison, parent: i128, child: i128) -> Option<i128>
    requires from_low { S.low shift.now ≤ℤ child }
    requires excluded { IsExcluded comparison Left (S.applied shift.now) parent child }
    ensures { AreThoseFrom child (S.high shift.now)
        (λ v. ¬ IsExcluded comparison Left (S.applied shift.now) parent v) result }
{
    value_above(shift, child)
}
