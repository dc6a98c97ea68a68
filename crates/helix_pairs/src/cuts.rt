//! The values of a range that reach a target, or exceed a bound: those from one on.

ghost use Rattle.std.specs.Prelude.{◌^◌, pos, ◌<ℤ◌, ◌≤ℤ◌};
ghost use Rattle.helix_pairs.specs.Bounds.{AreThoseFrom};

use helix_ladders::Shift;

/// The least value above a bound.
pub fn value_above<S: Shift>(shift: &S, bound: i128) -> Option<i128>
    ensures { AreThoseFrom (S.low shift.now) (S.high shift.now) (λ v. bound <ℤ v) result }
{
    if bound < shift.high() {
        Some(bound + 1)
    } else {
        None
    }
}

/// The least value whose result isn't below a target.
pub fn reaching<S: Shift>(shift: &S, target: i128) -> Option<i128>
    ensures { AreThoseFrom (S.low shift.now) (S.high shift.now) (λ v. target ≤ℤ S.applied shift.now v) result }
{
    shift.least_from(target)
}

/// The least value whose result is above a bound.
pub fn exceeding<S: Shift>(shift: &S, bound: i128) -> Option<i128>
    requires { bound <ℤ pos (2 ^ 126) }
    ensures { AreThoseFrom (S.low shift.now) (S.high shift.now) (λ v. bound <ℤ S.applied shift.now v) result }
{
    reaching(shift, bound + 1)
}
