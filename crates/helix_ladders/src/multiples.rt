//! Multiples of a step.

ghost use Rattle.std.specs.Prelude.{ℤ, ◌≡◌, ◌↔◌, ◌<◌, ◌≤◌, ◌%◌, ◌^◌, ◌≤ℤ◌, unsigned_abs, IsTrue};
ghost use Rattle.helix_ladders.specs.Grids.{IsMultipleOf};
ghost use Rattle.helix_ladders.specs.Scale.{IsLeast, IsGreatest};

/// The remainder of a division, in 64 bits where the number fits them.
#[inline(always)]
fn remainder(number: u128, step: u64) -> u64
    requires { 0 < step }
    ensures { result ≡ number % step }
{
    match u64::try_from(number) {
        Ok(small) => small % step,
        Err(_) => (number % u128::from(step)) as u64,
    }
}

#[inline(always)]
pub fn is_multiple_of(step: u64, value: i128) -> bool
    requires { 0 < step }
    ensures { IsTrue result ↔ IsMultipleOf step value }
{
    remainder(value.unsigned_abs(), step) == 0
}

/// The least multiple that isn't below a bound.
#[inline(always)]
pub fn multiple_from(step: u64, bound: i128) -> i128
    requires some { 0 < step }
    requires step { step < 2 ^ 64 }
    requires bound { unsigned_abs bound < 2 ^ 126 }
    ensures { IsLeast (λ v. IsMultipleOf step v × (bound ≤ℤ v)) result }
{
    multiple_above(step, remainder(bound.unsigned_abs(), step), bound)
}

/// The least multiple that isn't below a bound whose size has this remainder.
#[inline(always)]
pub fn multiple_above(step: u64, past: u64, bound: i128) -> i128
    requires some { 0 < step }
    requires step { step < 2 ^ 64 }
    requires bound { unsigned_abs bound < 2 ^ 126 }
    requires past { past ≡ unsigned_abs bound % step }
    ensures { IsLeast (λ v. IsMultipleOf step v × (bound ≤ℤ v)) result }
{
    if past == 0 {
        bound
    } else if bound < 0 {
        bound + i128::from(past)
    } else {
        bound + i128::from(step - past)
    }
}

/// The greatest multiple that isn't above a bound.
#[inline(always)]
pub fn multiple_to(step: u64, bound: i128) -> i128
    requires some { 0 < step }
    requires step { step < 2 ^ 64 }
    requires bound { unsigned_abs bound < 2 ^ 126 }
    ensures { IsGreatest (λ v. IsMultipleOf step v × (v ≤ℤ bound)) result }
{
    multiple_below(step, remainder(bound.unsigned_abs(), step), bound)
}

/// The greatest multiple that isn't above a bound whose size has this remainder.
#[inline(always)]
pub fn multiple_below(step: u64, past: u64, bound: i128) -> i128
    requires some { 0 < step }
    requires step { step < 2 ^ 64 }
    requires bound { unsigned_abs bound < 2 ^ 126 }
    requires past { past ≡ unsigned_abs bound % step }
    ensures { IsGreatest (λ v. IsMultipleOf step v × (v ≤ℤ bound)) result }
{
    if past == 0 {
        bound
    } else if bound < 0 {
        bound - i128::from(step - past)
    } else {
        bound - i128::from(past)
    }
}
