//! A window without the excluded values.

ghost use Rattle.std.specs.Prelude.{ℤ, ◌≡◌, ◌↔◌, ◌<◌, ◌≤◌, ◌≤ℤ◌, ◌<ℤ◌, length, pos, ◌+ℤ◌, IsTrue, IfOk};
ghost use Rattle.helix_grids.specs.Tests.{IsLeastOf};
ghost use Rattle.helix_grids.specs.Inner.Window.{IsInWindow, IsWindowOf};
ghost use Rattle.helix_grids.specs.Inner.Sieve.{AreAscending, IsSifted, AreNext, IsItOrNext};

use crate::first::{first_in, next_in};
use crate::search::{index_of, is_listed};
use crate::window::{Window, is_in_window};
use helix_base::Memory;
use helix_ladders::Scale;
use std::alloc::Global;

/// Whether a value lies in a window and isn't excluded.
pub fn is_sifted<S: Scale>(scale: &S, window: Window, excluded: &[i128], value: i128) -> bool
    requires window { IsWindowOf (S.ladder scale.now) window }
    requires ascending { AreAscending excluded.now }
    ensures { IsTrue result ↔ IsSifted (S.ladder scale.now) window excluded.now value }
{
    if is_listed(excluded, value) {
        return false;
    }
    is_in_window(scale, window, value)
}

/// The least value of a window from a bound on that isn't excluded. A run of excluded neighbours costs
/// one lookup of what is next to the first of them.
#[inline(always)]
pub fn first_sifted<S: Scale>(
    scale: &S,
    window: Window,
    excluded: &[i128],
    next: &[Option<i128>],
    bound: i128,
) -> Option<i128>
    requires window { IsWindowOf (S.ladder scale.now) window }
    requires ascending { AreAscending excluded.now }
    requires len { length next.now ≡ length excluded.now }
    requires next { AreNext (S.ladder scale.now) window excluded.now next.now bound }
    ensures { IsLeastOf (λ v. IsSifted (S.ladder scale.now) window excluded.now v × (bound ≤ℤ v)) result }
{
    let Some(first) = first_in(scale, window, bound) else {
        return None;
    };
    or_next(excluded, next, first)
}

/// The least value of a window above one of its values that isn't excluded.
#[inline(always)]
pub fn next_sifted<S: Scale>(
    scale: &S,
    window: Window,
    excluded: &[i128],
    next: &[Option<i128>],
    value: i128,
) -> Option<i128>
    requires window { IsWindowOf (S.ladder scale.now) window }
    requires ascending { AreAscending excluded.now }
    requires len { length next.now ≡ length excluded.now }
    requires next { AreNext (S.ladder scale.now) window excluded.now next.now (value +ℤ pos 1) }
    requires value { IsInWindow (S.ladder scale.now) window value }
    ensures { IsLeastOf (λ v. IsSifted (S.ladder scale.now) window excluded.now v × (value <ℤ v)) result }
{
    let Some(first) = next_in(scale, window, value) else {
        return None;
    };
    or_next(excluded, next, first)
}

/// A value, unless it is excluded, and else what is next to it.
#[inline(always)]
fn or_next(excluded: &[i128], next: &[Option<i128>], value: i128) -> Option<i128>
    requires ascending { AreAscending excluded.now }
    requires len { length next.now ≡ length excluded.now }
    ensures { IsItOrNext excluded.now next.now value result }
{
    match index_of(excluded, value) {
        Some(index) => next[index],
        None => Some(value),
    }
}

/// The least value of a window above another one that isn't excluded.
fn first_sifted_above<S: Scale>(
    scale: &S,
    window: Window,
    excluded: &[i128],
    next: &[Option<i128>],
    value: i128,
) -> Option<i128>
    requires window { IsWindowOf (S.ladder scale.now) window }
    requires ascending { AreAscending excluded.now }
    requires len { length next.now ≡ length excluded.now }
    requires next { AreNext (S.ladder scale.now) window excluded.now next.now (value +ℤ pos 1) }
    ensures { IsLeastOf (λ v. IsSifted (S.ladder scale.now) window excluded.now v × (value <ℤ v)) result }
{
    if value < window.most {
        first_sifted(scale, window, excluded, next, value + 1)
    } else {
        None
    }
}

/// To each excluded value the least one above it that isn't excluded.
pub fn next_of<S: Scale>(
    alloc: Global,
    scale: &S,
    window: Window,
    excluded: &[i128],
) -> Result<Vec<Option<i128>>, Memory>
    requires window { IsWindowOf (S.ladder scale.now) window }
    requires ascending { AreAscending excluded.now }
    ensures len { IfOk result (λ next. length next.items ≡ length excluded.now) }
    ensures next { IfOk result (λ next. (bound : ℤ)
        → AreNext (S.ladder scale.now) window excluded.now next.items bound) }
{
    let mut next = vec![in alloc; None; excluded.len()]?;
    for index in (0..excluded.len()).rev() {
        next[index] = first_sifted_above(scale, window, excluded, next.as_slice(), excluded[index]);
    }
    Ok(next)
}
