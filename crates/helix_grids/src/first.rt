//! The least values of a window: on a level, and off a coarser one.

ghost use Rattle.std.specs.Prelude.{◌<◌, ◌≤ℤ◌, pos, ◌+ℤ◌};
ghost use Rattle.helix_grids.specs.Tests.{IsLeastOf};
ghost use Rattle.helix_grids.specs.Inner.Window.{IsInWindow, IsWindowOf, IsBetween};

use crate::window::{Window, is_off};
use helix_ladders::Scale;

/// The least value of a window that isn't below a bound.
#[inline(always)]
pub fn first_in<S: Scale>(scale: &S, window: Window, bound: i128) -> Option<i128>
    requires { IsWindowOf (S.ladder scale.now) window }
    ensures { IsLeastOf (λ v. IsInWindow (S.ladder scale.now) window v × (bound ≤ℤ v)) result }
{
    let from = bound.max(window.least);
    match window.off {
        None => first_on(scale, window.on, from, window.most),
        Some(off) => first_on_and_off(scale, window.on, off, from, window.most),
    }
}

/// The least value of a window above one of its values.
#[inline(always)]
pub fn next_in<S: Scale>(scale: &S, window: Window, value: i128) -> Option<i128>
    requires window { IsWindowOf (S.ladder scale.now) window }
    requires value { IsInWindow (S.ladder scale.now) window value }
    ensures { IsLeastOf (λ v. IsInWindow (S.ladder scale.now) window v × ((value +ℤ pos 1) ≤ℤ v)) result }
{
    if !scale.is_regular(window.on) {
        return first_in(scale, window, value + 1);
    }
    let next = value + i128::from(scale.step(window.on));
    if next > window.most {
        return None;
    }
    if is_off(scale, window.off, next) {
        Some(next)
    } else {
        first_in(scale, window, next + 1)
    }
}

/// The least value from a bound to `most` that is on a grid.
#[inline(always)]
fn first_on<S: Scale>(scale: &S, on: u32, bound: i128, most: i128) -> Option<i128>
    requires level { on < (S.ladder scale.now).levels }
    requires range { most ≤ℤ (S.ladder scale.now).high }
    ensures { IsLeastOf (IsBetween (S.ladder scale.now).low most ((S.ladder scale.now).IsOn on) bound) result }
{
    match scale.ceil(on, bound) {
        Some(value) if value <= most => Some(value),
        _ => None,
    }
}

/// The least value from a bound to `most` that is on one grid and off another.
fn first_on_and_off<S: Scale>(scale: &S, on: u32, off: u32, bound: i128, most: i128) -> Option<i128>
    requires on { on < (S.ladder scale.now).levels }
    requires off { off < (S.ladder scale.now).levels }
    requires range { most ≤ℤ (S.ladder scale.now).high }
    ensures { IsLeastOf (IsBetween (S.ladder scale.now).low most (λ v. (S.ladder scale.now).IsOn on v
        × (¬ (S.ladder scale.now).IsOn off v)) bound) result }
{
    // A coarser grid is a part of each finer one.
    if off <= on {
        return None;
    }
    // On the ladders of numbers and moments no two neighbours on a grid are both on a coarser one, so
    // there are at most two rounds.
    let mut from = bound;
    while from <= most {
        let Some(value) = first_on(scale, on, from, most) else {
            return None;
        };
        if !scale.on(off, value) {
            return Some(value);
        }
        if most <= value {
            return None;
        }
        from = value + 1;
    }
    None
}
