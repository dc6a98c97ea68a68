//! The part of a ladder that bounds and grids leave.

ghost use Rattle.std.specs.Prelude.{ℤ, ◌↔◌, ◌<◌, ◌≤ℤ◌, IsTrue, IfSome};
ghost use Rattle.helix_grids.specs.Inner.Window.{IsInWindow, IsOfLevel, IsWindowOf};

use helix_ladders::Scale;

/// The values from `least` to `most` that are on the grid of one level and off that of another.
#[derive(Clone, Copy, Debug)]
pub struct Window {
    pub least: i128,
    pub most: i128,
    pub on: u32,
    pub off: Option<u32>,
}

/// All values of a level.
pub fn whole_level<S: Scale>(scale: &S, level: u32) -> Window
    requires { level < (S.ladder scale.now).levels }
    ensures exact { (v : ℤ) → IsInWindow (S.ladder scale.now) result v ↔ IsOfLevel (S.ladder scale.now) level v }
    ensures kept { IsWindowOf (S.ladder scale.now) result }
{
    Window {
        least: scale.low(),
        most: scale.high(),
        on: level,
        off: None,
    }
}

/// The window's values from a bound on, on each ladder.
pub fn with_least<S: Scale>(window: Window, bound: i128) -> Window
    ensures exact { (s : S) (v : ℤ) → IsInWindow (S.ladder s) result v
        ↔ (IsInWindow (S.ladder s) window v × (bound ≤ℤ v)) }
    ensures kept { (s : S) → IsWindowOf (S.ladder s) window → IsWindowOf (S.ladder s) result }
{
    Window {
        least: window.least.max(bound),
        ..window
    }
}

/// The window's values up to a bound, on each ladder.
pub fn with_most<S: Scale>(window: Window, bound: i128) -> Window
    ensures exact { (s : S) (v : ℤ) → IsInWindow (S.ladder s) result v
        ↔ (IsInWindow (S.ladder s) window v × (v ≤ℤ bound)) }
    ensures kept { (s : S) → IsWindowOf (S.ladder s) window → IsWindowOf (S.ladder s) result }
{
    Window {
        most: window.most.min(bound),
        ..window
    }
}

/// The window's values on the grid of a level, on each ladder.
pub fn with_on<S: Scale>(window: Window, level: u32) -> Window
    ensures exact { (s : S) (v : ℤ) → IsWindowOf (S.ladder s) window → level < (S.ladder s).levels
        → IsInWindow (S.ladder s) result v ↔ (IsInWindow (S.ladder s) window v × (S.ladder s).IsOn level v) }
    ensures kept { (s : S) → IsWindowOf (S.ladder s) window → level < (S.ladder s).levels
        → IsWindowOf (S.ladder s) result }
{
    Window {
        on: window.on.max(level),
        ..window
    }
}

/// The window's values off the grid of a level, on each ladder.
pub fn with_off<S: Scale>(window: Window, level: u32) -> Window
    ensures exact { (s : S) (v : ℤ) → IsWindowOf (S.ladder s) window → level < (S.ladder s).levels
        → IsInWindow (S.ladder s) result v ↔ (IsInWindow (S.ladder s) window v × (¬ (S.ladder s).IsOn level v)) }
    ensures kept { (s : S) → IsWindowOf (S.ladder s) window → level < (S.ladder s).levels
        → IsWindowOf (S.ladder s) result }
{
    let off = match window.off {
        Some(off) => off.min(level),
        None => level,
    };
    Window {
        off: Some(off),
        ..window
    }
}

/// Whether a value lies in a window.
pub fn is_in_window<S: Scale>(scale: &S, window: Window, value: i128) -> bool
    requires { IsWindowOf (S.ladder scale.now) window }
    ensures { IsTrue result ↔ IsInWindow (S.ladder scale.now) window value }
{
    if value < window.least || window.most < value || !scale.on(window.on, value) {
        return false;
    }
    is_off(scale, window.off, value)
}

/// Whether a value isn't on the grid that a window leaves out.
#[inline(always)]
pub fn is_off<S: Scale>(scale: &S, off: Option<u32>, value: i128) -> bool
    requires { IfSome off (λ level. level < (S.ladder scale.now).levels) }
    ensures { IsTrue result ↔ IfSome off (λ level. ¬ (S.ladder scale.now).IsOn level value) }
{
    match off {
        Some(level) => !scale.on(level, value),
        None => true,
    }
}
