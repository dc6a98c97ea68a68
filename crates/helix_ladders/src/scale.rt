//! A ladder of grids over a range of whole numbers.

ghost use Rattle.std.specs.Prelude.{ℤ, ◌≡◌, ◌↔◌, ◌<◌, IsTrue, IfSome, IfNone};
ghost use Rattle.helix_ladders.specs.Scale.{Ladder, IsLadder, IsLeast, IsGreatest, IsAtOrAfter, IsAtOrBefore};

/// A range of whole numbers with grids on it, each coarser grid a part of each finer one. The
/// levels count the grids from the finest, level 0, which has every value of the range.
pub trait Scale {
    ghost ladder: { Self → Ladder };

    /// The least value of the range.
    fn low(&self) -> i128
        ensures { result ≡ (ladder self.now).low };

    /// The greatest value of the range.
    fn high(&self) -> i128
        ensures { result ≡ (ladder self.now).high };

    /// How many grids there are.
    fn levels(&self) -> u32
        ensures { result ≡ (ladder self.now).levels };

    /// Whether a value is on the grid of a level.
    fn on(&self, level: u32, value: i128) -> bool
        requires { level < (ladder self.now).levels }
        ensures { IsTrue result ↔ (ladder self.now).IsOn level value };

    /// A number that divides each value on a level.
    fn step(&self, level: u32) -> u64
        requires { level < (ladder self.now).levels }
        ensures { result ≡ (ladder self.now).step level };

    /// Whether every multiple of the step of a level in the range is on it.
    fn is_regular(&self, level: u32) -> bool
        requires { level < (ladder self.now).levels }
        ensures { result ≡ (ladder self.now).is_regular level };

    /// The least value of the range that is on the grid of a level and isn't below a bound.
    fn ceil(&self, level: u32, bound: i128) -> Option<i128>
        requires { level < (ladder self.now).levels }
        ensures some { IfSome result (IsLeast (IsAtOrAfter (ladder self.now) level bound)) }
        ensures none { IfNone result ((v : ℤ) → ¬ IsAtOrAfter (ladder self.now) level bound v) };

    /// The greatest value of the range that is on the grid of a level and isn't above a bound.
    fn floor(&self, level: u32, bound: i128) -> Option<i128>
        requires { level < (ladder self.now).levels }
        ensures some { IfSome result (IsGreatest (IsAtOrBefore (ladder self.now) level bound)) }
        ensures none { IfNone result ((v : ℤ) → ¬ IsAtOrBefore (ladder self.now) level bound v) };

    ghost laws: { (s : Self) → IsLadder (ladder s) };
}
