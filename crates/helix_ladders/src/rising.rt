//! Shifts that keep the order of values.

ghost use Rattle.std.specs.Prelude.{ℤ, ◌≡◌, ◌^◌, pos, neg_ℤ, ◌+ℤ◌, ◌≤ℤ◌, IfSome, IfNone};
ghost use Rattle.helix_ladders.specs.Rising.{IsShiftedTo};
ghost use Rattle.helix_ladders.specs.Scale.{IsLeast};

/// A shift of the whole numbers of a range: a greater one has no lesser result.
pub trait Shift {
    ghost low: { Self → ℤ };

    ghost high: { Self → ℤ };

    ghost applied: { Self → ℤ → ℤ };

    /// The least value of the range.
    fn low(&self) -> i128
        ensures { result ≡ low self.now };

    /// The greatest value of the range.
    fn high(&self) -> i128
        ensures { result ≡ high self.now };

    /// What a value of the range is shifted to.
    fn apply(&self, value: i128) -> i128
        requires from_low { low self.now ≤ℤ value }
        requires to_high { value ≤ℤ high self.now }
        ensures { result ≡ applied self.now value };

    /// The least value of the range whose result isn't below a target.
    fn least_from(&self, target: i128) -> Option<i128>
        ensures some { IfSome result (IsLeast (IsShiftedTo (low self.now) (high self.now) (applied self.now) target)) }
        ensures none { IfNone result ((v : ℤ)
            → ¬ IsShiftedTo (low self.now) (high self.now) (applied self.now) target v) };

    // A greater value has no lesser result.
    ghost rises: { (s : Self) (v w : ℤ) → low s ≤ℤ v → v ≤ℤ w → w ≤ℤ high s → applied s v ≤ℤ applied s w };
}

/// The shift by a number: the sum.
#[derive(Clone, Copy, Debug)]
pub struct Plain {
    pub low: i128,
    pub high: i128,
    pub offset: i128,
    ghost ordered: { low ≤ℤ high },
    ghost low_from: { neg_ℤ (pos (10 ^ 36)) ≤ℤ low },
    ghost high_to: { high ≤ℤ pos (10 ^ 36) },
    ghost offset_from: { neg_ℤ (pos (10 ^ 36)) ≤ℤ offset },
    ghost offset_to: { offset ≤ℤ pos (10 ^ 36) },
}

impl Plain {
    /// The shift of the numbers from `low` to `high`.
    pub fn new(low: i128, high: i128, offset: i128) -> Plain
        requires ordered { low ≤ℤ high }
        requires low_from { neg_ℤ (pos (10 ^ 36)) ≤ℤ low }
        requires high_to { high ≤ℤ pos (10 ^ 36) }
        requires offset_from { neg_ℤ (pos (10 ^ 36)) ≤ℤ offset }
        requires offset_to { offset ≤ℤ pos (10 ^ 36) }
        ensures low { result.low ≡ low }
        ensures high { result.high ≡ high }
        ensures offset { result.offset ≡ offset }
    {
        Plain { low, high, offset }
    }
}

impl Shift for Plain {
    ghost use Rattle.std.specs.Prelude.{◌+ℤ◌};
    ghost use Rattle.helix_ladders.specs.LadderLaws.{sum_rises};

    ghost low = { λ s. s.low };

    ghost high = { λ s. s.high };

    ghost applied = { λ s v. v +ℤ s.offset };

    fn low(&self) -> i128 {
        self.low
    }

    fn high(&self) -> i128 {
        self.high
    }

    fn apply(&self, value: i128) -> i128 {
        value + self.offset
    }

    fn least_from(&self, target: i128) -> Option<i128> {
        if target > self.high + self.offset {
            None
        } else if target <= self.low + self.offset {
            Some(self.low)
        } else {
            Some(target - self.offset)
        }
    }

    ghost rises = { λ s v w from_low below to_high. sum_rises s.offset v w below };
}
