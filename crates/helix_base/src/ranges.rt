//! Tables of ranges of codes.

ghost use Rattle.std.specs.Prelude.{◌≡◌, true, false, IfSome, IfNone};
ghost use Rattle.helix_base.specs.Ranges.{are_in_order, in_ranges, IsLeastFrom, EndsBelow};

use std::marker::Model;

/// Ranges of codes, each from its first to its last, in ascending order and apart from each other. Contracts see the
/// list of the ranges.
#[derive(Debug, Drop)]
pub struct RangeTable<const N: usize> {
    ranges: [(u32, u32); N],
}

impl<const N: usize> Model for RangeTable<N> {
    ghost use Rattle.std.specs.Prelude.{List, ℕ, IsTrue};
    ghost use Rattle.helix_base.specs.Ranges.{are_in_order};

    ghost Value = { List (ℕ × ℕ) };

    ghost view = { λ table. table.ranges };

    ghost invariant = { λ table. IsTrue (are_in_order table.ranges) };
}

impl<const N: usize> RangeTable<N> {
    /// The table of these ranges, or `None` where one is reversed, or two aren't in order and apart.
    pub fn new(ranges: [(u32, u32); N]) -> Option<RangeTable<N>>
        ensures some { IfSome result (λ table. table ≡ ranges.entry) }
        ensures in_order { IfSome result (λ _. are_in_order ranges.entry ≡ true) }
        ensures none { IfNone result (are_in_order ranges.entry ≡ false) }
    {
        if are_in_order(ranges.as_slice()) {
            Some(RangeTable { ranges })
        } else {
            None
        }
    }

    /// Whether a code is in some range.
    pub fn has(&self, code: u32) -> bool
        ensures { result ≡ in_ranges self.now code }
    {
        in_ranges(self.ranges.as_slice(), code)
    }

    /// The least code of the table that isn't below this one, or `None` where there is none.
    pub fn next_at_or_after(&self, code: u32) -> Option<u32>
        ensures some { IfSome result (IsLeastFrom self.now code) }
        ensures none { IfNone result (EndsBelow self.now code) }
    {
        next_at_or_after(self.ranges.as_slice(), code)
    }
}

/// Whether no range is reversed and each ends below the next one's beginning.
fn are_in_order(ranges: &[(u32, u32)]) -> bool
    ensures { result ≡ are_in_order ranges.now }
{
    let mut rest = ranges;
    while let [range, next, ..] = rest {
        if range.0 > range.1 || range.1 >= next.0 {
            return false;
        }
        rest = &rest[1..];
    }
    match rest {
        [range, ..] => range.0 <= range.1,
        [] => true,
    }
}

/// Whether a code is in some range.
pub fn in_ranges(ranges: &[(u32, u32)], code: u32) -> bool
    ensures { result ≡ in_ranges ranges.now code }
{
    ranges
        .iter()
        .any(|range| range.0 <= code && code <= range.1)
}

/// The least listed code that isn't below this one: it is in the first range that ends there or above.
pub(crate) fn next_at_or_after(ranges: &[(u32, u32)], code: u32) -> Option<u32>
    requires { are_in_order ranges.now ≡ true }
    ensures some { IfSome result (IsLeastFrom ranges.now code) }
    ensures none { IfNone result (EndsBelow ranges.now code) }
{
    for range in ranges {
        if code <= range.1 {
            return Some(code.max(range.0));
        }
    }
    None
}
