//! The separate ranges of a set.

ghost use Rattle.std.specs.Prelude.{◌≡◌, ℕ, ◌++◌, ◌||◌, nat_le, nat_lt, None, Some, IfOk, IsPermutation};
ghost use Rattle.helix_base.specs.Ranges.{in_ranges};
ghost use Rattle.helix_regex.specs.Meaning.{AreRangesOf};
ghost use Rattle.helix_regex.specs.Inner.Sets.{Ascending, touches, joined, joined_from};

use helix_base::Memory;
use helix_expr::Ranges;
use std::alloc::Global;

/// Puts ranges into the order of their first codes.
fn sort_ranges(raw: &mut Vec<(u32, u32)>)
    ensures permutation { IsPermutation raw.old.items raw.new.items }
    ensures order { Ascending raw.new.items }
{
    raw.sort_unstable();
}

fn touches(before: (u32, u32), range: (u32, u32)) -> bool
    ensures { result ≡ touches before range }
{
    range.0.saturating_sub(before.1) <= 1
}

/// Ranges in ascending order, joined where they touch.
fn joined(alloc: Global, sorted: &[(u32, u32)]) -> Result<Ranges, Memory>
    ensures { IfOk result (λ ranges. ranges ≡ joined_from None sorted.now) }
{
    let mut ranges = Ranges::new(alloc);
    let mut current: Option<(u32, u32)> = None;
    for range in sorted {
        if range.1 < range.0 {
            continue;
        }
        current = match current {
            None => Some(*range),
            Some(before) => {
                if touches(before, *range) {
                    Some((before.0, before.1.max(range.1)))
                } else {
                    ranges.push(before)?;
                    Some(*range)
                }
            }
        };
    }
    if let Some(last) = current {
        ranges.push(last)?;
    }
    Ok(ranges)
}

/// The separate ranges of a set that is listed in any order.
pub fn separated(alloc: Global, raw: Vec<(u32, u32)>) -> Result<Ranges, Memory>
    ensures { IfOk result (AreRangesOf (λ c. in_ranges raw.items c)) }
{
    let mut sorted = raw;
    sort_ranges(&mut sorted);
    let ranges = joined(alloc, sorted.as_slice())?;
    Ok(ranges)
}
