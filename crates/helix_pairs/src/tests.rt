//! Bounds of numbers against plain scans, and bounds of dates.

ghost use Rattle.std.specs.Prelude.{◌≡◌, pos};
ghost use Rattle.helix_ladders.specs.Calendar.{last_moment};
ghost use Rattle.helix_pairs.specs.OffsetShift.{low_of, high_of};

use crate::pair::{Exclusion, excludes, inverse, lower, passes_upper};
use crate::{Bound, Comparison, End, OffsetShift, ValueRange, bound_of, signed};
use helix_ladders::Offset;
use helix_profile::{Compare, Relation};
use std::process::Abort;

const SMALL: ValueRange = ValueRange { low: -9, high: 9 };

const MOMENTS: ValueRange = ValueRange {
    low: 0,
    high: 315_537_897_599_999,
};

const COMPARISONS: [Comparison; 6] = [
    Comparison::Equal,
    Comparison::Different,
    Comparison::Above,
    Comparison::AtLeast,
    Comparison::Below,
    Comparison::AtMost,
];

#[test]
fn negations_have_their_comparisons(rt: HostRuntime) {
    let cases = [
        (Compare::Equal, Comparison::Equal, Comparison::Different),
        (Compare::Above, Comparison::Above, Comparison::AtMost),
        (Compare::AtLeast, Comparison::AtLeast, Comparison::Below),
        (Compare::Below, Comparison::Below, Comparison::AtLeast),
        (Compare::AtMost, Comparison::AtMost, Comparison::Above),
    ];
    for (compare, plus, minus) in cases {
        assert_eq!(rt; signed(compare, true), plus, "{compare:?}");
        assert_eq!(rt; signed(compare, false), minus, "not {compare:?}");
    }
}

/// Whether a relation holds of two small numbers.
fn related(
    rt: &impl Abort,
    comparison: Comparison,
    child: End,
    units: i128,
    p: i128,
    v: i128,
) -> bool {
    assert!(rt; -9 <= p && p <= 9 && -9 <= v && v <= 9 && -9 <= units && units <= 9);
    let (x, y) = match child {
        End::Left => (v, p + units),
        End::Right => (p, v + units),
    };
    match comparison {
        Comparison::Equal => x == y,
        Comparison::Different => x != y,
        Comparison::Above => x > y,
        Comparison::AtLeast => x >= y,
        Comparison::Below => x < y,
        Comparison::AtMost => x <= y,
    }
}

/// Whether a child meets the bounds of a small number.
fn meets(
    rt: &impl Abort,
    comparison: Comparison,
    child: End,
    units: i128,
    p: i128,
    v: i128,
) -> bool {
    assert!(rt; -9 <= p && p <= 9 && -9 <= v && v <= 9 && -9 <= units && units <= 9);
    let shift = OffsetShift::of(SMALL, Offset::Plain(units));
    let bounds = [Bound::new(comparison, child, shift)];
    let from = lower(&bounds, SMALL, p);
    let upper = passes_upper(&bounds, SMALL, p, v);
    let first = inverse(&bounds, SMALL, v);
    assert_eq!(rt;
        upper,
        first.is_some_and(|q| q <= p),
        "{comparison:?} {child:?} of {v}"
    );
    from.is_some_and(|m| m <= v) && upper && excludes(&bounds, SMALL, p, v) == Exclusion::No
}

#[test]
fn bounds_are_relations(rt: HostRuntime) {
    for comparison in COMPARISONS {
        for child in [End::Left, End::Right] {
            for (units, p) in [(0, 0), (2, 1), (-3, 9), (9, 9), (-9, -9), (5, -7)] {
                for step in 0..19u8 {
                    let v = i128::from(step) - 9;
                    assert_eq!(rt;
                        meets(&rt, comparison, child, units, p, v),
                        related(&rt, comparison, child, units, p, v),
                        "{comparison:?} {child:?} {units}: {p} and {v}"
                    );
                }
            }
        }
    }
}

/// The bound of a relation of dates with an offset by months, years or working days.
fn dated(
    rt: &impl Abort,
    compare: Compare,
    sign: bool,
    child: End,
    offset: Offset,
) -> Bound<OffsetShift>
    ensures low { low_of result.shift ≡ pos 0 }
    ensures high { high_of result.shift ≡ pos last_moment }
{
    match offset {
        Offset::Plain(_) => panic!(rt; "an offset by units"),
        Offset::Months(count) => assert!(rt; -99 <= count && count <= 99),
        Offset::Years(count) => assert!(rt; -99 <= count && count <= 99),
        Offset::WorkingDays(count) => assert!(rt; -99 <= count && count <= 99),
    }
    let relation = Relation {
        left: 0,
        compare,
        right: 1,
        offset,
    };
    bound_of(&relation, sign, child, MOMENTS)
}

// 738885 is 2024-01-01, a Monday, and 738944 is 2024-02-29.
#[test]
fn dates_have_bounds(rt: HostRuntime) {
    let last = 3_652_058;
    let cases = [
        (
            Offset::Months(1),
            Compare::Equal,
            true,
            End::Left,
            738_915,
            Some(738_944),
        ),
        (
            Offset::Months(1),
            Compare::Equal,
            true,
            End::Right,
            738_944,
            Some(738_913),
        ),
        (
            Offset::Months(1),
            Compare::AtLeast,
            false,
            End::Right,
            738_944,
            Some(738_916),
        ),
        (
            Offset::WorkingDays(1),
            Compare::Equal,
            true,
            End::Left,
            738_889,
            Some(738_892),
        ),
        (
            Offset::Years(1),
            Compare::Above,
            true,
            End::Left,
            last,
            None,
        ),
        (
            Offset::Years(1),
            Compare::Above,
            false,
            End::Left,
            last,
            Some(0),
        ),
    ];
    for (offset, compare, sign, child, parent, want) in cases {
        let least = least_day(&rt, &dated(&rt, compare, sign, child, offset), parent);
        assert_eq!(rt; least, want, "{compare:?} {sign} {offset:?} of {parent}");
    }
}

/// The day of the lower bound that a day sets.
fn least_day(rt: &impl Abort, bound: &Bound<OffsetShift>, parent: u32) -> Option<i128>
    requires low { low_of bound.now.shift ≡ pos 0 }
    requires high { high_of bound.now.shift ≡ pos last_moment }
{
    assert!(rt; parent < 3_652_059);
    match bound.lower(i128::from(parent) * 86_400_000) {
        Some(least) => Some(least / 86_400_000),
        None => None,
    }
}

// The last three days of January 2024 have one day a month later, and are excluded together.
#[test]
fn month_ends_are_excluded_together(rt: HostRuntime) {
    let (first, parent, next) = (738_913, 738_944, 738_916);
    let bound = dated(&rt, Compare::Equal, false, End::Right, Offset::Months(1));
    assert_eq!(rt;
        excluded_days(&rt, bound, parent, first),
        Exclusion::Before(next * 86_400_000)
    );
    let bound = dated(&rt, Compare::Equal, false, End::Right, Offset::Months(1));
    assert_eq!(rt; excluded_days(&rt, bound, parent, 738_912), Exclusion::No);
}

fn excluded_days(rt: &impl Abort, bound: Bound<OffsetShift>, parent: u32, child: u32) -> Exclusion
    requires low { low_of bound.shift ≡ pos 0 }
    requires high { high_of bound.shift ≡ pos last_moment }
{
    assert!(rt; parent < 3_652_059 && child < 3_652_059);
    let (parent, child) = (
        i128::from(parent) * 86_400_000,
        i128::from(child) * 86_400_000,
    );
    excludes(&[bound], MOMENTS, parent, child)
}
