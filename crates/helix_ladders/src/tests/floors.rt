//! The greatest values of the ladders up to a bound, and the steps of their levels.

use super::ladders::{DAY, GREATEST, LAST, ONE, STEPS};
use crate::{Calendar, Decades, Scale};
use std::process::Abort;

/// The greatest value on a level that isn't above a bound.
fn floor<S: Scale>(rt: &impl Abort, scale: &S, level: u32, bound: i128) -> Option<i128> {
    assert!(rt; level < scale.levels());
    scale.floor(level, bound)
}

/// The step of a level, and whether the level has all multiples of it.
fn step<S: Scale>(rt: &impl Abort, scale: &S, level: u32) -> (i128, bool) {
    assert!(rt; level < scale.levels());
    (i128::from(scale.step(level)), scale.is_regular(level))
}

#[test]
fn numbers_have_floors_and_steps(rt: HostRuntime) {
    let cases = [
        (0, -7, Some(-7)),
        (1, 0, Some(0)),
        (1, 9, Some(0)),
        (1, 10, Some(10)),
        (1, 11, Some(10)),
        (1, -1, Some(-10)),
        (1, -10, Some(-10)),
        (1, -11, Some(-20)),
        (15, ONE - 1, Some(0)),
        (15, 2 * ONE, Some(2 * ONE)),
        (15, -1, Some(-ONE)),
        (15, -ONE - 1, Some(-2 * ONE)),
        // After the last value that fits 64 bits.
        (15, 9_223_372_036_854_775_808, Some(9_223 * ONE)),
        (15, -9_223_372_036_854_775_809, Some(-9_224 * ONE)),
        (15, GREATEST - 1, Some(GREATEST - ONE)),
        (15, 1 - GREATEST, Some(-GREATEST)),
        (0, GREATEST + 1, Some(GREATEST)),
        (15, i128::MAX, Some(GREATEST)),
        (0, -GREATEST, Some(-GREATEST)),
        (0, -GREATEST - 1, None),
        (3, i128::MIN, None),
    ];
    for (level, bound, want) in cases {
        assert_eq!(rt;
            floor(&rt, &Decades, level, bound),
            want,
            "{bound} on {level}"
        );
    }
    let mut level = 0;
    for want in STEPS {
        assert!(rt; level < 16 && want <= ONE);
        assert_eq!(rt; step(&rt, &Decades, level), (want, true), "{level}");
        assert_eq!(rt; floor(&rt, &Decades, level, -1), Some(-want), "{level}");
        assert_eq!(rt;
            floor(&rt, &Decades, level, 2 * want - 1),
            Some(want),
            "{level}"
        );
        level += 1;
    }
}

// The days are those of Python's `datetime.date.toordinal`, less one.
#[test]
fn moments_have_floors_and_steps(rt: HostRuntime) {
    let cases = [
        (0, -1, None),
        (0, 0, Some(0)),
        (0, LAST + 1, Some(LAST)),
        (1, 999, Some(0)),
        (1, 1_000, Some(1_000)),
        (1, LAST, Some(LAST - 999)),
        (2, 60_001, Some(60_000)),
        (3, LAST, Some(LAST - 3_599_999)),
        (4, DAY - 1, Some(0)),
        (4, LAST, Some(LAST - 86_399_999)),
        (5, -1, None),
        (5, 0, Some(0)),
        (5, 31 * DAY - 1, Some(0)),
        (5, 31 * DAY, Some(31 * DAY)),
        // 28 February and 1 March of 1900; 29 February of 2000 and of 2024.
        (5, 693_653 * DAY, Some(693_626 * DAY)),
        (5, 693_654 * DAY, Some(693_654 * DAY)),
        (5, 730_178 * DAY, Some(730_150 * DAY)),
        (5, 738_945 * DAY - 1, Some(738_916 * DAY)),
        (5, 738_945 * DAY, Some(738_945 * DAY)),
        // 31 December of 2024, and the beginning of 2025.
        (5, 739_250 * DAY, Some(739_220 * DAY)),
        (6, 739_251 * DAY - 1, Some(738_885 * DAY)),
        (6, 739_251 * DAY, Some(739_251 * DAY)),
        (6, 365 * DAY - 1, Some(0)),
        (6, 365 * DAY, Some(365 * DAY)),
        // The last month and the last year begin on days 3,652,028 and 3,651,694.
        (5, LAST, Some(3_652_028 * DAY)),
        (5, 3_652_028 * DAY - 1, Some(3_651_998 * DAY)),
        (6, i128::MAX, Some(3_651_694 * DAY)),
        (6, i128::MIN, None),
    ];
    for (level, bound, want) in cases {
        assert_eq!(rt;
            floor(&rt, &Calendar, level, bound),
            want,
            "{bound} on {level}"
        );
    }
    let steps = [
        (1, true),
        (1_000, true),
        (60_000, true),
        (3_600_000, true),
        (DAY, true),
        (DAY, false),
        (DAY, false),
    ];
    let mut level = 0;
    for want in steps {
        assert!(rt; level < 7);
        assert_eq!(rt; step(&rt, &Calendar, level), want, "{level}");
        level += 1;
    }
}
