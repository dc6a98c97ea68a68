//! The ladders of numbers and of moments.

use crate::{Calendar, Decades, Scale};
use std::process::Abort;

/// The least value on a level that isn't below a bound.
fn ceil<S: Scale>(rt: &impl Abort, scale: &S, level: u32, bound: i128) -> Option<i128> {
    assert!(rt; level < scale.levels());
    scale.ceil(level, bound)
}

/// Whether a value is on a level.
fn on<S: Scale>(rt: &impl Abort, scale: &S, level: u32, value: i128) -> bool {
    assert!(rt; level < scale.levels());
    scale.on(level, value)
}

pub const ONE: i128 = 1_000_000_000_000_000;

pub const GREATEST: i128 = 100_000_000_000_000_000_000_000_000_000_000_000;

#[test]
fn numbers_are_on_powers_of_ten(rt: HostRuntime) {
    let ladder = Decades;
    assert_eq!(rt; ladder.low(), -GREATEST);
    assert_eq!(rt; ladder.high(), GREATEST);
    assert_eq!(rt; ladder.levels(), 16);
    let cases = [
        (0, 0, Some(0)),
        (0, -7, Some(-7)),
        (1, 0, Some(0)),
        (1, 1, Some(10)),
        (1, 10, Some(10)),
        (1, -1, Some(0)),
        (1, -9, Some(0)),
        (1, -10, Some(-10)),
        (1, -11, Some(-10)),
        (15, 1, Some(ONE)),
        (15, ONE, Some(ONE)),
        (15, ONE + 1, Some(2 * ONE)),
        (15, -1, Some(0)),
        (15, -ONE - 1, Some(-ONE)),
        // After the last value that fits 64 bits.
        (15, 9_223_372_036_854_775_808, Some(9_224 * ONE)),
        (15, -9_223_372_036_854_775_809, Some(-9_223 * ONE)),
        (15, GREATEST - 1, Some(GREATEST)),
        (15, GREATEST, Some(GREATEST)),
        (0, GREATEST + 1, None),
        (15, GREATEST + 1, None),
        (15, -GREATEST - 1, Some(-GREATEST)),
        (3, i128::MIN, Some(-GREATEST)),
        (3, i128::MAX, None),
    ];
    for (level, bound, want) in cases {
        assert_eq!(rt;
            ceil(&rt, &ladder, level, bound),
            want,
            "{bound} on {level}"
        );
        let on_level = want == Some(bound);
        if -GREATEST <= bound && bound <= GREATEST {
            assert_eq!(rt;
                on(&rt, &ladder, level, bound),
                on_level,
                "{bound} on {level}"
            );
        }
    }
}

/// The steps of the levels, from the finest.
pub const STEPS: [i128; 16] = [
    1,
    10,
    100,
    1_000,
    10_000,
    100_000,
    1_000_000,
    10_000_000,
    100_000_000,
    1_000_000_000,
    10_000_000_000,
    100_000_000_000,
    1_000_000_000_000,
    10_000_000_000_000,
    100_000_000_000_000,
    1_000_000_000_000_000,
];

#[test]
fn each_level_of_numbers_has_its_step(rt: HostRuntime) {
    let ladder = Decades;
    let mut level = 0;
    for step in STEPS {
        assert!(rt; level < 16 && step <= ONE);
        assert_eq!(rt; ceil(&rt, &ladder, level, 1), Some(step), "{level}");
        assert_eq!(rt; ceil(&rt, &ladder, level, step), Some(step), "{level}");
        assert_eq!(rt; ceil(&rt, &ladder, level, 0), Some(0), "{level}");
        assert_eq!(rt;
            ceil(&rt, &ladder, level, GREATEST),
            Some(GREATEST),
            "{level}"
        );
        assert_eq!(rt; ceil(&rt, &ladder, level, GREATEST + 1), None, "{level}");
        assert_eq!(rt;
            ceil(&rt, &ladder, level, -GREATEST - 1),
            Some(-GREATEST),
            "{level}"
        );
        assert!(rt; on(&rt, &ladder, level, step), "{level}");
        assert_eq!(rt; on(&rt, &ladder, level, 1), level == 0, "{level}");
        level += 1;
    }
}

pub const DAY: i128 = 86_400_000;

pub const LAST: i128 = 315_537_897_599_999;

// The days are those of Python's `datetime.date.toordinal`, less one.
#[test]
fn moments_are_on_units_months_and_years(rt: HostRuntime) {
    let ladder = Calendar;
    assert_eq!(rt; ladder.low(), 0);
    assert_eq!(rt; ladder.high(), LAST);
    assert_eq!(rt; ladder.levels(), 7);
    let cases = [
        (0, -1, Some(0)),
        (0, 1, Some(1)),
        (0, LAST, Some(LAST)),
        (0, LAST + 1, None),
        (1, 1, Some(1_000)),
        (1, LAST, None),
        (1, LAST - 999, Some(LAST - 999)),
        (2, 1, Some(60_000)),
        (2, 60_001, Some(120_000)),
        (3, 1, Some(3_600_000)),
        (3, LAST, None),
        (4, 1, Some(DAY)),
        (4, DAY, Some(DAY)),
        (4, LAST - 86_399_999, Some(LAST - 86_399_999)),
        (4, LAST - 86_399_998, None),
        (5, i128::MIN, Some(0)),
        (5, 0, Some(0)),
        (5, 1, Some(31 * DAY)),
        // 28 February and 1 March of 1900; 28 and 29 February and 1 March of 2000 and 2024.
        (5, 693_653 * DAY, Some(693_654 * DAY)),
        (5, 693_653 * DAY + 1, Some(693_654 * DAY)),
        (5, 693_654 * DAY, Some(693_654 * DAY)),
        (5, 730_177 * DAY, Some(730_179 * DAY)),
        (5, 730_178 * DAY, Some(730_179 * DAY)),
        (5, 730_178 * DAY + 1, Some(730_179 * DAY)),
        (5, 738_943 * DAY, Some(738_945 * DAY)),
        (5, 738_944 * DAY, Some(738_945 * DAY)),
        // 1 and 31 December of 2024, and the begin of 2025.
        (5, 739_220 * DAY + 1, Some(739_251 * DAY)),
        (5, 739_250 * DAY, Some(739_251 * DAY)),
        (6, 739_250 * DAY, Some(739_251 * DAY)),
        (6, 739_250 * DAY + 1, Some(739_251 * DAY)),
        (6, 739_251 * DAY, Some(739_251 * DAY)),
        (6, 738_885 * DAY, Some(738_885 * DAY)),
        (6, 738_885 * DAY + 1, Some(739_251 * DAY)),
        (6, 1, Some(365 * DAY)),
        // The last month and the last year begin on days 3,652,028 and 3,651,694.
        (5, 3_652_028 * DAY, Some(3_652_028 * DAY)),
        (5, 3_652_028 * DAY + 1, None),
        (5, LAST, None),
        (6, 3_651_694 * DAY, Some(3_651_694 * DAY)),
        (6, 3_651_694 * DAY + 1, None),
        (6, i128::MAX, None),
    ];
    for (level, bound, want) in cases {
        assert_eq!(rt;
            ceil(&rt, &ladder, level, bound),
            want,
            "{bound} on {level}"
        );
        let on_level = want == Some(bound);
        if 0 <= bound && bound <= LAST {
            assert_eq!(rt;
                on(&rt, &ladder, level, bound),
                on_level,
                "{bound} on {level}"
            );
        }
    }
}
