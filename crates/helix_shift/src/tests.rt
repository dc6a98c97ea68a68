//! Shifts of dates, their inverses, and both against plain scans.

use crate::DayShift;
use helix_ladders::{Offset, Shift, day_number, days_of_month, shifted};
use std::process::Abort;

const DAY: i128 = 86_400_000;

const LAST: i128 = 315_537_897_599_999;

const BEFORE_ALL: i128 = -1;

const AFTER_ALL: i128 = 315_537_897_600_000;

/// The first millisecond of a date.
fn at(rt: &impl Abort, (year, month, day): (u32, u32, u32)) -> i128 {
    assert!(rt; 1 <= year && year <= 9999 && 1 <= month && month <= 12);
    assert!(rt; 1 <= day && day <= days_of_month(year, month));
    i128::from(day_number(year, month, day)) * DAY
}

/// So many milliseconds later.
fn after(rt: &impl Abort, moment: i128, millis: i128) -> i128 {
    assert!(rt; 0 <= moment && moment <= LAST);
    assert!(rt; 0 <= millis && millis <= LAST);
    moment + millis
}

fn shift_by(rt: &impl Abort, offset: Offset) -> DayShift {
    match offset {
        Offset::Plain(_) => panic!(rt; "an offset by units"),
        Offset::Months(count) => assert!(rt; -119_988 <= count && count <= 119_988),
        Offset::Years(count) => assert!(rt; -9_999 <= count && count <= 9_999),
        Offset::WorkingDays(count) => assert!(rt; -3_652_059 <= count && count <= 3_652_059),
    }
    DayShift::new(offset)
}

/// What a moment is shifted to.
fn apply(rt: &impl Abort, offset: Offset, moment: i128) -> i128 {
    assert!(rt; 0 <= moment && moment <= LAST);
    shift_by(rt, offset).apply(moment)
}

fn least_from(rt: &impl Abort, offset: Offset, target: i128) -> Option<i128> {
    shift_by(rt, offset).least_from(target)
}

#[test]
fn months_and_years_are_shifted(rt: HostRuntime) {
    let cases = [
        (Offset::Months(1), (2024, 1, 31), (2024, 2, 29)),
        (Offset::Months(1), (2023, 1, 31), (2023, 2, 28)),
        (Offset::Months(1), (2024, 1, 29), (2024, 2, 29)),
        (Offset::Months(1), (2024, 2, 29), (2024, 3, 29)),
        (Offset::Months(-1), (2024, 3, 31), (2024, 2, 29)),
        (Offset::Months(-1), (2024, 1, 15), (2023, 12, 15)),
        (Offset::Months(0), (2024, 1, 15), (2024, 1, 15)),
        (Offset::Months(119_987), (1, 1, 1), (9999, 12, 1)),
        (Offset::Months(-119_987), (9999, 12, 31), (1, 1, 31)),
        (Offset::Years(1), (2024, 2, 29), (2025, 2, 28)),
        (Offset::Years(-1), (2024, 2, 29), (2023, 2, 28)),
        (Offset::Years(-4), (2024, 2, 29), (2020, 2, 29)),
        (Offset::Years(0), (2024, 2, 29), (2024, 2, 29)),
        (Offset::Years(9_998), (1, 12, 31), (9999, 12, 31)),
    ];
    for (offset, from, to) in cases {
        let late = after(&rt, at(&rt, from), DAY - 1);
        assert_eq!(rt;
            apply(&rt, offset, late),
            at(&rt, to),
            "{offset:?} of {from:?}"
        );
    }
}

// Days of January 2024, whose first is a Monday, and the day that is as many working days earlier.
#[test]
fn working_days_are_shifted(rt: HostRuntime) {
    let cases = [
        (1, 1, (2024, 1, 2), (2023, 12, 29)),
        (2, 1, (2024, 1, 3), (2024, 1, 1)),
        (3, 1, (2024, 1, 4), (2024, 1, 2)),
        (4, 1, (2024, 1, 5), (2024, 1, 3)),
        (5, 1, (2024, 1, 8), (2024, 1, 4)),
        (6, 1, (2024, 1, 8), (2024, 1, 5)),
        (7, 1, (2024, 1, 8), (2024, 1, 5)),
        (8, 1, (2024, 1, 9), (2024, 1, 5)),
        (5, 5, (2024, 1, 12), (2023, 12, 29)),
        (6, 5, (2024, 1, 12), (2024, 1, 1)),
        (8, 6, (2024, 1, 16), (2023, 12, 29)),
        (10, 0, (2024, 1, 10), (2024, 1, 10)),
        (13, 0, (2024, 1, 13), (2024, 1, 13)),
    ];
    for (day, count, later, earlier) in cases {
        let late = after(&rt, at(&rt, (2024, 1, day)), DAY - 1);
        let forth = apply(&rt, Offset::WorkingDays(count), late);
        let back = apply(&rt, Offset::WorkingDays(0 - count), late);
        assert_eq!(rt; forth, at(&rt, later), "{day} and {count}");
        assert_eq!(rt; back, at(&rt, earlier), "{day} and -{count}");
    }
}

#[test]
fn shifts_leave_the_calendar(rt: HostRuntime) {
    let last = at(&rt, (9999, 12, 31));
    let cases = [
        (Offset::Months(1), Offset::Months(-1)),
        (Offset::Months(119_988), Offset::Months(-119_988)),
        (Offset::Years(1), Offset::Years(-1)),
        (Offset::Years(9_999), Offset::Years(-9_999)),
        (Offset::WorkingDays(1), Offset::WorkingDays(-1)),
        (
            Offset::WorkingDays(3_652_059),
            Offset::WorkingDays(-3_652_059),
        ),
    ];
    for (forth, back) in cases {
        assert_eq!(rt; apply(&rt, forth, last), AFTER_ALL, "{forth:?}");
        assert_eq!(rt; apply(&rt, back, 0), BEFORE_ALL, "{back:?}");
        assert_eq!(rt; least_from(&rt, forth, BEFORE_ALL), Some(0), "{forth:?}");
        assert_eq!(rt; least_from(&rt, forth, i128::MAX), None, "{forth:?}");
        assert_eq!(rt; least_from(&rt, back, i128::MIN), Some(0), "{back:?}");
        assert_eq!(rt; least_from(&rt, back, AFTER_ALL), None, "{back:?}");
    }
    assert_eq!(rt;
        least_from(&rt, Offset::Months(1), AFTER_ALL),
        Some(at(&rt, (9999, 12, 1)))
    );
    assert_eq!(rt;
        least_from(&rt, Offset::WorkingDays(1), AFTER_ALL),
        Some(last)
    );
    assert_eq!(rt; least_from(&rt, Offset::Months(0), AFTER_ALL), None);
    assert_eq!(rt;
        least_from(&rt, Offset::Months(-1), 0),
        Some(at(&rt, (1, 2, 1)))
    );
}

#[test]
fn the_least_day_is_found(rt: HostRuntime) {
    let cases = [
        (1, (2024, 2, 29), 0, (2024, 1, 29)),
        (1, (2024, 2, 29), 1, (2024, 2, 1)),
        (1, (2024, 2, 28), 0, (2024, 1, 28)),
        (1, (2023, 2, 28), 0, (2023, 1, 28)),
        (1, (2024, 3, 30), 0, (2024, 3, 1)),
        (1, (2024, 3, 1), 0, (2024, 2, 1)),
        (-1, (2024, 2, 29), 0, (2024, 3, 29)),
        (0, (2024, 2, 29), 0, (2024, 2, 29)),
    ];
    for (count, target, time, want) in cases {
        let target = after(&rt, at(&rt, target), time);
        let least = least_from(&rt, Offset::Months(count), target);
        assert_eq!(rt; least, Some(at(&rt, want)), "{target} and {count}");
    }
}

/// So many half days later.
fn halves_after(rt: &impl Abort, moment: i128, halves: u32) -> i128 {
    after(rt, moment, DAY / 2 * i128::from(halves))
}

fn plainly(rt: &impl Abort, offset: Offset, moment: i128) -> i128 {
    match offset {
        Offset::Plain(_) => panic!(rt; "an offset by units"),
        Offset::Months(count) => shifted(Offset::Months(count), moment),
        Offset::Years(count) => shifted(Offset::Years(count), moment),
        Offset::WorkingDays(count) => shifted(Offset::WorkingDays(count), moment),
    }
}

/// The least day from 2024-01-01 on that the plain shift moves to the target or beyond.
fn scanned(rt: &impl Abort, offset: Offset, target: i128) -> i128 {
    let mut day = at(rt, (2024, 1, 1));
    for _ in 0..200 {
        if plainly(rt, offset, day) >= target {
            return day;
        }
        day = after(rt, day, DAY);
    }
    day
}

#[test]
fn scans_agree(rt: HostRuntime) {
    let cases = [
        (Offset::Months(1), (2024, 2, 2), 180),
        (Offset::Months(-1), (2023, 12, 2), 180),
        (Offset::Months(13), (2025, 2, 2), 180),
        (Offset::Months(0), (2024, 1, 2), 20),
        (Offset::Years(-1), (2023, 1, 2), 180),
        (Offset::WorkingDays(1), (2024, 1, 3), 60),
        (Offset::WorkingDays(-1), (2023, 12, 30), 60),
        (Offset::WorkingDays(7), (2024, 1, 11), 60),
        (Offset::WorkingDays(0), (2024, 1, 2), 20),
    ];
    for (offset, from, halves) in cases {
        for half in 0..halves {
            let target = halves_after(&rt, at(&rt, from), half);
            let least = scanned(&rt, offset, target);
            assert_eq!(rt;
                least_from(&rt, offset, target),
                Some(least),
                "{offset:?} to {target}"
            );
            assert_eq!(rt;
                apply(&rt, offset, least),
                plainly(&rt, offset, least),
                "{offset:?}"
            );
        }
    }
}
