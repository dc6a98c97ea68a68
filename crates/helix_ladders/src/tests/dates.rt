//! Dates, shifts of moments, and grids.

use crate::{
    Date, Offset, date_of, day_number, days_of_month, is_on_moment_grid, is_on_number_grid, shifted,
};
use std::process::Abort;

/// The number of a date's day.
fn number(rt: &impl Abort, year: u32, month: u32, day: u32) -> u32 {
    assert!(rt; 1 <= year && year <= 9999 && 1 <= month && month <= 12);
    assert!(rt; 1 <= day && day <= days_of_month(year, month));
    day_number(year, month, day)
}

/// The first millisecond of a date.
fn at(rt: &impl Abort, (year, month, day): (u32, u32, u32)) -> i128 {
    i128::from(number(rt, year, month, day)) * 86_400_000
}

// The numbers are those of Python's `datetime.date.toordinal`, less one.
#[test]
fn days_are_numbered(rt: HostRuntime) {
    let cases = [
        (1, 1, 1, 0),
        (1, 12, 31, 364),
        (4, 2, 29, 1154),
        (1900, 2, 28, 693_653),
        (1900, 3, 1, 693_654),
        (2000, 2, 29, 730_178),
        (2024, 2, 29, 738_944),
        (9999, 12, 31, 3_652_058),
    ];
    for (year, month, day, want) in cases {
        assert_eq!(rt; number(&rt, year, month, day), want, "{year}-{month}-{day}");
        assert!(rt; want < 3_652_059);
        assert_eq!(rt; date_of(want), Date { year, month, day }, "{want}");
    }
}

#[test]
fn months_and_years_are_shifted(rt: HostRuntime) {
    let months = [
        ((2024, 1, 31), 1, (2024, 2, 29)),
        ((2024, 1, 30), 1, (2024, 2, 29)),
        ((2024, 1, 29), 1, (2024, 2, 29)),
        ((2023, 1, 29), 1, (2023, 2, 28)),
        ((2024, 2, 29), 1, (2024, 3, 29)),
        ((2024, 3, 31), -1, (2024, 2, 29)),
        ((2024, 1, 15), -1, (2023, 12, 15)),
        ((2024, 1, 15), 0, (2024, 1, 15)),
        ((1, 1, 1), 119_987, (9999, 12, 1)),
    ];
    for (from, n, to) in months {
        let value = at(&rt, from);
        assert!(rt; 0 <= value && value <= 315_537_897_599_999);
        assert_eq!(rt;
            shifted(Offset::Months(n), value),
            at(&rt, to),
            "{from:?} and {n}"
        );
    }
    // A shift by months begins at the day, whatever the time is.
    let noon = 738_915 * 86_400_000 + 43_200_000;
    assert_eq!(rt; shifted(Offset::Months(1), noon), at(&rt, (2024, 2, 29)));
    assert_eq!(rt;
        shifted(Offset::WorkingDays(0), noon),
        at(&rt, (2024, 1, 31))
    );
    assert_eq!(rt;
        shifted(Offset::Plain(-43_200_000), noon),
        at(&rt, (2024, 1, 31))
    );
    let years = [
        ((2024, 2, 29), 1, (2025, 2, 28)),
        ((2024, 2, 29), -4, (2020, 2, 29)),
    ];
    for (from, n, to) in years {
        let value = at(&rt, from);
        assert!(rt; 0 <= value && value <= 315_537_897_599_999);
        assert_eq!(rt;
            shifted(Offset::Years(n), value),
            at(&rt, to),
            "{from:?} and {n}"
        );
    }
}

#[test]
fn working_days_are_shifted(rt: HostRuntime) {
    let cases = [
        ((2024, 1, 5), 1, (2024, 1, 8)),
        ((2024, 1, 6), 1, (2024, 1, 8)),
        ((2024, 1, 7), 1, (2024, 1, 8)),
        ((2024, 1, 8), 1, (2024, 1, 9)),
        ((2024, 1, 5), 6, (2024, 1, 15)),
        ((2024, 1, 8), -1, (2024, 1, 5)),
        ((2024, 1, 7), -1, (2024, 1, 5)),
        ((2024, 1, 7), 0, (2024, 1, 7)),
        ((2024, 1, 15), -6, (2024, 1, 5)),
        ((1, 1, 2), -1, (1, 1, 1)),
        ((9999, 12, 30), 1, (9999, 12, 31)),
    ];
    for (from, n, to) in cases {
        let value = at(&rt, from);
        assert!(rt; 0 <= value && value <= 315_537_897_599_999);
        assert_eq!(rt;
            shifted(Offset::WorkingDays(n), value),
            at(&rt, to),
            "{from:?} and {n}"
        );
    }
}

#[test]
fn shifts_leave_the_calendar(rt: HostRuntime) {
    let last = 3_652_058 * 86_400_000;
    let after_all = 315_537_897_600_000;
    for n in [1, 9_999, i64::MAX] {
        assert_eq!(rt; shifted(Offset::Years(n), last), after_all, "{n} years");
        assert_eq!(rt; shifted(Offset::Months(n), last), after_all, "{n} months");
        assert_eq!(rt;
            shifted(Offset::WorkingDays(n), last),
            after_all,
            "{n} days"
        );
    }
    for n in [-1, -9_999, i64::MIN] {
        assert_eq!(rt; shifted(Offset::Years(n), 0), -1, "{n} years");
        assert_eq!(rt; shifted(Offset::Months(n), 0), -1, "{n} months");
        assert_eq!(rt; shifted(Offset::WorkingDays(n), 0), -1, "{n} days");
    }
    assert_eq!(rt; shifted(Offset::Plain(-5), 3), -2);
    assert_eq!(rt; shifted(Offset::Months(0), -1), 0);
    assert_eq!(rt; shifted(Offset::Months(0), after_all), last);
}

#[test]
fn grids_are_ladders(rt: HostRuntime) {
    let numbers = [
        (0, 1, true),
        (1, 1, false),
        (14, 100_000_000_000_000, true),
        (15, 100_000_000_000_000, false),
        (15, -3_000_000_000_000_000, true),
        (15, 0, true),
    ];
    for (level, units, want) in numbers {
        assert!(rt; level < 16);
        assert_eq!(rt; is_on_number_grid(level, units), want, "{units} on {level}");
    }
    // 2024-01-01, 2024-02-01, 2024-02-02 and 9999-12-01 are the days 738885, 738916, 738917 and 3652028.
    let day = 86_400_000;
    let moments = [
        (0, 1, true),
        (1, 1_500, false),
        (1, 2_000, true),
        (2, 120_000, true),
        (3, 120_000, false),
        (3, 7_200_000, true),
        (4, 7_200_000, false),
        (4, 738_917 * day, true),
        (5, 738_917 * day, false),
        (5, 738_916 * day, true),
        (5, 738_916 * day + 1, false),
        (6, 738_916 * day, false),
        (6, 738_885 * day, true),
        (5, 3_652_028 * day, true),
        (5, 3_652_059 * day, false),
        (6, 0, true),
        (6, -day, false),
    ];
    for (level, millis, want) in moments {
        assert!(rt; level < 16);
        assert_eq!(rt;
            is_on_moment_grid(level, millis),
            want,
            "{millis} on {level}"
        );
    }
}
