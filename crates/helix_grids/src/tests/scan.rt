//! A grid beside a walk over all values of a small range.

use super::{LAST_MOMENT, grid, numbers, whole};
use crate::GridTest;
use helix_base::Memory;
use helix_ladders::{Calendar, Decades, Scale};
use std::alloc::Global;
use std::process::Abort;
use std::test::Fail;

/// Whether a value is on a level.
fn on<S: Scale>(rt: &impl Abort, scale: &S, level: u32, value: i128) -> bool {
    assert!(rt; level < scale.levels());
    scale.on(level, value)
}

/// Whether a value passes a test, as its definition says.
fn passes<S: Scale>(rt: &impl Abort, scale: &S, test: &GridTest, value: i128) -> bool {
    match test {
        GridTest::Least(bound) => *bound <= value,
        GridTest::Most(bound) => value <= *bound,
        GridTest::On(level) => on(rt, scale, *level, value),
        GridTest::Off(level) => !on(rt, scale, *level, value),
        GridTest::OneOf(members) => members.as_slice().contains(&value),
        GridTest::NoneOf(others) => !others.as_slice().contains(&value),
    }
}

/// Whether a value of the ladder is on a level and passes all tests.
fn is_member<S: Scale>(
    rt: &impl Abort,
    scale: &S,
    level: u32,
    tests: &[GridTest],
    value: i128,
) -> bool {
    if value < scale.low() || scale.high() < value || !on(rt, scale, level, value) {
        return false;
    }
    for test in tests {
        if !passes(rt, scale, test, value) {
            return false;
        }
    }
    true
}

/// Compares a grid, met test by test and all at once, with a walk from `first` over `count` values,
/// which its tests don't leave.
fn compare<S: Scale + Copy + Drop>(
    rt: &impl Abort,
    alloc: Global,
    scale: S,
    level: u32,
    tests: &[GridTest],
    first: i64,
    count: u16,
) -> Result<(), Memory> {
    let grid = grid(rt, alloc, scale, level, tests)?;
    let whole = whole(rt, alloc, scale, level, tests)?;
    let mut want = None;
    let mut above = None;
    for step in (0..count).rev() {
        let value = i128::from(first.wrapping_add(i64::from(step)));
        if is_member(rt, &scale, level, tests, value) {
            above = want;
            want = Some(value);
        }
        assert_eq!(rt; grid.at_or_after(value), want, "{value} on {level}");
        assert_eq!(rt; whole.at_or_after(value), want, "{value} on {level}");
        if let Some(member) = grid.at_or_after(value) {
            assert_eq!(rt; grid.after(member), above, "after {member} on {level}");
        }
    }
    Ok(())
}

/// The tests of a case: bounds, grids, and sets as the bits of `kinds` say.
fn tests_of(
    alloc: Global,
    (least, most): (i128, i128),
    (on, off): (u32, u32),
    kinds: u8,
    set: &[i128],
) -> Result<Vec<GridTest>, Memory> {
    let mut tests = Vec::new(alloc);
    if kinds & 1 != 0 {
        tests.push(GridTest::NoneOf(numbers(alloc, set)?))?;
    }
    tests.push(GridTest::Least(least))?;
    tests.push(GridTest::On(on))?;
    if kinds & 2 != 0 {
        tests.push(GridTest::OneOf(numbers(alloc, set)?))?;
    }
    tests.push(GridTest::Off(off))?;
    if kinds & 4 != 0 && set.len() > 4 {
        tests.push(GridTest::NoneOf(numbers(alloc, &set[..4])?))?;
    }
    tests.push(GridTest::Most(most))?;
    Ok(tests)
}

#[test]
fn a_grid_answers_as_a_walk_does(rt: HostRuntime) -> Result<(), Fail> {
    let alloc = rt.alloc();
    let set = [
        100, 11, 12, 13, 14, -100, -1, -2, 15, 16, 17, 18, 19, 20, 21, 22, 23, 40, 0, 10, -10, 99,
    ];
    for kinds in 0..8u8 {
        for on in 0..3u32 {
            for off in 0..4u32 {
                for (least, most) in [(-115, 115), (-20, 100), (11, 23)] {
                    let tests = tests_of(alloc, (least, most), (on, off), kinds, &set)?;
                    compare(&rt, alloc, Decades, 0, tests.as_slice(), -118, 236)?;
                }
            }
        }
    }
    // Around the first moment, the first of March 2024 and the last moment.
    for start in [0, 63_844_848_000_000, LAST_MOMENT] {
        let near = [
            start,
            start - 1,
            start + 1,
            start + 1_000,
            start - 1_000,
            start - 1_001,
        ];
        for kinds in 0..8u8 {
            for (on, off) in [
                (0, 1),
                (0, 6),
                (1, 2),
                (1, 5),
                (2, 3),
                (4, 5),
                (5, 6),
                (6, 4),
            ] {
                let tests = tests_of(
                    alloc,
                    (start - 1_900, start + 1_900),
                    (on, off),
                    kinds,
                    &near,
                )?;
                let first = i64::try_from(start - 2_000).expect(&rt, "a moment");
                compare(&rt, alloc, Calendar, 0, tests.as_slice(), first, 4_000)?;
            }
        }
    }
    Ok(())
}
