//! Sets of numbers that a grid lists or leaves out.

use super::{GREATEST, grid, listed, numbers, whole};
use crate::{GridTest, Numbers};
use helix_ladders::Decades;
use std::test::Fail;

#[test]
fn sets_keep_what_passes(rt: HostRuntime) -> Result<(), Fail> {
    let alloc = rt.alloc();
    let tests = [
        GridTest::NoneOf(numbers(alloc, &[2, 9, 2])?),
        GridTest::OneOf(numbers(alloc, &[30, 10, 2, 1, 10, -GREATEST - 1])?),
        GridTest::NoneOf(numbers(alloc, &[1])?),
        GridTest::OneOf(numbers(alloc, &[40, 30, 10, 2, 1, 7])?),
        GridTest::Most(29),
    ];
    let wants = [
        [-2, -1, 0, 1].as_slice(),
        [1, 10, 30].as_slice(),
        [10, 30].as_slice(),
        [10, 30].as_slice(),
        [10].as_slice(),
    ];
    for (count, want) in wants.iter().enumerate() {
        assert!(rt; count < tests.len());
        let mut some = grid(&rt, alloc, Decades, 0, &tests[..=count])?;
        if count == 0 {
            some.meet(&GridTest::Most(1))?;
        }
        let values = listed(alloc, &some, -2)?;
        assert_eq!(rt; values.as_slice(), *want, "after {count}");
    }
    Ok(())
}

#[test]
fn a_run_of_exclusions_is_skipped(rt: HostRuntime) -> Result<(), Fail> {
    let alloc = rt.alloc();
    let mut run = Numbers::new(alloc);
    for value in 0..10_000u32 {
        run.push(i128::from(value))?;
    }
    let tests = [GridTest::NoneOf(run)];
    let mut apart = grid(&rt, alloc, Decades, 0, &tests)?;
    let cases = [
        (-1, -1),
        (0, 10_000),
        (1, 10_000),
        (5_000, 10_000),
        (9_999, 10_000),
        (10_000, 10_000),
        (10_001, 10_001),
    ];
    for (bound, want) in cases {
        assert_eq!(rt; apart.at_or_after(bound), Some(want), "{bound}");
    }
    apart.meet(&GridTest::Off(2))?;
    apart.meet(&GridTest::Most(10_001))?;
    assert_eq!(rt; apart.at_or_after(0), Some(10_001));
    assert_eq!(rt; apart.at_or_after(10_002), None);
    Ok(())
}

// Met one by one, these sets take seconds.
#[test]
fn a_thousand_sets_are_met_at_once(rt: HostRuntime) -> Result<(), Fail> {
    let alloc = rt.alloc();
    let mut tests = Vec::new(alloc);
    for set in 0..1_000u32 {
        let mut others = Numbers::new(alloc);
        for number in 0..100u32 {
            others.push(i128::from(set + 1_000 * number))?;
        }
        tests.push(GridTest::NoneOf(others))?;
    }
    let apart = whole(&rt, alloc, Decades, 0, tests.as_slice())?;
    let cases = [
        (-1, -1),
        (0, 100_000),
        (77_777, 100_000),
        (100_001, 100_001),
    ];
    for (bound, want) in cases {
        assert_eq!(rt; apart.at_or_after(bound), Some(want), "{bound}");
    }
    Ok(())
}

#[test]
fn copies_have_the_same_numbers(rt: HostRuntime) -> Result<(), Fail> {
    let alloc = rt.alloc();
    let list = numbers(alloc, &[3, -1, 3])?;
    let copy = list.copy(alloc)?;
    assert_eq!(rt; copy.as_slice(), [3, -1, 3].as_slice());
    let test = GridTest::OneOf(copy).copy(alloc)?;
    let kept =
        matches!(&test, GridTest::OneOf(members) if members.as_slice() == [3, -1, 3].as_slice());
    assert!(rt; kept);
    Ok(())
}
